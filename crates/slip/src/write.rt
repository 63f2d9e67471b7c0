// Writing a slip (02, #101): checks 19 and 8.
ghost use Rattle.std.specs.Prelude.{◌≡◌};
ghost use Rattle.hash.specs.Refusal.{status_of};
ghost use Rattle.slip.specs.Calls.{write_slip_call};
ghost use Rattle.slip.specs.Format.{leading, slip_of};

use crate::read::{MARK, VERSION};
use crate::size::set_by_size;
use hash::refusal::Refusal;
use signature::keyform::bytes_at;

// The leading bytes: the mark, version 1, movement, track, the length of the text.
fn leading_bytes(movement: u16, track: u8, text: u16) -> [u8; 10]
    ensures { result ≡ leading movement track text }
{
    let [mark_0, mark_1, mark_2] = MARK;
    let [version_low, version_high] = VERSION;
    let [movement_low, movement_high] = movement.to_le_bytes();
    let [text_low, text_high] = text.to_le_bytes();
    [
        mark_0,
        mark_1,
        mark_2,
        version_low,
        version_high,
        movement_low,
        movement_high,
        track,
        text_low,
        text_high,
    ]
}

// The bytes of a slip into a buffer that is lent; or check 19 where the text has more than 512 bytes or no set has signatures of this length, 8 where
// the buffer is not just as long as the slip. Then the buffer is as it was.
pub fn write_slip(
    movement: u16,
    track: u8,
    text: &[u8],
    signature: &[u8],
    slip_out: &mut [u8],
) -> Result<(), Refusal>
    ensures { (status_of result, slip_out.new)
        ≡ write_slip_call (slip_of movement track text.now signature.now) slip_out.old }
{
    let n = text.len();
    let m = signature.len();
    if 512 < n {
        return Err(Refusal::BadSlipLength);
    }
    if set_by_size(m).is_none() {
        return Err(Refusal::BadSlipLength);
    }
    let at = 10 + n;
    if slip_out.len() != at + m {
        return Err(Refusal::BadBuffer);
    }
    let front = leading_bytes(movement, track, n as u16);
    bytes_at(&front, slip_out, 0);
    bytes_at(text, slip_out, 10);
    bytes_at(signature, slip_out, at);
    Ok(())
}
