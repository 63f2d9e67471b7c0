// Bytes on standard output, in hex.
#![tactic(auto)]

ghost use Rattle.std.specs.Prelude.{◌≡◌, ◌≤◌, length, IfOk, OnOk};
ghost use Rattle.std.specs.Io.KnownBytes.{Appends};
ghost use Rattle.hex.specs.Hex.{encode_lower};
ghost use Rattle.hexio.specs.Line.{hex_line};

use std::io;
use std::io::Write;

// How many bytes one write shows.
const PART: usize = 64;

// The bytes of part, two digits each, in one write.
fn print_part<W: Write>(to: &mut W, part: &[u8]) -> io::Result<()>
    requires { length part.now ≤ PART }
    ensures { OnOk result (Appends (W.contents to.old) (W.contents to.new) (encode_lower part.now)) }
{
    let mut text = [0u8; 2 * PART];
    let digits = &mut text[..2 * part.len()];
    let Ok(()) = hex::encode_to_slice(part, digits) else {
        unreachable!();
    };
    to.write_all(digits)
}

// The bytes of s, two digits each, and a line end: how many bytes of s that was, and that they are what the writer holds more.
// What a file then holds no contract can say.
pub fn print_line<W: Write>(to: &mut W, s: &[u8]) -> io::Result<usize>
    ensures count { IfOk result (λ n. n ≡ length s.now) }
    ensures written { OnOk result (Appends (W.contents to.old) (W.contents to.new) (hex_line s.now)) }
{
    for part in s.chunks(PART) {
        print_part(to, part)?;
    }
    to.write_all(b"\n")?;
    Ok(s.len())
}
