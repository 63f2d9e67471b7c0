// Reading a slip (02, #101): checks 17, 18 and 19, then the verdict on its signature, beside the fields.
ghost use Rattle.std.specs.Prelude.{◌≡◌, Ok, ◌+◌, ◌≤◌, length, take, drop};
ghost use Rattle.hash.specs.Refusal.{number_of};
ghost use Rattle.signature.specs.Checks.{same_bytes};
ghost use Rattle.slip.specs.Calls.{no_fields, read_slip_call};
ghost use Rattle.slip.specs.Split.{split_of, split_told};

use crate::size::set_by_size;
use hash::endian::load;
use hash::params::Edition;
use hash::refusal::{Refusal, status};
use signature::verify::verify;

// TMR, and 1 in two bytes.
pub(crate) const MARK: [u8; 3] = [84, 77, 82];

pub(crate) const VERSION: [u8; 2] = [1, 0];

// The status, and with any but 17, 18 and 19 the fields of the slip: text and signature by place, and the set that follows from the signature's
// length.
#[repr(C)]
#[derive(Clone, Copy)]
pub struct ReadSlip {
    pub status: u32,
    pub movement: u16,
    pub track: u8,
    pub set: u32,
    pub text_at: usize,
    pub text_len: usize,
    pub signature_at: usize,
    pub signature_len: usize,
}

// Whether just the bytes x stand in the slip from the place at on.
fn stands_at(slip: &[u8], at: usize, x: &[u8]) -> bool
    requires { (at ≤ 10) × (1 ≤ length x.now) × (length x.now ≤ 10) }
    ensures { result ≡ same_bytes (take (length x.now) (drop at slip.now)) x.now }
{
    at <= slip.len() && slip[at..].starts_with(x)
}

// Where the signature begins and which set it is of: checks 17, 18 and 19.
fn parse(slip: &[u8]) -> Result<(usize, u32), Refusal>
    ensures { split_told result ≡ split_of slip.now }
{
    let n = slip.len();
    if !stands_at(slip, 0, &MARK) {
        return Err(Refusal::BadSlipMark);
    }
    if !stands_at(slip, 3, &VERSION) {
        return Err(Refusal::BadSlipVersion);
    }
    if n < 10 {
        return Err(Refusal::BadSlipLength);
    }
    let text = load(slip, 8, 2) as usize;
    let at = 10 + text;
    if 512 < text {
        return Err(Refusal::BadSlipLength);
    }
    if n < at {
        return Err(Refusal::BadSlipLength);
    }
    let set = set_by_size(n - at).ok_or(Refusal::BadSlipLength)?;
    Ok((at, set))
}

fn no_fields(refusal: Refusal) -> ReadSlip
    ensures { result ≡ no_fields (number_of refusal) }
{
    ReadSlip {
        status: refusal.number(),
        movement: 0,
        track: 0,
        set: 0,
        text_at: 0,
        text_len: 0,
        signature_at: 0,
        signature_len: 0,
    }
}

// The fields and the verdict on a slip that passed 17, 18 and 19, with its signature of that set from the place at on.
fn verdict_at(public_key: &[u8], slip: &[u8], at: usize, set: u32) -> ReadSlip
    requires { (split_of slip.now ≡ Ok (at, set)) × (10 ≤ at) × (at ≤ length slip.now) }
    ensures { result ≡ read_slip_call public_key.now slip.now }
{
    let verdict = verify(
        set as u64,
        Edition::Printed,
        public_key,
        &slip[0..at],
        &slip[at..],
    );
    ReadSlip {
        status: status(verdict),
        movement: load(slip, 5, 2) as u16,
        track: slip[7],
        set,
        text_at: 10,
        text_len: at - 10,
        signature_at: at,
        signature_len: slip.len() - at,
    }
}

// The fields of a slip and the verdict on it under a public key: checks 17, 18 and 19, then those of verifying, with the set that follows from
// the signature's length, of the bytes before it.
pub fn read_slip(public_key: &[u8], slip: &[u8]) -> ReadSlip
    ensures { result ≡ read_slip_call public_key.now slip.now }
{
    match parse(slip) {
        Ok((at, set)) => verdict_at(public_key, slip, at, set),
        Err(refusal) => no_fields(refusal),
    }
}
