// How many bits the fields of a signature take (02, #103), for any numbers of 8 and of 64 bits, counted without making them.
ghost use Rattle.std.specs.Prelude.{◌≡◌, ◌+◌, ◌*◌, ◌^◌, ◌≤◌, length};
ghost use Rattle.signature.specs.Code.{codes_bits};
ghost use Rattle.sizes.specs.Count.{signature_bits_call};
ghost use Rattle.sizes.specs.Answered.{bits_answered};

use hash::params::Edition;
use hash::refusal::Refusal;
use signature::code::code_bits;
use signature::row::find;

// The status, and with 0 the number of bits.
#[repr(C)]
#[derive(Clone, Copy)]
pub struct CountedBits {
    pub status: u32,
    pub bits: u64,
}

// The bits of the hint's codes, at most 130 for each number.
fn hint_bits(hint: &[i8]) -> usize
    requires { length hint.now ≤ 4608 }
    ensures value { result ≡ codes_bits 0 hint.now }
    ensures upper_bound { result ≤ 4608 * 130 }
{
    let mut n: usize = 0;
    for &z in hint {
        n += code_bits(0, i64::from(z));
    }
    n
}

// The bits of the response's codes, at most 2^23 + 42 for each number.
fn response_bits(response: &[i64]) -> usize
    requires { length response.now ≤ 3584 }
    ensures value { result ≡ codes_bits 40 response.now }
    ensures upper_bound { result ≤ 3584 * (2 ^ 23 + 42) }
{
    let mut n: usize = 0;
    for &z in response {
        n += code_bits(40, z);
    }
    n
}

// Checks 1 and 13, then the number.
fn bits_with(set: u64, hint: &[i8], response: &[i64]) -> Result<u64, Refusal>
    ensures value { bits_answered result ≡ signature_bits_call set hint.now response.now }
    ensures bits_bound { (bits_answered result).bits ≤ 30065521152 }
{
    let row = find(set, 1, Edition::Printed)?;
    let p = row.p;
    if hint.len() != p.k * 512 {
        return Err(Refusal::BadSignatureLength);
    }
    if response.len() != p.l * 512 {
        return Err(Refusal::BadSignatureLength);
    }
    let n = 8 * (p.kappa / 4) + (hint_bits(hint) + response_bits(response));
    Ok(n as u64)
}

// The bits of a signature with these fields, its hash included: checks 1 and 13. No number is above 30,065,521,152, which is what set 256 takes with
// every hint -128 and every response -2^63.
pub fn signature_bits(set: u64, hint: &[i8], response: &[i64]) -> CountedBits
    ensures value { result ≡ signature_bits_call set hint.now response.now }
    ensures bits_bound { result.bits ≤ 30065521152 }
{
    match bits_with(set, hint, response) {
        Ok(bits) => CountedBits { status: 0, bits },
        Err(refusal) => CountedBits {
            status: refusal.number(),
            bits: 0,
        },
    }
}
