// What a signing call takes (02, #103): noise seeds, mask seeds and work buffer, by the functions that checks 7 and 8 of signing use.
ghost use Rattle.std.specs.Prelude.{◌≡◌};
ghost use Rattle.sizes.specs.Lengths.{lengths_call};
ghost use Rattle.sizes.specs.Answered.{lengths_answered};

use hash::params::Edition;
use hash::refusal::Refusal;
use signature::lengths::{mask_seed_bytes, noise_seed_bytes, work_words};
use signature::row::find;

// The status, and with 0 the bytes of the noise seeds and of the mask seeds of all attempts, and the words of the work buffer.
#[repr(C)]
#[derive(Clone, Copy)]
pub struct SigningLengths {
    pub status: u32,
    pub noise_seed_bytes: u64,
    pub mask_seed_bytes: u64,
    pub work_words: u64,
}

// Checks 1, 2 and 6, then the three lengths in their order.
fn lengths_with(set: u64, shares: u64, attempts: u64) -> Result<(u64, u64, u64), Refusal>
    ensures { lengths_answered result ≡ lengths_call set shares attempts }
{
    let row = find(set, shares, Edition::Printed)?;
    if !(1..=16).contains(&attempts) {
        return Err(Refusal::BadAttempts);
    }
    let p = row.p;
    let n = attempts as usize;
    Ok((
        noise_seed_bytes(p, n) as u64,
        mask_seed_bytes(n) as u64,
        work_words(p) as u64,
    ))
}

// The lengths of a signing call: checks 1, 2 and 6.
pub fn lengths(set: u64, shares: u64, attempts: u64) -> SigningLengths
    ensures { result ≡ lengths_call set shares attempts }
{
    match lengths_with(set, shares, attempts) {
        Ok((noise_seed_bytes, mask_seed_bytes, work_words)) => SigningLengths {
            status: 0,
            noise_seed_bytes,
            mask_seed_bytes,
            work_words,
        },
        Err(refusal) => SigningLengths {
            status: refusal.number(),
            noise_seed_bytes: 0,
            mask_seed_bytes: 0,
            work_words: 0,
        },
    }
}
