// The checks of signing behind the look-up (01: 3 to 9).
ghost use Rattle.std.specs.Prelude.{◌≡◌, ◌≤◌};
ghost use Rattle.hash.specs.Refusal.{status_of};
ghost use Rattle.signature.specs.AttemptSteps.{key_lent, coins_lent};
ghost use Rattle.signature.specs.Checks.{first_no, key_checks};
ghost use Rattle.signature.specs.SignCalls.{coins_good, call_checks};
ghost use Rattle.signature.specs.SignSteps.{sign_no};

use crate::keycheck::{check_expanded, check_packed};
use crate::lengths::{mask_seed_bytes, noise_seed_bytes, work_words};
use crate::lent::{LentCoins, LentKey, NoiseTape};
use crate::row::Row;
use hash::refusal::Refusal;
use ring::poly::{Q, all_below};

// Checks 3 to 5, of a key of either form.
fn check_key(row: Row, key: LentKey) -> Result<(), Refusal>
    ensures { status_of result ≡ first_no (key_checks row.p (key_lent key.entry)) }
{
    match key {
        LentKey::Signing(bytes) => check_packed(row, bytes),
        LentKey::Expanded { bytes, words } => check_expanded(row, bytes, words),
    }
}

// Check 7, where n attempts are allowed.
fn coins_good(row: Row, n: usize, coins: LentCoins) -> bool
    requires { n ≤ 16 }
    ensures { result ≡ coins_good row.p n (coins_lent coins.entry) }
{
    let p = row.p;
    if coins.masks.len() != mask_seed_bytes(n) {
        return false;
    }
    match coins.noise {
        NoiseTape::Seeds(seeds) => seeds.len() == noise_seed_bytes(p, n),
        NoiseTape::Words(words) => {
            let c = (p.l + p.k) * p.shares;
            if words.len() != n * (c * 512) {
                return false;
            }
            all_below(words, Q)
        }
    }
}

// Checks 6 to 9.
fn check_call(
    row: Row,
    attempts: u64,
    msg: &[u8],
    coins: LentCoins,
    out: &[u8],
    work: &[u64],
) -> Result<(), Refusal>
    ensures { status_of result
        ≡ first_no (call_checks row.p attempts msg.now (coins_lent coins.entry) out.now work.now) }
{
    let p = row.p;
    if attempts < 1 {
        return Err(Refusal::BadAttempts);
    }
    if attempts > 16 {
        return Err(Refusal::BadAttempts);
    }
    if !coins_good(row, attempts as usize, coins) {
        return Err(Refusal::BadSeeds);
    }
    if out.len() != p.sig_bytes {
        return Err(Refusal::BadBuffer);
    }
    if work.len() != work_words(p) {
        return Err(Refusal::BadBuffer);
    }
    if msg.len() > 4096 {
        return Err(Refusal::BadMessageLength);
    }
    Ok(())
}

// Checks 3 to 9.
pub(crate) fn check_sign(
    row: Row,
    key: LentKey,
    n: u64,
    msg: &[u8],
    coins: LentCoins,
    out: &[u8],
    work: &[u64],
) -> Result<(), Refusal>
    ensures { status_of result
        ≡ sign_no row.p (key_lent key.entry) n msg.now (coins_lent coins.entry) out.now work.now }
{
    check_key(row, key)?;
    check_call(row, n, msg, coins, out, work)
}
