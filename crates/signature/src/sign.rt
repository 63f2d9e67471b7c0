// Signing (000, Algorithm 2; 01: checks 1 to 10, 11 and 20 within each attempt, 12), on one work buffer, laid out as specs/Layout.antt says.
ghost use Rattle.std.specs.Prelude.{◌≡◌, true, ◌≤◌, length};
ghost use Rattle.std.proofs.Math.Option.{some};
ghost use Rattle.hash.specs.Refusal.{number_of};
ghost use Rattle.ring.specs.Words.{q, Below};
ghost use Rattle.ring.specs.Rns.{words_of};
ghost use Rattle.signature.specs.AttemptSteps.{key_lent, coins_lent, Within, key_in};
ghost use Rattle.signature.specs.Checks.{work_words};
ghost use Rattle.signature.specs.ExpandedKey.{expanded_in};
ghost use Rattle.signature.specs.Keys.{vk_seed, vk_vector};
ghost use Rattle.signature.specs.MaskedSteps.{matrix_in};
ghost use Rattle.signature.specs.Matrix.{matrix};
ghost use Rattle.signature.specs.Outcome.{answer, signing};
ghost use Rattle.signature.specs.Sign.{public_by, from_seeds, from_noise, sign_from};
ghost use Rattle.signature.specs.SignCalls.{packed, expanded, coins_good, sign_call};
ghost use Rattle.signature.specs.SignSteps.{sign_no, sign_made, signed_with, signed_found, EndedAt, answer_in};

use crate::attempt::answer;
use crate::challenge::hash_two;
use crate::commit::commit;
use crate::digest::digest_into;
use crate::fields::finish;
use crate::lent::{LentCoins, LentKey, NoiseTape, key_bytes};
use crate::load::load_shares;
use crate::matrix::{HeldMatrix, expand_matrix};
use crate::row::{Row, find};
use crate::signcheck::check_sign;
use hash::params::Edition;
use hash::refusal::Refusal;
use sharing::region::clear;

// The end of an attempt (01: try): a signature; over the bounds or too long; a challenge that does not fill; masks that do not.
#[derive(Clone, Copy)]
pub(crate) enum AttemptEnd {
    Made,
    Over,
    Stuck,
    Dry,
}

// What signing answers: the status, and the attempts that it reports.
#[repr(C)]
#[derive(Clone, Copy)]
pub struct Signed {
    pub status: u32,
    pub attempts: u32,
}

// A signature, made in the last of so many attempts, of which there are 16 at most.
fn made(attempts: usize) -> Signed
    requires { attempts ≤ 16 }
    ensures { (result.status ≡ 0) × (result.attempts ≡ attempts) }
{
    Signed {
        status: 0,
        attempts: attempts as u32,
    }
}

// A refusal, and the attempts that it reports.
fn refused(refusal: Refusal, attempts: usize) -> Signed
    requires { attempts ≤ 16 }
    ensures { (result.status ≡ number_of refusal) × (result.attempts ≡ attempts) }
{
    Signed {
        status: refusal.number(),
        attempts: attempts as u32,
    }
}

// Attempt number i + 1, lines 4 to 20, with the matrix a: check 20 before the challenge, check 11, check 20 behind it.
fn attempt(
    work: &mut [u64],
    vk: &[u8],
    a: HeldMatrix,
    mu: &[u8],
    coins: LentCoins,
    i: usize,
    out: &mut [u8],
) -> AttemptEnd
    requires work_len { (length work.old ≡ work_words a.row.p) × Below q work.old }
    requires vk_len { (length vk.now ≡ a.row.p.vk_bytes) × Below 125 (vk_vector a.row.p vk.now) × (length out.old ≡ a.row.p.sig_bytes) }
    requires within { Within a.row.p (coins_lent coins) i }
    ensures work_len_unchanged { (length work.new ≡ length work.old) × Below q work.new }
    ensures ended_at { EndedAt a.entry.row.p (public_by a.entry.row.p vk.now mu.now (matrix_in a.entry.row.p (words_of a.entry.words.now)))
        (coins_lent coins.entry) i (key_in a.entry.row.p work.old) result out.old out.new work.new }
{
    let row = a.row;
    let b = row.p.kappa / 4;
    let mut hash = [0u8; 64];
    let g = commit(work, a, coins, i);
    if !g.ok {
        return AttemptEnd::Dry;
    }
    let r = answer(work, row, mu, &mut hash[0..b], g);
    let Some(c) = r.challenge else {
        return AttemptEnd::Stuck;
    };
    if !r.full {
        return AttemptEnd::Dry;
    }
    if finish(work, vk, a, &hash[0..b], c, out) {
        return AttemptEnd::Made;
    }
    AttemptEnd::Over
}

// Up to n attempts, in the order of their seeds or noise: checks 11, 12 and 20.
fn attempt_all(
    work: &mut [u64],
    vk: &[u8],
    a: HeldMatrix,
    mu: &[u8],
    coins: LentCoins,
    n: usize,
    out: &mut [u8],
) -> Signed
    requires work_len { (length work.old ≡ work_words a.row.p) × Below q work.old }
    requires vk_len { (length vk.now ≡ a.row.p.vk_bytes) × Below 125 (vk_vector a.row.p vk.now) × (length out.old ≡ a.row.p.sig_bytes) }
    requires n_bound { (n ≤ 16) × (coins_good a.row.p n (coins_lent coins) ≡ true) }
    ensures work_len_unchanged { length work.new ≡ length work.old }
    ensures out_after { answer result.status result.attempts out.new
        ≡ answer_in (sign_from a.entry.row.p (public_by a.entry.row.p vk.now mu.now (matrix_in a.entry.row.p (words_of a.entry.words.now)))
        (coins_lent coins.entry) n 0 (key_in a.entry.row.p work.old)) out.old }
{
    for i in 0..n {
        match attempt(work, vk, a, mu, coins, i, out) {
            AttemptEnd::Made => {
                return made(i + 1);
            }
            AttemptEnd::Over => {}
            AttemptEnd::Stuck => {
                return refused(Refusal::ChallengeNotFilled, i + 1);
            }
            AttemptEnd::Dry => {
                return refused(Refusal::MasksNotFilled, i + 1);
            }
        }
    }
    refused(Refusal::NoAttemptPassed, n)
}

// Lines 2 to 20, the key's shares being in the work buffer: check 10 of the matrix, which is made once for all attempts, mu from the
// digest, then the attempts.
fn sign_loaded(
    work: &mut [u64],
    row: Row,
    vk: &[u8],
    digest: &[u8],
    msg: &[u8],
    coins: LentCoins,
    n: usize,
    out: &mut [u8],
) -> Signed
    requires work_len { (length work.old ≡ work_words row.p) × Below q work.old }
    requires vk_len { (length vk.now ≡ row.p.vk_bytes) × Below 125 (vk_vector row.p vk.now) × (length out.old ≡ row.p.sig_bytes) }
    requires n_bound { (n ≤ 16) × (coins_good row.p n (coins_lent coins) ≡ true) }
    ensures work_len_unchanged { length work.new ≡ length work.old }
    ensures out_after { answer result.status result.attempts out.new
        ≡ answer_in (sign_made row.p vk.now digest.now msg.now (coins_lent coins.entry) n
        (matrix row.p (vk_seed row.p vk.now)) (some (key_in row.p work.old))) out.old }
{
    let p = row.p;
    let e = p.kappa / 8;
    let b = p.kappa / 4;
    let mut mu = [0u8; 64];
    let mut a = [0u64; 32256];
    if let Err(refusal) = expand_matrix(&mut a, &vk[0..e], p.k, p.l) {
        return refused(refusal, 0);
    }
    hash_two(digest, msg, &mut mu[0..b]);
    let m = &mu[0..b];
    let words = &a;
    attempt_all(work, vk, HeldMatrix { row, words }, m, coins, n, out)
}

// Signing behind checks 1 to 9: check 10 of the share seeds, then the rest. The work buffer is zero afterwards.
fn sign_with(
    row: Row,
    key: LentKey,
    n: usize,
    msg: &[u8],
    coins: LentCoins,
    out: &mut [u8],
    work: &mut [u64],
) -> Signed
    requires work_value { sign_no row.p (key_lent key) n msg.now (coins_lent coins) out.old work.old ≡ 0 }
    ensures { signing result.status result.attempts out.new work.new
        ≡ signed_with row.p (key_lent key.entry) n msg.now (coins_lent coins.entry) out.old work.old }
{
    let p = row.p;
    let e = p.vk_bytes;
    let b = p.kappa / 4;
    let mut digest = [0u8; 64];
    if let Err(refusal) = load_shares(work, row, key) {
        clear(work);
        return refused(refusal, 0);
    }
    let bytes = key_bytes(key);
    digest_into(p, key, &mut digest[0..b]);
    let h = &digest[0..b];
    let r = sign_loaded(work, row, &bytes[0..e], h, msg, coins, n, out);
    clear(work);
    r
}

// Signing with a record of the table: checks 3 to 9, and what follows. The work buffer is zero after 9 and as it was after those before.
fn sign_found(
    row: Row,
    key: LentKey,
    n: u64,
    msg: &[u8],
    coins: LentCoins,
    out: &mut [u8],
    work: &mut [u64],
) -> Signed
    ensures { signing result.status result.attempts out.new work.new
        ≡ signed_found row.p (key_lent key.entry) n msg.now (coins_lent coins.entry) out.old work.old }
{
    if let Err(refusal) = check_sign(row, key, n, msg, coins, out, work) {
        if refusal.number() > 8 {
            clear(work);
        }
        return refused(refusal, 0);
    }
    sign_with(row, key, n as usize, msg, coins, out, work)
}

// Signing with a key of either form and noise of either form (01, "Questions put to a call": 1 to 12; 02, #105: 20).
fn sign_any(
    set: u64,
    shares: u64,
    edition: Edition,
    key: LentKey,
    n: u64,
    msg: &[u8],
    coins: LentCoins,
    out: &mut [u8],
    work: &mut [u64],
) -> Signed
    ensures { signing result.status result.attempts out.new work.new
        ≡ sign_call edition set shares (key_lent key.entry) n msg.now (coins_lent coins.entry)
        out.old work.old }
{
    match find(set, shares, edition) {
        Err(unknown) => refused(unknown.into(), 0),
        Ok(row) => sign_found(row, key, n, msg, coins, out, work),
    }
}

// With a signing key, from seeds.
pub fn sign(
    set: u64,
    shares: u64,
    edition: Edition,
    attempts: u64,
    key: &[u8],
    message: &[u8],
    noise_seeds: &[u8],
    mask_seeds: &[u8],
    signature_out: &mut [u8],
    work: &mut [u64],
) -> Signed
    ensures { signing result.status result.attempts signature_out.new work.new
        ≡ sign_call edition set shares (packed key.now) attempts message.now
        (from_seeds noise_seeds.now mask_seeds.now) signature_out.old work.old }
{
    let key = LentKey::Signing(key);
    let coins = LentCoins {
        noise: NoiseTape::Seeds(noise_seeds),
        masks: mask_seeds,
    };
    sign_any(
        set,
        shares,
        edition,
        key,
        attempts,
        message,
        coins,
        signature_out,
        work,
    )
}

// With a signing key and explicit noise (01: bench form).
pub fn sign_explicit(
    set: u64,
    shares: u64,
    edition: Edition,
    attempts: u64,
    key: &[u8],
    message: &[u8],
    noise_words: &[u64],
    mask_seeds: &[u8],
    signature_out: &mut [u8],
    work: &mut [u64],
) -> Signed
    ensures { signing result.status result.attempts signature_out.new work.new
        ≡ sign_call edition set shares (packed key.now) attempts message.now
        (from_noise noise_words.now mask_seeds.now) signature_out.old work.old }
{
    let key = LentKey::Signing(key);
    let coins = LentCoins {
        noise: NoiseTape::Words(noise_words),
        masks: mask_seeds,
    };
    sign_any(
        set,
        shares,
        edition,
        key,
        attempts,
        message,
        coins,
        signature_out,
        work,
    )
}

// With an expanded key (01: opened key), from seeds.
pub fn sign_expanded(
    set: u64,
    shares: u64,
    edition: Edition,
    attempts: u64,
    bytes: &[u8],
    words: &[u64],
    message: &[u8],
    noise_seeds: &[u8],
    mask_seeds: &[u8],
    signature_out: &mut [u8],
    work: &mut [u64],
) -> Signed
    ensures { signing result.status result.attempts signature_out.new work.new
        ≡ sign_call edition set shares (expanded (expanded_in bytes.now words.now)) attempts message.now
        (from_seeds noise_seeds.now mask_seeds.now) signature_out.old work.old }
{
    let key = LentKey::Expanded { bytes, words };
    let coins = LentCoins {
        noise: NoiseTape::Seeds(noise_seeds),
        masks: mask_seeds,
    };
    sign_any(
        set,
        shares,
        edition,
        key,
        attempts,
        message,
        coins,
        signature_out,
        work,
    )
}

// With an expanded key and explicit noise.
pub fn sign_expanded_explicit(
    set: u64,
    shares: u64,
    edition: Edition,
    attempts: u64,
    bytes: &[u8],
    words: &[u64],
    message: &[u8],
    noise_words: &[u64],
    mask_seeds: &[u8],
    signature_out: &mut [u8],
    work: &mut [u64],
) -> Signed
    ensures { signing result.status result.attempts signature_out.new work.new
        ≡ sign_call edition set shares (expanded (expanded_in bytes.now words.now)) attempts message.now
        (from_noise noise_words.now mask_seeds.now) signature_out.old work.old }
{
    let key = LentKey::Expanded { bytes, words };
    let coins = LentCoins {
        noise: NoiseTape::Words(noise_words),
        masks: mask_seeds,
    };
    sign_any(
        set,
        shares,
        edition,
        key,
        attempts,
        message,
        coins,
        signature_out,
        work,
    )
}
