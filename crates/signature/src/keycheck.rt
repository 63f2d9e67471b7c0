// The checks of a key (01: 3 to 5), and those of key generation (7 and 8).
ghost use Rattle.std.specs.Prelude.{◌≡◌, [], ◌∷◌, ◌+◌, ◌*◌, ◌≤◌, length, take, drop};
ghost use Rattle.hash.specs.Refusal.{status_of};
ghost use Rattle.ring.specs.Words.{q, all_below};
ghost use Rattle.signature.specs.Bits.{repack};
ghost use Rattle.signature.specs.Checks.{first_no, expanded_key_sized, keygen_seeds_sized, keygen_buffers_sized, key_checks};
ghost use Rattle.signature.specs.ExpandSteps.{part_bytes};
ghost use Rattle.signature.specs.ExpandedKey.{expanded_in};
ghost use Rattle.signature.specs.Keys.{packed, expanded, full_share, keygen_bytes};

use crate::bits::unpack;
use crate::lengths::{noise_seed_bytes, work_words};
use crate::lent::SharePart;
use crate::row::Row;
use hash::refusal::Refusal;
use ring::poly::{Q, all_below};

// Checks 3 and 8, of an expanded key: is it a public key and a digest, and the words of all shares?
pub(crate) fn sized(row: Row, bytes: &[u8], words: &[u64]) -> bool
    ensures { result ≡ expanded_key_sized row.p bytes.now words.now }
{
    let p = row.p;
    if bytes.len() != p.vk_bytes + p.kappa / 4 {
        return false;
    }
    words.len() == p.l * (p.shares * 512)
}

// Check 4: are the k * 512 coefficients of t, 7 bits each behind the n bytes of the seed, below 125?
pub(crate) fn public_key_good(key: &[u8], n: usize, k: usize) -> bool
    requires { (n + k * 448 ≤ length key.now) × (k ≤ 9) }
    ensures { result ≡ all_below 125 (repack 8 7 (k * 512) (take (k * 448) (drop n key.now))) }
{
    let mut t = [0u64; 4608];
    let m = k * 512;
    let e = n + k * 448;
    unpack(&key[n..e], 7, &mut t[0..m]);
    all_below(&t[0..m], 125)
}

// The full share, 49 bits a coefficient behind the seeds.
pub(crate) fn full_share(part: SharePart, out: &mut [u64])
    requires { length out.old ≡ part.row.p.l * 512 }
    ensures { out.new ≡ full_share part.entry.row.p part.entry.bytes.now }
{
    let p = part.row.p;
    let a = (p.shares - 1) * (p.kappa / 8);
    unpack(&part.bytes[a..], 49, out);
}

// Check 5: are the words of the full share below q?
pub(crate) fn full_share_good(part: SharePart) -> bool
    ensures { result ≡ all_below q (full_share part.entry.row.p part.entry.bytes.now) }
{
    let mut full = [0u64; 3584];
    let n = part.row.p.l * 512;
    full_share(part, &mut full[0..n]);
    all_below(&full[0..n], Q)
}

// Checks 3 to 5 of a signing key.
pub(crate) fn check_packed(row: Row, key: &[u8]) -> Result<(), Refusal>
    ensures { status_of result ≡ first_no (key_checks row.p (packed key.now)) }
{
    let p = row.p;
    let vk = p.vk_bytes;
    if key.len() != p.sk_bytes {
        return Err(Refusal::BadKeyLength);
    }
    if !public_key_good(key, p.kappa / 8, p.k) {
        return Err(Refusal::BadPublicKey);
    }
    let bytes = &key[vk..];
    if !full_share_good(SharePart { row, bytes }) {
        return Err(Refusal::BadShareWords);
    }
    Ok(())
}

// .. of an expanded key.
pub(crate) fn check_expanded(row: Row, key: &[u8], words: &[u64]) -> Result<(), Refusal>
    ensures { status_of result ≡ first_no (key_checks row.p (expanded (expanded_in key.now words.now))) }
{
    let p = row.p;
    if !sized(row, key, words) {
        return Err(Refusal::BadKeyLength);
    }
    if !public_key_good(key, p.kappa / 8, p.k) {
        return Err(Refusal::BadPublicKey);
    }
    if !all_below(words, Q) {
        return Err(Refusal::BadShareWords);
    }
    Ok(())
}

// The bytes that key generation is lent: matrix seed, noise seeds, share seeds.
pub(crate) fn keygen_bytes(row: Row) -> usize
    ensures { result ≡ keygen_bytes row.p }
{
    let p = row.p;
    let n = p.kappa / 8;
    n + noise_seed_bytes(p, 1) + (p.shares - 1) * n
}

// The checks of key generation behind the look-up, but check 10.
pub(crate) fn check_keygen(
    row: Row,
    seeds: &[u8],
    mask_seed: &[u8],
    out: &[u8],
    work: &[u64],
) -> Result<(), Refusal>
    ensures { status_of result ≡ first_no ((7, keygen_seeds_sized row.p seeds.now mask_seed.now)
        ∷ (8, keygen_buffers_sized row.p out.now work.now) ∷ []) }
{
    let p = row.p;
    if seeds.len() != keygen_bytes(row) {
        return Err(Refusal::BadSeeds);
    }
    if mask_seed.len() != 32 {
        return Err(Refusal::BadSeeds);
    }
    if out.len() != p.sk_bytes {
        return Err(Refusal::BadBuffer);
    }
    if work.len() != work_words(p) {
        return Err(Refusal::BadBuffer);
    }
    Ok(())
}
