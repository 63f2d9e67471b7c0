// Keys: expanding and refreshing (01, "Questions put to a call"; 000, Algorithms 11 and 15). A call puts its checks in their order; the first
// no is its status, and the results are then as they were.
ghost use Rattle.std.specs.Prelude.{◌≡◌, IfSome, [], ◌∷◌, ◌++◌, ◌*◌, ◌≤◌, ◌<◌, length, drop};
ghost use Rattle.hash.specs.Refusal.{status_of};
ghost use Rattle.ring.specs.Words.{q, Below, Words};
ghost use Rattle.ring.specs.UniformSteps.{option_of};
ghost use Rattle.sharing.specs.Blocks.{build};
ghost use Rattle.sharing.specs.Region.{Wrote};
ghost use Rattle.sharing.specs.Encoding.{skip, refreshed};
ghost use Rattle.sharing.specs.Masks.{masks, mask_start};
ghost use Rattle.signature.specs.Checks.{first_no, mask_seed_sized, expanded_key_sized, key_checks};
ghost use Rattle.signature.specs.Matrix.{build_all, filled};
ghost use Rattle.signature.specs.Keys.{packed, expanded, full_share, seeded_share, share_at, decompressed, expand_of, expanded_of, refresh_masks_fill};
ghost use Rattle.signature.specs.ExpandSteps.{part_bytes, expanded_at, expanded_shares};
ghost use Rattle.signature.specs.ExpandedKey.{expanded_in, expanded_bytes};
ghost use Rattle.signature.specs.KeyCalls.{key_leaves, expand_call, refresh_call};
ghost use Rattle.signature.specs.Outcome.{outcome};

use crate::compress::seeded_share;
use crate::digest::put_bytes;
use crate::keycheck::{check_expanded, check_packed, full_share, sized};
use crate::lent::{LentKey, SharePart};
use crate::row::{Row, find};
use hash::params::Edition;
use hash::refusal::Refusal;
use ring::poly::copy_into;
use sharing::encoding::zero_encoding_at;
use sharing::masks::{MaskGen, start};
use sharing::region::{clear, load, store_at};
use sharing::shares::add_shares_at;

// Check 20 of refreshing: do the masks of its l zero encodings fill? They are drawn here for that alone, and again by refresh_words: a refusal
// leaves the results as they were, and the call is lent no work buffer.
fn masks_fill(row: Row, mask_seed: &[u8]) -> bool
    ensures { result ≡ refresh_masks_fill row.p mask_seed.now }
{
    let p = row.p;
    let l = p.l;
    let d = p.shares;
    let mut x = start(mask_seed);
    let mut z = [0u64; 16384];
    for i in 0..l {
        x = zero_encoding_at(&mut z, 0, d, x);
    }
    x.ok
}

// The checks of refreshing behind the look-up.
fn check_refresh(
    row: Row,
    bytes: &[u8],
    words: &[u64],
    mask_seed: &[u8],
    bytes_out: &[u8],
    words_out: &[u64],
) -> Result<(), Refusal>
    ensures { status_of result ≡ first_no (key_checks row.p (expanded (expanded_in bytes.now words.now))
        ++ ((7, mask_seed_sized mask_seed.now)
        ∷ (8, expanded_key_sized row.p bytes_out.now words_out.now)
        ∷ (20, refresh_masks_fill row.p mask_seed.now) ∷ [])) }
{
    check_expanded(row, bytes, words)?;
    if mask_seed.len() != 32 {
        return Err(Refusal::BadSeeds);
    }
    if !sized(row, bytes_out, words_out) {
        return Err(Refusal::BadBuffer);
    }
    if !masks_fill(row, mask_seed) {
        return Err(Refusal::MasksNotFilled);
    }
    Ok(())
}

// Algorithm 11 at each of l sharings, each with a zero encoding of its own. The generator behind them.
fn refresh_words(s: &mut [u64], row: Row, g: MaskGen) -> MaskGen
    requires { Words (row.p.l * (row.p.shares * 512)) s.old }
    ensures { (s.new ≡ refreshed masks row.p.shares g row.p.l s.old) × (result ≡ skip masks row.p.shares row.p.l g) }
{
    let p = row.p;
    let l = p.l;
    let d = p.shares;
    let mut x = g;
    let mut z = [0u64; 16384];
    for i in 0..l {
        let a = i * (d * 512);
        x = zero_encoding_at(&mut z, 0, d, x);
        add_shares_at(s, a, &z, 0, p);
    }
    x
}

// The results of refreshing: public key and digest as they are, the words refreshed.
fn renew(
    row: Row,
    bytes: &[u8],
    words: &[u64],
    mask_seed: &[u8],
    bytes_out: &mut [u8],
    words_out: &mut [u64],
)
    requires words_value { Words (row.p.l * (row.p.shares * 512)) words.now }
    requires bytes_len { (length bytes.now ≡ expanded_bytes row.p) × (length bytes_out.old ≡ expanded_bytes row.p)
        × (length words_out.old ≡ length words.now) }
    ensures { (bytes_out.new ≡ bytes.now)
        × (words_out.new ≡ refreshed masks row.p.shares (mask_start mask_seed.now) row.p.l words.now) }
{
    put_bytes(row, LentKey::Expanded { bytes, words }, bytes_out);
    copy_into(words_out, words);
    refresh_words(words_out, row, start(mask_seed));
}

// Refreshing an expanded key (01, "Questions put to a call": 1 to 5, 7, 8; 02, #105: 20).
pub fn refresh_key(
    set: u64,
    shares: u64,
    bytes: &[u8],
    words: &[u64],
    mask_seed: &[u8],
    bytes_out: &mut [u8],
    words_out: &mut [u64],
) -> Result<(), Refusal>
    ensures { outcome (status_of result) bytes_out.new words_out.new
        ≡ refresh_call set shares (expanded_in bytes.now words.now) mask_seed.now
        bytes_out.old words_out.old }
{
    let row = find(set, shares, Edition::Printed)?;
    check_refresh(row, bytes, words, mask_seed, bytes_out, words_out)?;
    renew(row, bytes, words, mask_seed, bytes_out, words_out);
    Ok(())
}

// Share i, from 1, of polynomial j, expanded from its seed.
fn seeded_at(part: SharePart, j: usize, i: usize) -> Option<[u64; 512]>
    requires { (j < part.row.p.l) × (1 ≤ i) × (i < part.row.p.shares) }
    ensures { (result ≡ option_of (seeded_share part.entry.row.p part.entry.bytes.now j i)) × IfSome result (λ f. Words 512 f) }
{
    let p = part.row.p;
    let edition = p.edition;
    seeded_share(edition, part.bytes, p.kappa / 8, i, j)
}

// Check 10 for polynomial j: do all of its seeded shares fill?
fn polynomial_fills(part: SharePart, j: usize) -> bool
    requires { j < part.row.p.l }
    ensures { result ≡ filled (build_all part.entry.row.p.shares (share_at part.entry.row.p part.entry.bytes.now j)) }
{
    let d = part.row.p.shares;
    (1..d).all(|i| seeded_at(part, j, i).is_some())
}

// Check 10: do all seeded shares fill?
pub(crate) fn shares_fill(part: SharePart) -> bool
    ensures { result ≡ filled (decompressed part.entry.row.p part.entry.bytes.now) }
{
    let l = part.row.p.l;
    (0..l).all(|j| polynomial_fills(part, j))
}

// Share i of polynomial j: the full one is share 0.
fn share_at(part: SharePart, full: &[u64], j: usize, i: usize) -> [u64; 512]
    requires place { (j < part.row.p.l) × (i < part.row.p.shares) }
    requires full_value { (full.now ≡ full_share part.row.p part.bytes.now) × Words (part.row.p.l * 512) full.now }
    ensures { (result ≡ expanded_at part.entry.row.p part.entry.bytes.now j i) × Words 512 result }
{
    if i == 0 {
        return load(full, j * 512);
    }
    seeded_at(part, j, i).unwrap_or([0u64; 512])
}

// The shares of polynomial j (000, Algorithm 15).
fn decompress_polynomial(part: SharePart, full: &[u64], j: usize, out: &mut [u64])
    requires place { j < part.row.p.l }
    requires full_value { (full.now ≡ full_share part.row.p part.bytes.now) × Words (part.row.p.l * 512) full.now
        × Words (part.row.p.l * (part.row.p.shares * 512)) out.old }
    ensures { Wrote 0 (j * (part.entry.row.p.shares * 512)) (part.entry.row.p.shares * 512)
        (build part.entry.row.p.shares (expanded_at part.entry.row.p part.entry.bytes.now j))
        out.old out.new }
{
    let d = part.row.p.shares;
    for i in 0..d {
        let x = share_at(part, full, j, i);
        store_at(out, j * (d * 512) + i * 512, &x);
    }
}

// .. of all polynomials, over words that are zero.
fn decompress_all(part: SharePart, full: &[u64], out: &mut [u64])
    requires full_value { (full.now ≡ full_share part.row.p part.bytes.now) × Words (part.row.p.l * 512) full.now
        × (length out.old ≡ part.row.p.l * (part.row.p.shares * 512)) }
    ensures { out.new ≡ expanded_shares part.entry.row.p part.entry.bytes.now }
{
    let l = part.row.p.l;
    clear(out);
    for j in 0..l {
        decompress_polynomial(part, full, j, out);
    }
}

// MaskDecompress (000, Algorithm 15), where all seeded shares fill.
pub(crate) fn decompress_shares(part: SharePart, out: &mut [u64])
    requires out_len { (length out.old ≡ part.row.p.l * (part.row.p.shares * 512)) × Below q (full_share part.row.p part.bytes.now) }
    ensures { out.new ≡ expanded_shares part.entry.row.p part.entry.bytes.now }
{
    let mut full = [0u64; 3584];
    let n = part.row.p.l * 512;
    full_share(part, &mut full[0..n]);
    decompress_all(part, &full[0..n], out);
}

// The checks of expanding behind the look-up, but check 10.
fn check_expand(row: Row, key: &[u8], bytes_out: &[u8], words_out: &[u64]) -> Result<(), Refusal>
    ensures { status_of result ≡ first_no (key_checks row.p (packed key.now)
        ++ ((8, expanded_key_sized row.p bytes_out.now words_out.now) ∷ [])) }
{
    check_packed(row, key)?;
    if !sized(row, bytes_out, words_out) {
        return Err(Refusal::BadBuffer);
    }
    Ok(())
}

// Check 10, before anything is written; then the results of expanding: the public key and its digest, and the words of all shares.
fn expand_found(
    row: Row,
    key: &[u8],
    bytes_out: &mut [u8],
    words_out: &mut [u64],
) -> Result<(), Refusal>
    requires key_len { (length key.now ≡ row.p.sk_bytes) × Below q (full_share row.p (drop row.p.vk_bytes key.now)) }
    requires bytes_out_len { (length bytes_out.old ≡ expanded_bytes row.p) × (length words_out.old ≡ row.p.l * (row.p.shares * 512)) }
    ensures { outcome (status_of result) bytes_out.new words_out.new
        ≡ key_leaves (first_no ((10, filled (expand_of row.p key.now)) ∷ [])) (expanded_of row.p key.now)
        bytes_out.old words_out.old }
{
    let vk = row.p.vk_bytes;
    let bytes = &key[vk..];
    let part = SharePart { row, bytes };
    if !shares_fill(part) {
        return Err(Refusal::UniformNotFilled);
    }
    put_bytes(row, LentKey::Signing(key), bytes_out);
    decompress_shares(part, words_out);
    Ok(())
}

// Expanding a signing key (01, "Questions put to a call": 1 to 5, 8, 10).
pub fn expand_key(
    set: u64,
    shares: u64,
    edition: Edition,
    key: &[u8],
    bytes_out: &mut [u8],
    words_out: &mut [u64],
) -> Result<(), Refusal>
    ensures { outcome (status_of result) bytes_out.new words_out.new
        ≡ expand_call edition set shares key.now bytes_out.old words_out.old }
{
    let row = find(set, shares, edition)?;
    check_expand(row, key, bytes_out, words_out)?;
    expand_found(row, key, bytes_out, words_out)
}
