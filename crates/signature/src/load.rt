// The shares of a key into the work buffer of signing, laid out as specs/Layout.antt says.
ghost use Rattle.std.specs.Prelude.{◌≡◌, true, List, ℕ, ◌+◌, ◌*◌, ◌≤◌, length};
ghost use Rattle.std.proofs.Math.Option.{some};
ghost use Rattle.hash.specs.Refusal.{unless};
ghost use Rattle.hash.specs.declared.refusal.Refusal.{Refusal};
ghost use Rattle.ring.specs.Words.{q, Below};
ghost use Rattle.sharing.specs.Region.{span, Wrote};
ghost use Rattle.signature.specs.AttemptSteps.{key_lent};
ghost use Rattle.signature.specs.Checks.{work_words, key_sized, shares_good};
ghost use Rattle.signature.specs.Keys.{full_share, decompressed, shares_of};
ghost use Rattle.signature.specs.Matrix.{filled};
ghost use Rattle.signature.specs.ExpandSteps.{part_bytes};
ghost use Rattle.signature.specs.Layout.{at_s};

use crate::keys::{decompress_shares, shares_fill};
use crate::layout::at_s;
use crate::lent::{LentKey, SharePart};
use crate::row::Row;
use hash::refusal::Refusal;
use ring::poly::copy_into;
use sharing::region::clear;

// The words of an expanded key at `at`.
fn load_words(s: &mut [u64], at: usize, words: &[u64])
    requires { (at + length words.now ≤ length s.old) × Below q s.old × Below q words.now }
    ensures { Wrote 0 at (length words.now) words.now s.old s.new }
{
    let e = at + words.len();
    copy_into(&mut s[at..e], words);
}

// The shares of a signing key at `at`; lent is the part behind the public key. Or check 10.
fn load_part(s: &mut [u64], at: usize, part: SharePart) -> Result<(), Refusal>
    requires words_low { Below q (full_share part.row.p part.bytes.now) }
    requires shares_in_bounds { (at + part.row.p.l * (part.row.p.shares * 512) ≤ length s.old) × Below q s.old }
    ensures value { (result ≡ unless Refusal.UniformNotFilled (filled (decompressed part.entry.row.p part.entry.bytes.now)))
        × (length s.new ≡ length s.old)
        × Below q s.new }
    ensures by_index { (X : List ℕ)
        → decompressed part.entry.row.p part.entry.bytes.now ≡ some X
        → Wrote 0 at (part.entry.row.p.l * (part.entry.row.p.shares * 512)) X s.old s.new }
{
    let p = part.row.p;
    if !shares_fill(part) {
        return Err(Refusal::UniformNotFilled);
    }
    let d = p.shares;
    let e = at + p.l * (d * 512);
    decompress_shares(part, &mut s[at..e]);
    Ok(())
}

// The shares of a key, of either form, behind checks 3 and 5, or check 10: the work buffer is cleared first.
pub(crate) fn load_shares(work: &mut [u64], row: Row, key: LentKey) -> Result<(), Refusal>
    requires work_len { length work.old ≡ work_words row.p }
    requires words_value { (key_sized row.p (key_lent key) ≡ true) × (shares_good row.p (key_lent key) ≡ true) }
    ensures value { (result ≡ unless Refusal.UniformNotFilled (filled (shares_of row.p (key_lent key.entry))))
        × (length work.new ≡ length work.old) × Below q work.new }
    ensures by_index { (X : List ℕ)
        → shares_of row.p (key_lent key.entry) ≡ some X
        → span work.new (at_s row.p.shares) (row.p.l * (row.p.shares * 512)) ≡ X }
{
    let p = row.p;
    let at = at_s(row);
    clear(work);
    match key {
        LentKey::Signing(bytes) => {
            let vk = p.vk_bytes;
            let bytes = &bytes[vk..];
            load_part(work, at, SharePart { row, bytes })
        }
        LentKey::Expanded { bytes: _, words } => {
            load_words(work, at, words);
            Ok(())
        }
    }
}
