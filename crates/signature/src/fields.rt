// The end of a signing attempt (000, Algorithm 2, lines 17 to 20): the hint, the bounds, and the signature. The work buffer is laid out as
// specs/Layout.antt says: w, rounded, at at_t, and z at at_x. These lines only read it.
ghost use Rattle.std.specs.Prelude.{◌≡◌, List, ℕ, ◌+◌, ◌*◌, ◌^◌, ◌≤◌, ◌<◌, pos, nat_abs, length, get_or};
ghost use Rattle.ring.specs.Words.{q, Below, Residues, Words, zip_to};
ghost use Rattle.ring.specs.Rns.{words_of};
ghost use Rattle.ring.specs.Round.{round_w, residues};
ghost use Rattle.sharing.specs.Region.{span};
ghost use Rattle.signature.specs.AnswerSteps.{fields_of, FinishedAs};
ghost use Rattle.signature.specs.AttemptSteps.{commitment_in, response_in, signed_in};
ghost use Rattle.signature.specs.Checks.{work_words};
ghost use Rattle.signature.specs.Form.{hash_bytes};
ghost use Rattle.signature.specs.Keys.{vk_vector};
ghost use Rattle.signature.specs.MaskedSteps.{matrix_in};
ghost use Rattle.signature.specs.Recover.{sub31, centred_all, hint_of, recovered};
ghost use Rattle.signature.specs.RecoverSteps.{hint_rows};
ghost use Rattle.signature.specs.Sign.{public_by, finished};

use crate::bits::unpack;
use crate::bounds::check_bounds;
use crate::form::{bit_count, write};
use crate::layout::{at_t, at_x};
use crate::matrix::HeldMatrix;
use crate::recover::recover_row;
use crate::residues::{centred_into, hint_into};
use crate::row::Row;
use crate::vector::ntt_to;
use ring::poly::{Q, from_signed, round};
use ring::rns::ntt_residues;
use sharing::region::load;

// Line 18 for one row y: the rounded w is at `at`.
fn hint_row(s: &[u64], at: usize, y: [u64; 512], out: &mut [i64])
    requires { (at + 512 ≤ length s.now) × Below q s.now × Below 31 (span s.now at 512) × Words 512 y × (length out.old ≡ 512) }
    ensures { out.new ≡ centred_all 31 (zip_to sub31 (span s.now at 512) (round_w y)) }
{
    hint_into(load(s, at), round::<44, 31>(y), out);
}

// Lines 17 and 18, row by row of the matrix a: w is at `at`; z and c are transformed and left in residues.
fn hint_rows(
    work: &[u64],
    at: usize,
    a: &[u64],
    z: &[u64],
    k: usize,
    l: usize,
    c: &[u64],
    t: &[u64],
    hint: &mut [i64],
)
    requires k_in_bounds { (at + k * 512 ≤ length work.now) × Below q work.now × Below 31 (span work.now at (k * 512)) × (k ≤ 9) × (l ≤ 7) }
    requires l_in_bounds { (k * (l * 512) ≤ length a.now) × Below (2 ^ 60) a.now × (l * 512 ≤ length z.now) × Below (2 ^ 60) z.now
        × Residues (2 ^ 60) 512 c.now }
    requires t_len { (length t.now ≡ k * 512) × Below 125 t.now × (length hint.old ≡ k * 512) }
    ensures { hint.new
        ≡ hint_rows k l (words_of a.now) (words_of z.now) (words_of c.now) t.now
        (span work.now at (k * 512)) }
{
    for i in 0..k {
        let b = i * 512;
        let e = b + 512;
        let y = recover_row(a, i * (l * 512), z, l, c, load(t, b));
        hint_row(work, at + b, y, &mut hint[b..e]);
    }
}

// Lines 17 and 18: the hint.
fn make_hint(work: &[u64], vk: &[u8], a: HeldMatrix, c: [i8; 512], hint: &mut [i64])
    requires work_len { (length work.now ≡ work_words a.row.p) × Below q work.now × Below 31 (commitment_in a.row.p work.now) }
    requires vk_len { (length vk.now ≡ a.row.p.vk_bytes) × Below 125 (vk_vector a.row.p vk.now)
        × (length hint.old ≡ a.row.p.k * 512) }
    ensures { hint.new
        ≡ hint_of (commitment_in a.entry.row.p work.now)
        (recovered a.entry.row.p (matrix_in a.entry.row.p (words_of a.entry.words.now)) (response_in a.entry.row.p work.now) (residues q c)
        (vk_vector a.entry.row.p vk.now)) }
{
    let p = a.row.p;
    let k = p.k;
    let l = p.l;
    let n = p.kappa / 8;
    let m = k * 512;
    let e = n + k * 448;
    let f = l * 512;
    let mut t = [0u64; 4608];
    let mut z = [0u64; 3584];
    unpack(&vk[n..e], 7, &mut t[0..m]);
    ntt_to(work, at_x(a.row), l, &mut z[0..f]);
    let mut x = from_signed(c);
    ntt_residues(&mut x);
    hint_rows(
        work,
        at_t(a.row),
        a.words,
        &z[0..f],
        k,
        l,
        &x,
        &t[0..m],
        hint,
    );
}

// Lines 19 and 20: the signature of the fields, where they pass the bounds and fit. Else out stays as it was.
fn write_fields(row: Row, hash: &[u8], hint: &[i64], z: &[i64], out: &mut [u8]) -> bool
    requires hash_len { (length hash.now ≡ hash_bytes row.p) × (length hint.now ≤ 4608) × (length z.now ≤ 4608)
        × (length out.old ≡ row.p.sig_bytes) }
    requires by_index { (i : ℕ) → nat_abs (get_or hint.now i (pos 0)) < 2 ^ 50 }
    requires by_index_2 { (i : ℕ) → nat_abs (get_or z.now i (pos 0)) < 2 ^ 50 }
    ensures { FinishedAs (finished row.p (fields_of hash.now hint.now z.now)) result out.old
        out.new }
{
    let p = row.p;
    let bounds = check_bounds(hint, z, p.hint_limit, p.binf, p.b22);
    if !bounds.passed {
        return false;
    }
    if 8 * out.len() < bit_count(hash.len(), hint, z) {
        return false;
    }
    write(hash, hint, z, out);
    true
}

// Lines 17 to 20, with room for hint and response.
fn finish_with(
    work: &[u64],
    vk: &[u8],
    a: HeldMatrix,
    hash: &[u8],
    c: [i8; 512],
    hint: &mut [i64],
    z: &mut [i64],
    out: &mut [u8],
) -> bool
    requires work_len { (length work.now ≡ work_words a.row.p) × Below q work.now × Below 31 (commitment_in a.row.p work.now) }
    requires vk_len { (length vk.now ≡ a.row.p.vk_bytes) × Below 125 (vk_vector a.row.p vk.now)
        × (length hash.now ≡ hash_bytes a.row.p) }
    requires hint_len { (length hint.old ≡ a.row.p.k * 512) × (length z.old ≡ a.row.p.l * 512) × (length out.old ≡ a.row.p.sig_bytes) }
    ensures { (mu : List ℕ)
        → FinishedAs
        (finished a.entry.row.p (signed_in a.entry.row.p
        (public_by a.entry.row.p vk.now mu (matrix_in a.entry.row.p (words_of a.entry.words.now))) hash.now c work.now))
        result out.old out.new }
{
    let p = a.row.p;
    let b = at_x(a.row);
    let e = b + p.l * 512;
    centred_into(&work[b..e], Q, z);
    make_hint(work, vk, a, c, hint);
    write_fields(a.row, hash, hint, z, out)
}

// Lines 17 to 20: true where the signature was made; where it is over the bounds or too long, out stays as it was. All shares are kept.
pub(crate) fn finish(
    work: &[u64],
    vk: &[u8],
    a: HeldMatrix,
    hash: &[u8],
    c: [i8; 512],
    out: &mut [u8],
) -> bool
    requires work_len { (length work.now ≡ work_words a.row.p) × Below q work.now × Below 31 (commitment_in a.row.p work.now) }
    requires vk_len { (length vk.now ≡ a.row.p.vk_bytes) × Below 125 (vk_vector a.row.p vk.now)
        × (length hash.now ≡ hash_bytes a.row.p) × (length out.old ≡ a.row.p.sig_bytes) }
    ensures { (mu : List ℕ)
        → FinishedAs
        (finished a.entry.row.p (signed_in a.entry.row.p
        (public_by a.entry.row.p vk.now mu (matrix_in a.entry.row.p (words_of a.entry.words.now))) hash.now c work.now))
        result out.old out.new }
{
    let p = a.row.p;
    let m = p.k * 512;
    let n = p.l * 512;
    let mut hint = [0i64; 4608];
    let mut z = [0i64; 3584];
    finish_with(work, vk, a, hash, c, &mut hint[0..m], &mut z[0..n], out)
}
