// The masked product by the transform (000, Algorithm 1 lines 5 to 7, Algorithm 2 lines 6 to 8): row by row of the matrix, which is lent in the
// transform domain, left in residues; then the row's noise, and the sum of its shares.
ghost use Rattle.std.specs.Prelude.{◌≡◌, ◌+◌, ◌*◌, ◌^◌, ◌≤◌, ◌<◌, length};
ghost use Rattle.ring.specs.Words.{q, Below, Residues, Words};
ghost use Rattle.ring.specs.Rns.{words_of, recombined};
ghost use Rattle.hash.specs.Lists.{zeros};
ghost use Rattle.sharing.specs.Blocks.{block, build};
ghost use Rattle.sharing.specs.Region.{span, Wrote};
ghost use Rattle.sharing.specs.Encoding.{skip, add_noise};
ghost use Rattle.sharing.specs.Masks.{masks};
ghost use Rattle.sharing.specs.NoiseSteps.{noise_reps, lent_noise, NoiseAt, NoiseFor};
ghost use Rattle.signature.specs.MaskedSteps.{applied, shared_poly, row_share, noised_row, rows_of, Summed, SummedAll};

use crate::matrix::HeldMatrix;
use crate::row::Row;
use ring::rns::{add_product, intt_sums, residues_of};
use sharing::masks::MaskGen;
use sharing::region::{load, store_at};
use sharing::repeat::{LentNoise, add_noise_at};
use sharing::shares::decode_at;

// A row of the matrix, which begins at `from` in a, applied to a vector of l polynomials: the sums of the products, modulo each prime.
pub(crate) fn apply_row(hi: &mut [u64], lo: &mut [u64], a: &[u64], from: usize, z: &[u64], l: usize)
    requires hi_value { (hi.old ≡ zeros 512) × (lo.old ≡ zeros 512) × (l ≤ 7) }
    requires l_in_bounds { (from + l * 512 ≤ length a.now) × Below (2 ^ 60) a.now × (l * 512 ≤ length z.now) × Below (2 ^ 60) z.now }
    ensures { (recombined hi.new lo.new
        ≡ applied l (span (words_of a.now) from (l * 512)) (words_of z.now))
        × Residues (8 * 2 ^ 60) 512 hi.new × Residues (8 * 2 ^ 60) 512 lo.new }
{
    for m in 0..l {
        let f = m * 512;
        let g = f + 512;
        let b = from + f;
        let e = b + 512;
        add_product(hi, lo, &a[b..e], &z[f..g]);
    }
}

// Share j of the vector of l sharings at `at`, in residues.
fn share_residues(s: &[u64], at: usize, l: usize, d: usize, j: usize, out: &mut [u64])
    requires { (at + l * (d * 512) ≤ length s.now) × Below q s.now × (j < d) × (l * 512 ≤ length out.old) × Below (2 ^ 60) out.old }
    ensures { Wrote 0 0 (l * 512) (build l (shared_poly d (span s.now at (l * (d * 512))) j)) (words_of out.old)
        (words_of out.new) × (length out.new ≡ length out.old) × Below (2 ^ 60) out.new }
{
    for m in 0..l {
        let x = residues_of(load(s, at + (m * d + j) * 512));
        let b = m * 512;
        let e = b + 512;
        out[b..e].copy_from_slice(&x);
    }
}

// Share j of a row of the masked product; the vector of l sharings, transformed, is at `at`.
fn row_share(
    s: &[u64],
    at: usize,
    a: &[u64],
    from: usize,
    l: usize,
    d: usize,
    j: usize,
) -> [u64; 512]
    requires { (at + l * (d * 512) ≤ length s.now) × Below q s.now × (from + l * 512 ≤ length a.now) × Below (2 ^ 60) a.now
        × (l ≤ 7) × (j < d) }
    ensures { (result ≡ row_share d l (span (words_of a.now) from (l * 512)) (span s.now at (l * (d * 512))) j)
        × Words 512 result }
{
    let mut z = [0u64; 3584];
    let mut hi = [0u64; 512];
    let mut lo = [0u64; 512];
    share_residues(s, at, l, d, j, &mut z);
    apply_row(&mut hi, &mut lo, a, from, &z, l);
    intt_sums(hi, lo)
}

// A row of the masked product at `to`, share by share. Out of line, so that its arrays are gone from the stack when noise is added.
#[inline(never)]
fn row_at(s: &mut [u64], to: usize, at: usize, a: &[u64], from: usize, l: usize, d: usize)
    requires { (to + d * 512 ≤ at) × (at + l * (d * 512) ≤ length s.old) × Below q s.old × (from + l * 512 ≤ length a.now)
        × Below (2 ^ 60) a.now × (l ≤ 7) }
    ensures { Wrote 0 to (d * 512)
        (build d (row_share d l (span (words_of a.now) from (l * 512)) (span s.old at (l * (d * 512)))))
        s.old s.new }
{
    for j in 0..d {
        let r = row_share(s, at, a, from, l, d, j);
        store_at(s, to + j * 512, &r);
    }
}

// Lines 6 to 8 at row i: its d shares with their noise at `shares_at`, behind a zero encoding's room, and their sum at `to`; r, or s,
// transformed, is at `at`.
fn image_row(
    s: &mut [u64],
    shares_at: usize,
    at: usize,
    to: usize,
    row: Row,
    a: &[u64],
    i: usize,
    noise: LentNoise,
    g: MaskGen,
) -> MaskGen
    requires noise_at { (i < 256) × NoiseAt row.p i noise × (i * (row.p.l * 512) + row.p.l * 512 ≤ length a.now) × Below (2 ^ 60) a.now }
    requires shares_bound { (row.p.shares * 512 ≤ shares_at) × (shares_at + row.p.shares * 512 ≤ at) × (at + row.p.l * (row.p.shares * 512) ≤ to)
        × (to + 512 ≤ length s.old) × Below q s.old }
    ensures { Summed row.p.shares shares_at to
        (noised_row row.p.shares row.p.l g (noise_reps row.p noise.entry) (lent_noise row.p noise.entry i)
        (block (row.p.l * 512) i (words_of a.now)) (span s.old at (row.p.l * (row.p.shares * 512))))
        s.old s.new
        × (result ≡ skip masks row.p.shares (noise_reps row.p noise.entry) g) }
{
    let p = row.p;
    let l = p.l;
    let d = p.shares;
    row_at(s, shares_at, at, a, i * (l * 512), l, d);
    let x = add_noise_at(s, shares_at, p, noise, i, g);
    decode_at(s, shares_at, to, p);
    x
}

// All k rows of the matrix a with their noise (Algorithm 1 lines 5 to 7, Algorithm 2 lines 6 to 8), one after the other at `shares_at`, the
// sums one behind the other from `to` on.
pub(crate) fn image(
    s: &mut [u64],
    shares_at: usize,
    at: usize,
    to: usize,
    a: HeldMatrix,
    noise: LentNoise,
    g: MaskGen,
) -> MaskGen
    requires noise_for { NoiseFor a.row.p a.row.p.k noise }
    requires shares_bound { (a.row.p.shares * 512 ≤ shares_at) × (shares_at + a.row.p.shares * 512 ≤ at)
        × (at + a.row.p.l * (a.row.p.shares * 512) ≤ to)
        × (to + a.row.p.k * 512 ≤ length s.old) × Below q s.old }
    ensures { SummedAll a.entry.row.p.shares a.entry.row.p.k shares_at to
        (add_noise masks a.entry.row.p.shares g a.entry.row.p.k (noise_reps a.entry.row.p noise.entry) (lent_noise a.entry.row.p noise.entry)
        (rows_of a.entry.row.p.shares a.entry.row.p.k a.entry.row.p.l (words_of a.entry.words.now)
        (span s.old at (a.entry.row.p.l * (a.entry.row.p.shares * 512)))))
        s.old s.new
        × (result ≡ skip masks a.entry.row.p.shares (a.entry.row.p.k * noise_reps a.entry.row.p noise.entry) g) }
{
    let row = a.row;
    let k = row.p.k;
    let mut x = g;
    for i in 0..k {
        let b = to + i * 512;
        x = image_row(s, shares_at, at, b, row, a.words, i, noise, x);
    }
    x
}
