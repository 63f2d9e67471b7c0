// Key generation (000, Algorithm 1, lines 2 to 8, and the compression of s) on one work buffer, laid out as specs/Layout.antt says.
ghost use Rattle.std.specs.Prelude.{◌≡◌, List, [], ◌∷◌, ℕ, ◌+◌, ◌-◌, ◌*◌, ◌/◌, ◌≤◌, length};
ghost use Rattle.std.proofs.Math.Option.{some};
ghost use Rattle.hash.specs.Refusal.{status_of};
ghost use Rattle.ring.specs.Words.{q, Below};
ghost use Rattle.ring.specs.Rns.{words_of};
ghost use Rattle.sharing.specs.Region.{span};
ghost use Rattle.sharing.specs.Encoding.{skip, add_noise};
ghost use Rattle.sharing.specs.Masks.{masks, mask_start};
ghost use Rattle.sharing.specs.Noise.{seed_noise, noise_bytes};
ghost use Rattle.signature.specs.Checks.{first_no, work_words};
ghost use Rattle.signature.specs.KeygenSteps.{Rounded, Generated, full_share_of, keygen_fills, key_of};
ghost use Rattle.signature.specs.KeyCalls.{keygen_leaves, keygen_call};
ghost use Rattle.signature.specs.Keys.{vk_seed, noise_part, share_part, keygen_bytes, keygen_of, keygen_masks_fill};
ghost use Rattle.signature.specs.MaskedSteps.{rows_of};
ghost use Rattle.signature.specs.Matrix.{matrix, filled};
ghost use Rattle.signature.specs.Outcome.{outcome};

use crate::compress::compress_vector;
use crate::keycheck::check_keygen;
use crate::keyform::write_key;
use crate::layout::{at_s, at_t, at_x};
use crate::masked::image;
use crate::matrix::{HeldMatrix, expand_matrix};
use crate::noise::masked_noise;
use crate::row::{Row, find};
use crate::vector::map_vector;
use hash::params::Edition;
use hash::refusal::Refusal;
use ring::poly::round;
use sharing::masks::{MaskGen, start};
use sharing::region::clear;
use sharing::repeat::LentNoise;

// Lines 5 to 8: t, rounded, at `to`, and the d shares of its last row, as they were added up; s is at `at`, transformed. The generator behind line 6.
fn public_vector(
    s: &mut [u64],
    at: usize,
    to: usize,
    a: HeldMatrix,
    seeds: &[u8],
    g: MaskGen,
) -> MaskGen
    requires seeds_len { (a.row.p.k * a.row.p.rep * a.row.p.shares * (a.row.p.kappa / 8) ≤ length seeds.now) }
    requires shares_bound { (a.row.p.shares * 512 + a.row.p.shares * 512 ≤ at) × (at + a.row.p.l * (a.row.p.shares * 512) ≤ to)
        × (to + a.row.p.k * 512 ≤ length s.old) × Below q s.old }
    ensures { Rounded a.entry.row.p to
        (add_noise masks a.entry.row.p.shares g a.entry.row.p.k a.entry.row.p.rep
        (seed_noise a.entry.row.p.shares a.entry.row.p.rep a.entry.row.p.ut (a.entry.row.p.kappa / 8) seeds.now)
        (rows_of a.entry.row.p.shares a.entry.row.p.k a.entry.row.p.l (words_of a.entry.words.now)
        (span s.old at (a.entry.row.p.l * (a.entry.row.p.shares * 512)))))
        s.old s.new
        × (result ≡ skip masks a.entry.row.p.shares (a.entry.row.p.k * a.entry.row.p.rep) g) }
{
    let p = a.row.p;
    let k = p.k;
    let d = p.shares;
    let noise = LentNoise::Seeds { u: p.ut, seeds };
    let x = image(s, d * 512, at, to, a, noise, g);
    map_vector(s, to, k, round::<42, 125>);
    x
}

// Both, and the compression of s: checks 10 and 20. The seeds by their parts.
fn make_parts(
    work: &mut [u64],
    row: Row,
    seed: &[u8],
    coins: &[u8],
    shares: &[u8],
    mask_seed: &[u8],
) -> Result<(), Refusal>
    requires { (length work.old ≡ work_words row.p) × (length coins.now ≡ noise_bytes row.p)
        × (length shares.now ≡ (row.p.shares - 1) * (row.p.kappa / 8)) }
    ensures value { (status_of result ≡ first_no (keygen_fills row.p seed.now coins.now shares.now mask_seed.now))
        × (length work.new ≡ length work.old) × Below q work.new }
    ensures by_index { (A x : List ℕ)
        → matrix row.p seed.now ≡ some A
        → full_share_of row.p shares.now coins.now mask_seed.now ≡ some x
        → Generated row.p coins.now (mask_start mask_seed.now) A x work.new }
{
    let p = row.p;
    let k = p.k;
    let l = p.l;
    let d = p.shares;
    let rep = p.rep;
    let n = p.kappa / 8;
    let edition = p.edition;
    let at = at_s(row);
    let to = at_t(row);
    let b = l * rep * d * n;
    let mut a = [0u64; 32256];
    clear(work);
    expand_matrix(&mut a, seed, k, l)?;
    let g = start(mask_seed);
    let noise = LentNoise::Seeds {
        u: p.ut,
        seeds: coins,
    };
    let x = masked_noise(work, at, row, noise, g);
    let words = &a;
    let y = public_vector(work, at, to, HeldMatrix { row, words }, &coins[b..], x);
    compress_vector(work, at, at_x(row), l, d, edition, shares, n)?;
    if !y.ok {
        return Err(Refusal::MasksNotFilled);
    }
    Ok(())
}

// Lines 2 to 8 and the compression. Lent are the matrix seed, the noise seeds (01: noise tape) and d - 1 share seeds, one behind the other.
pub(crate) fn make_key(
    work: &mut [u64],
    row: Row,
    seeds: &[u8],
    mask_seed: &[u8],
) -> Result<(), Refusal>
    requires { (length work.old ≡ work_words row.p) × (length seeds.now ≡ keygen_bytes row.p) }
    ensures value { (status_of result ≡ first_no (keygen_fills row.p (vk_seed row.p seeds.now) (noise_part row.p seeds.now)
        (share_part row.p seeds.now) mask_seed.now))
        × (length work.new ≡ length work.old) × Below q work.new }
    ensures by_index { (A x : List ℕ)
        → matrix row.p (vk_seed row.p seeds.now) ≡ some A
        → full_share_of row.p (share_part row.p seeds.now) (noise_part row.p seeds.now) mask_seed.now ≡ some x
        → Generated row.p (noise_part row.p seeds.now) (mask_start mask_seed.now) A x work.new }
{
    let p = row.p;
    let k = p.k;
    let l = p.l;
    let d = p.shares;
    let rep = p.rep;
    let n = p.kappa / 8;
    let e = n + (l + k) * d * rep * n;
    make_parts(work, row, &seeds[..n], &seeds[n..e], &seeds[e..], mask_seed)
}

// The signing key of the parts that make_key left in the work buffer.
fn write_made(work: &[u64], row: Row, seeds: &[u8], out: &mut [u8])
    requires work_len { (length work.now ≡ work_words row.p) × (length seeds.now ≡ keygen_bytes row.p) }
    requires out_len { length out.old ≡ row.p.kappa / 8 + row.p.k * 448 + ((row.p.shares - 1) * (row.p.kappa / 8) + row.p.l * 3136) }
    ensures { out.new ≡ key_of row.p seeds.now work.now }
{
    let p = row.p;
    let k = p.k;
    let l = p.l;
    let d = p.shares;
    let rep = p.rep;
    let n = p.kappa / 8;
    let e = n + (l + k) * d * rep * n;
    let a = at_t(row);
    let b = at_x(row);
    let c = b + l * 512;
    write_key(
        &seeds[0..n],
        &work[a..b],
        k,
        &seeds[e..],
        &work[b..c],
        l,
        out,
    );
}

// Key generation behind its checks: the key, or check 10 or 20. The work buffer is zero afterwards.
fn generate(
    row: Row,
    seeds: &[u8],
    mask_seed: &[u8],
    out: &mut [u8],
    work: &mut [u64],
) -> Result<(), Refusal>
    requires work_len { (length work.old ≡ work_words row.p) × (length seeds.now ≡ keygen_bytes row.p) }
    requires out_len { length out.old ≡ row.p.kappa / 8 + row.p.k * 448 + ((row.p.shares - 1) * (row.p.kappa / 8) + row.p.l * 3136) }
    ensures { outcome (status_of result) out.new work.new
        ≡ keygen_leaves (first_no ((10, filled (keygen_of row.p seeds.now mask_seed.now))
        ∷ (20, keygen_masks_fill row.p seeds.now mask_seed.now) ∷ [])) row.p seeds.now
        mask_seed.now out.old work.old }
{
    let made = make_key(work, row, seeds, mask_seed);
    if made.is_ok() {
        write_made(work, row, seeds, out);
    }
    clear(work);
    made
}

// Key generation (01, "Questions put to a call": 1, 2, 7, 8, 10; 02, #105: 20).
pub fn keygen(
    set: u64,
    shares: u64,
    edition: Edition,
    seeds: &[u8],
    mask_seed: &[u8],
    key_out: &mut [u8],
    work: &mut [u64],
) -> Result<(), Refusal>
    ensures { outcome (status_of result) key_out.new work.new
        ≡ keygen_call edition set shares seeds.now mask_seed.now key_out.old work.old }
{
    let row = find(set, shares, edition)?;
    check_keygen(row, seeds, mask_seed, key_out, work)?;
    generate(row, seeds, mask_seed, key_out, work)
}
