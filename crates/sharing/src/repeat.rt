// Noise added to sharings, a refresh behind each repetition (000, Algorithm 8; 01, "Streams and shares"): from seeds, or explicit. u is the bits of a
// sample, u_t or u_w of the record; a seed is kappa bits.
ghost use Rattle.std.specs.Prelude.{◌≡◌, ◌+◌, ◌*◌, ◌/◌, ◌≤◌, ◌<◌, length};
ghost use Rattle.hash.specs.Params.{ShareCount};
ghost use Rattle.ring.specs.Words.{q, add_w, Below};
ghost use Rattle.sharing.specs.Blocks.{block};
ghost use Rattle.sharing.specs.Region.{span, Wrote};
ghost use Rattle.sharing.specs.Encoding.{add_rep, add_noise};
ghost use Rattle.sharing.specs.EncodingSteps.{WroteMasked};
ghost use Rattle.sharing.specs.Masks.{masks};
ghost use Rattle.sharing.specs.Noise.{noise_header, sample_u, seed_noise};
ghost use Rattle.sharing.specs.NoiseSteps.{noise_reps, lent_noise, NoiseAt, NoiseFor};

use crate::encoding::refresh_at;
use crate::masks::MaskGen;
use crate::noise::sample_u;
use crate::region::add_at;
use crate::shares::add_shares_at;
use hash::params::Params;

// Noise that is lent: seeds, of samples of u bits, or the words of all shares, below q, which are added once (01: noise tape, bench form).
#[derive(Clone, Copy)]
pub enum LentNoise<'a> {
    Seeds { u: usize, seeds: &'a [u8] },
    Words(&'a [u64]),
}

// How often it is added to each polynomial.
fn noise_reps(p: Params, noise: LentNoise) -> usize
    ensures { result ≡ noise_reps p noise.entry }
{
    match noise {
        LentNoise::Seeds { u: _, seeds: _ } => p.rep,
        LentNoise::Words(_) => 1,
    }
}

// Lines 5 and 6 of Algorithm 8: the noise of repetition t, polynomial i, share j, added to the polynomial at `at`.
fn add_sample_at(
    s: &mut [u64],
    at: usize,
    p: Params,
    u: usize,
    i: usize,
    t: usize,
    j: usize,
    seeds: &[u8],
)
    requires at_in_bounds { (at + 512 ≤ length s.old) × Below q s.old
        × ((i * p.rep + p.rep) * p.shares * (p.kappa / 8) ≤ length seeds.now) }
    requires t_lt_rep { (t < p.rep) × (j < p.shares) × (p.rep < 256) × (i < 256) × (p.shares < 256) × (1 ≤ u) × (u ≤ 48) }
    ensures { Wrote 0 at 512
        (add_w (span s.old at 512)
        (sample_u (noise_header t i j) (block (p.kappa / 8) ((i * p.rep + t) * p.shares + j) seeds.now) u))
        s.old s.new }
{
    let d = p.shares;
    let rep = p.rep;
    let n = p.kappa / 8;
    let k = (i * rep + t) * d + j;
    let a = k * n;
    let e = a + n;
    let header = [117u8, t as u8, i as u8, j as u8, 0, 0, 0, 0];
    let x = sample_u(&header, &seeds[a..e], u);
    add_at(s, at, &x);
}

// Lines 3 to 6: the noise of repetition t of polynomial i, for all d shares.
fn add_samples_at(s: &mut [u64], at: usize, p: Params, u: usize, i: usize, t: usize, seeds: &[u8])
    requires shares_in_bounds { (at + p.shares * 512 ≤ length s.old) × Below q s.old
        × ((i * p.rep + p.rep) * p.shares * (p.kappa / 8) ≤ length seeds.now) }
    requires t_lt_rep { (t < p.rep) × (p.rep < 256) × (i < 256) × (p.shares < 256) × (1 ≤ u) × (u ≤ 48) }
    ensures { Wrote 0 at (p.shares * 512)
        (add_w (span s.old at (p.shares * 512)) (seed_noise p.shares p.rep u (p.kappa / 8) seeds.now i t))
        s.old s.new }
{
    let d = p.shares;
    for j in 0..d {
        add_sample_at(s, at + j * 512, p, u, i, t, j, seeds);
    }
}

// .. in either form.
fn add_once_at(s: &mut [u64], at: usize, p: Params, noise: LentNoise, i: usize, t: usize)
    requires shares_in_bounds { (at + p.shares * 512 ≤ length s.old) × Below q s.old × (p.shares < 256) }
    requires t_lt_reps { NoiseAt p i noise × (t < noise_reps p noise) }
    ensures { Wrote 0 at (p.shares * 512)
        (add_w (span s.old at (p.shares * 512)) (lent_noise p noise.entry i t))
        s.old s.new }
{
    match noise {
        LentNoise::Seeds { u, seeds } => add_samples_at(s, at, p, u, i, t, seeds),
        LentNoise::Words(words) => add_shares_at(s, at, words, i * (p.shares * 512), p),
    }
}

// Algorithm 8 at polynomial i, its sharing at `at`: all repetitions, and a refresh behind each.
pub fn add_noise_at(
    s: &mut [u64],
    at: usize,
    p: Params,
    noise: LentNoise,
    i: usize,
    g: MaskGen,
) -> MaskGen
    requires share_count { ShareCount p.shares × (p.shares * 512 ≤ at) × (at + p.shares * 512 ≤ length s.old) × Below q s.old }
    requires noise_in_bounds { NoiseAt p i noise }
    ensures { WroteMasked p.shares (noise_reps p noise.entry) g result at (p.shares * 512)
        (add_rep masks p.shares g (noise_reps p noise.entry) (lent_noise p noise.entry i)
        (span s.old at (p.shares * 512)))
        s.old s.new }
{
    let mut x = g;
    for t in 0..noise_reps(p, noise) {
        add_once_at(s, at, p, noise, i, t);
        x = refresh_at(s, at, p, x);
    }
    x
}

// .. at m polynomials.
pub fn noise_vector(
    s: &mut [u64],
    at: usize,
    m: usize,
    p: Params,
    noise: LentNoise,
    g: MaskGen,
) -> MaskGen
    requires share_count { ShareCount p.shares × (p.shares * 512 ≤ at) × (at + m * (p.shares * 512) ≤ length s.old) × Below q s.old }
    requires noise_in_bounds { NoiseFor p m noise }
    ensures { WroteMasked p.shares (m * noise_reps p noise.entry) g result at (m * (p.shares * 512))
        (add_noise masks p.shares g m (noise_reps p noise.entry) (lent_noise p noise.entry)
        (span s.old at (m * (p.shares * 512))))
        s.old s.new }
{
    let d = p.shares;
    let mut x = g;
    for i in 0..m {
        let a = at + i * (d * 512);
        x = add_noise_at(s, a, p, noise, i, x);
    }
    x
}
