// The commitment of one attempt (000, Algorithm 2, lines 4 to 8) on the work buffer, laid out as specs/Layout.antt says.
ghost use Rattle.std.specs.Prelude.{◌≡◌, ◌+◌, ◌*◌, length};
ghost use Rattle.ring.specs.Words.{q, Below};
ghost use Rattle.ring.specs.Rns.{words_of};
ghost use Rattle.sharing.specs.NoiseSteps.{noise_reps, lent_noise, NoiseFor};
ghost use Rattle.signature.specs.AttemptSteps.{coins_lent, Within, key_in, Committed};
ghost use Rattle.signature.specs.Checks.{work_words};
ghost use Rattle.signature.specs.MaskedSteps.{noise_lent, NoiseSized, matrix_in};
ghost use Rattle.signature.specs.Sign.{noise_at, mask_at};

use crate::layout::{at_r, at_t};
use crate::lent::{LentCoins, NoiseTape};
use crate::masked::image;
use crate::matrix::HeldMatrix;
use crate::noise::masked_noise;
use crate::row::Row;
use sharing::masks::{MaskGen, start};
use sharing::repeat::LentNoise;

// The part of the noise that is for attempt number i + 1, samples of u_w bits.
fn attempt_noise<'a>(row: Row, coins: LentCoins<'a>, i: usize) -> LentNoise<'a>
    requires { Within row.p (coins_lent coins) i }
    ensures { NoiseSized row.p result × (noise_lent row.p result ≡ noise_at row.p (coins_lent coins.entry) i) }
{
    let p = row.p;
    let c = (p.l + p.k) * p.shares;
    match coins.noise {
        NoiseTape::Seeds(seeds) => {
            let n = c * p.rep * (p.kappa / 8);
            let from = i * n;
            let end = from + n;
            LentNoise::Seeds {
                u: p.uw,
                seeds: &seeds[from..end],
            }
        }
        NoiseTape::Words(words) => {
            let n = c * 512;
            let b = i * n;
            let e = b + n;
            LentNoise::Words(&words[b..e])
        }
    }
}

// Of one attempt's noise that behind the first l polynomials.
fn noise_behind<'a>(row: Row, noise: LentNoise<'a>) -> LentNoise<'a>
    requires { NoiseSized row.p noise }
    ensures { NoiseFor row.p row.p.k result × (noise_reps row.p result ≡ (noise_lent row.p noise.entry).reps)
        × (lent_noise row.p result ≡ (noise_lent row.p noise.entry).second) }
{
    let p = row.p;
    let l = p.l;
    let d = p.shares;
    match noise {
        LentNoise::Seeds { u, seeds } => {
            let b = l * p.rep * d * (p.kappa / 8);
            LentNoise::Seeds {
                u,
                seeds: &seeds[b..],
            }
        }
        LentNoise::Words(words) => {
            let b = l * (d * 512);
            LentNoise::Words(&words[b..])
        }
    }
}

// Attempt number i + 1. The generator behind line 7.
pub(crate) fn commit(work: &mut [u64], a: HeldMatrix, coins: LentCoins, i: usize) -> MaskGen
    requires work_len { (length work.old ≡ work_words a.row.p) × Below q work.old }
    requires within { Within a.row.p (coins_lent coins) i }
    ensures { (length work.new ≡ length work.old) × Below q work.new
        × Committed a.entry.row.p (noise_at a.entry.row.p (coins_lent coins.entry) i) (mask_at (coins_lent coins.entry) i)
        (matrix_in a.entry.row.p (words_of a.entry.words.now)) (key_in a.entry.row.p work.old) result work.new }
{
    let row = a.row;
    let p = row.p;
    let d = p.shares;
    let m = i * 32;
    let o = m + 32;
    let noise = attempt_noise(row, coins, i);
    let at = at_r(row);
    let to = at_t(row);
    let x = masked_noise(work, at, row, noise, start(&coins.masks[m..o]));
    image(work, d * 512, at, to, a, noise_behind(row, noise), x)
}
