// Masked noise (000, Algorithm 1 lines 3 and 4, Algorithm 2 lines 4 and 5): l zero encodings at `at` and their noise, transformed.
ghost use Rattle.std.specs.Prelude.{◌≡◌, ◌+◌, ◌*◌, ◌≤◌, length};
ghost use Rattle.ring.specs.Words.{q, Below};
ghost use Rattle.sharing.specs.NoiseSteps.{NoiseFor};
ghost use Rattle.sharing.specs.Region.{Wrote};
ghost use Rattle.signature.specs.Masked.{masked_noise};
ghost use Rattle.signature.specs.MaskedSteps.{noise_lent, transformed};

use crate::row::Row;
use crate::vector::map_vector;
use ring::poly::ntt;
use sharing::encoding::zero_vector;
use sharing::masks::MaskGen;
use sharing::repeat::{LentNoise, noise_vector};

// From seeds or explicit, as the noise is lent.
pub(crate) fn masked_noise(
    s: &mut [u64],
    at: usize,
    row: Row,
    noise: LentNoise,
    g: MaskGen,
) -> MaskGen
    requires noise_for { NoiseFor row.p row.p.l noise }
    requires shares_bound { (row.p.shares * 512 ≤ at) × (at + row.p.l * (row.p.shares * 512) ≤ length s.old) × Below q s.old }
    ensures { Wrote (row.p.shares * 512) at (row.p.l * (row.p.shares * 512))
        (transformed (row.p.l * row.p.shares) (masked_noise row.p (noise_lent row.p noise.entry) g).shares) s.old s.new
        × (result ≡ (masked_noise row.p (noise_lent row.p noise.entry) g).next) }
{
    let p = row.p;
    let l = p.l;
    let d = p.shares;
    let x = zero_vector(s, at, l, p, g);
    let y = noise_vector(s, at, l, p, noise, x);
    map_vector(s, at, l * d, ntt);
    y
}
