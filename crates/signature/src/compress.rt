// MaskCompress (000, Algorithm 14): all shares but the first are exchanged for seeded ones.
ghost use Rattle.std.specs.Prelude.{◌≡◌, IfSome, List, ℕ, ◌+◌, ◌-◌, ◌*◌, ◌≤◌, ◌<◌, length};
ghost use Rattle.std.proofs.Math.Option.{some};
ghost use Rattle.hash.specs.Refusal.{unless};
ghost use Rattle.hash.specs.declared.refusal.Refusal.{Refusal};
ghost use Rattle.ring.specs.Words.{q, add_w, sub_w, Below, Words};
ghost use Rattle.ring.specs.UniformSteps.{option_of};
ghost use Rattle.sharing.specs.Region.{span, Wrote};
ghost use Rattle.signature.specs.Matrix.{filled};
ghost use Rattle.signature.specs.Compress.{share_header, seeded_share_of, collected_of, compressed_of};

use hash::params::Edition;
use hash::refusal::Refusal;
use ring::poly::{add, sub};
use ring::uniform::sample_q;
use sharing::region::{load, store_at};

// The header of share i of polynomial j, in both editions.
fn share_header(edition: Edition, i: usize, j: usize) -> [u8; 8]
    requires { (i < 256) × (j < 256) }
    ensures { result ≡ share_header edition i j }
{
    match edition {
        Edition::Printed => [75u8, i as u8, j as u8, 0, 0, 0, 0, 0],
        Edition::Kat => [75u8, j as u8, i as u8, 0, 0, 0, 0, 0],
    }
}

// Share i, from 1, of polynomial j, expanded from its seed of n bytes.
pub(crate) fn seeded_share(
    edition: Edition,
    seeds: &[u8],
    n: usize,
    i: usize,
    j: usize,
) -> Option<[u64; 512]>
    requires { (1 ≤ i) × (i < 256) × (j < 256) × (i * n ≤ length seeds.now) }
    ensures { (result ≡ option_of (seeded_share_of edition n seeds.now j i)) × IfSome result (λ f. Words 512 f) }
{
    let a = (i - 1) * n;
    let e = a + n;
    let header = share_header(edition, i, j);
    sample_q(&header, &seeds[a..e])
}

// x - r and the polynomial at `at`.
fn exchange(s: &[u64], at: usize, x: [u64; 512], r: [u64; 512]) -> [u64; 512]
    requires { (at + 512 ≤ length s.now) × Below q s.now × Words 512 x × Words 512 r }
    ensures { (result ≡ add_w (sub_w x r) (span s.now at 512)) × Words 512 result }
{
    let y = load(s, at);
    let z = sub(x, r);
    add(z, y)
}

// The full share of polynomial j, its sharing at `at`; none where a seeded share does not fill.
pub(crate) fn collect(
    s: &[u64],
    at: usize,
    d: usize,
    edition: Edition,
    seeds: &[u8],
    n: usize,
    j: usize,
) -> Option<[u64; 512]>
    requires { (1 ≤ d) × (d < 256) × (j < 256) × (at + d * 512 ≤ length s.now) × Below q s.now
        × ((d - 1) * n ≤ length seeds.now) }
    ensures { (result ≡ option_of (collected_of edition n seeds.now (span s.now at (d * 512)) j (d - 1)))
        × IfSome result (λ f. Words 512 f) }
{
    let mut x = load(s, at);
    for i in 1..d {
        let r = seeded_share(edition, seeds, n, i, j)?;
        let z = exchange(s, at + i * 512, x, r);
        x = z;
    }
    Some(x)
}

// The full shares of l polynomials, their sharings at `at`, one behind the other from `to` on. Or check 10.
pub(crate) fn compress_vector(
    s: &mut [u64],
    at: usize,
    to: usize,
    l: usize,
    d: usize,
    edition: Edition,
    seeds: &[u8],
    n: usize,
) -> Result<(), Refusal>
    requires { (1 ≤ d) × (d < 256) × (l ≤ 256) × (at + l * (d * 512) ≤ to) × (to + l * 512 ≤ length s.old) × Below q s.old
        × ((d - 1) * n ≤ length seeds.now) }
    ensures value { (result ≡ unless Refusal.UniformNotFilled (filled (compressed_of edition n seeds.now l d (span s.old at (l * (d * 512))))))
        × (length s.new ≡ length s.old) × Below q s.new }
    ensures by_index { (X : List ℕ)
        → compressed_of edition n seeds.now l d (span s.old at (l * (d * 512))) ≡ some X
        → Wrote 0 to (l * 512) X s.old s.new }
{
    for j in 0..l {
        let x = collect(s, at + j * (d * 512), d, edition, seeds, n, j).ok_or(
            Refusal::UniformNotFilled,
        )?;
        store_at(s, to + j * 512, &x);
    }
    Ok(())
}
