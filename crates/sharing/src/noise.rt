// Uniform noise of u bits (000, Algorithm 7).
ghost use Rattle.std.specs.Prelude.{◌≡◌, ◌*◌, ◌≤◌, length};
ghost use Rattle.hash.specs.Lists.{table};
ghost use Rattle.ring.specs.Words.{Words};
ghost use Rattle.sharing.specs.Noise.{width, signed_low, sample_at, sample_u};

use ring::poly::Q;

// The low u bits of x as a signed number, modulo q.
fn signed_low(x: u64, u: usize) -> u64
    requires { (1 ≤ u) × (u ≤ 48) }
    ensures { result ≡ signed_low u x }
{
    let m: u64 = 1 << u;
    let y = x % m;
    if y < m / 2 { y } else { Q - (m - y) }
}

// 512 samples of w bytes.
fn cut(b: &[u8], u: usize, w: usize) -> [u64; 512]
    requires { (1 ≤ u) × (u ≤ 48) × (w ≡ width u) × (w * 512 ≤ length b.now) }
    ensures { result ≡ table (sample_at u b.now) 512 }
{
    let mut p = [0u64; 512];
    for i in 0..512usize {
        p[i] = signed_low(hash::endian::load(b, w * i, w), u);
    }
    p
}

// The same by u alone: for the widths of the scheme, 1, 5 and 6 bytes, the loads are unrolled.
fn samples(b: &[u8], u: usize) -> [u64; 512]
    requires { (1 ≤ u) × (u ≤ 48) × (width u * 512 ≤ length b.now) }
    ensures { result ≡ table (sample_at u b.now) 512 }
{
    match (u + 7) / 8 {
        1 => cut(b, u, 1),
        5 => cut(b, u, 5),
        6 => cut(b, u, 6),
        w => cut(b, u, w),
    }
}

// Algorithm 7: 512 samples of the stream of a header and a seed.
pub fn sample_u(header: &[u8; 8], seed: &[u8], u: usize) -> [u64; 512]
    requires { (1 ≤ u) × (u ≤ 48) }
    ensures { (result ≡ sample_u header.now seed.now u) × Words 512 result }
{
    let n = (u + 7) / 8 * 512;
    let mut b = [0u8; 3072];
    hash::shake::squeeze(hash::shake::begin(header, seed), &mut b[..n]);
    samples(&b[..n], u)
}
