// The byte form of a signing key (000, 2.5.2 and 2.5.3): the public key, then the share part.
ghost use Rattle.std.specs.Prelude.{◌≡◌, ◌++◌, ◌+◌, ◌*◌, ◌^◌, ◌<◌, ◌≤◌, length};
ghost use Rattle.sharing.specs.Region.{put};
ghost use Rattle.signature.specs.Bits.{repack};

use crate::bits::pack;
use ring::poly::copy_into;

// The bytes p at `at`.
pub fn bytes_at(p: &[u8], out: &mut [u8], at: usize)
    requires { at + length p.now ≤ length out.old }
    ensures { out.new ≡ put out.old at (length p.now) p.now }
{
    let e = at + p.len();
    copy_into(&mut out[at..e], p);
}

// Words of w bits each, as n bytes at `at`.
fn words_at(words: &[u64], w: usize, n: usize, out: &mut [u8], at: usize)
    requires w_len { length words.now * w ≡ n * 8 }
    requires n_in_bounds { (at + n ≤ length out.old) × (length out.old < 2 ^ 32) × (w ≤ 56) }
    ensures { out.new ≡ put out.old at n (repack w 8 n words.now) }
{
    let e = at + n;
    pack(words, w, &mut out[at..e]);
}

// The seed and the k polynomials t at 7 bits a coefficient; the share seeds and the l polynomials x at 49 bits a coefficient.
pub(crate) fn write_key(
    seed: &[u8],
    t: &[u64],
    k: usize,
    share_seeds: &[u8],
    x: &[u64],
    l: usize,
    out: &mut [u8],
)
    requires t_len { (length t.now ≡ k * 512) × (length x.now ≡ l * 512) }
    requires out_len { (length out.old ≡ length seed.now + k * 448 + (length share_seeds.now + l * 3136))
        × (length out.old < 2 ^ 32) }
    ensures { out.new
        ≡ (seed.now ++ repack 7 8 (k * 448) t.now)
        ++ (share_seeds.now ++ repack 49 8 (l * 3136) x.now) }
{
    let a = seed.len();
    let b = a + k * 448;
    let c = b + share_seeds.len();
    bytes_at(seed, out, 0);
    words_at(t, 7, k * 448, out, a);
    bytes_at(share_seeds, out, b);
    words_at(x, 49, l * 3136, out, c);
}
