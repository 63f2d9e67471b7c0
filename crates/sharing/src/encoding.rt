// Zero encodings and refreshing (000, Algorithms 12 and 11; 01, "Streams and shares"). A sharing of d shares is d * 512 words. In a work
// buffer the first d * 512 words are scratch: a refresh makes its zero encoding there.
ghost use Rattle.std.specs.Prelude.{◌≡◌, ◌+◌, ◌*◌, ◌≤◌, length, take, drop};
ghost use Rattle.hash.specs.Params.{order_index, ShareCount};
ghost use Rattle.ring.specs.Words.{q, add_w, Below, Words};
ghost use Rattle.sharing.specs.Region.{span, Wrote};
ghost use Rattle.sharing.specs.Encoding.{pairs, later, polys, zero_after, zero_encoding, skip, zero_at, zero_vector, refreshed};
ghost use Rattle.sharing.specs.EncodingSteps.{WroteMasked};
ghost use Rattle.sharing.specs.Masks.{masks};

use crate::masks::{MaskGen, fill};
use crate::region::{add_at, load, sub_at};
use hash::params::Params;

// Algorithm 12, the pairs: for each of h a polynomial of masking words, added on the left, subtracted on the right.
fn mask_pairs(s: &mut [u64], h: usize, g: MaskGen) -> MaskGen
    requires { Words (h * 512 + h * 512) s.old }
    ensures { (s.new ≡ pairs (take (h * 512) s.old) (drop (h * 512) s.old) (polys masks h g))
        × (result ≡ later masks h g) }
{
    let mut x = g;
    let mut p = [0u64; 512];
    for j in 0..h {
        x = fill(&mut p, x);
        add_at(s, j * 512, &p);
        sub_at(s, h * 512 + j * 512, &p);
    }
    x
}

// Algorithm 12: one share is zero; of more the left half is made, the right half, then their pairs are masked.
pub fn zero_encoding(s: &mut [u64], d: usize, g: MaskGen) -> MaskGen
    requires { (length s.old ≡ d * 512) × ShareCount d }
    ensures { (s.new ≡ zero_encoding masks (order_index d) g) × (result ≡ zero_after masks (order_index d) g) }
{
    if d == 1 {
        s.fill(0);
        return g;
    }
    let h = d / 2;
    let m = h * 512;
    let x = zero_encoding(&mut s[..m], h, g);
    let y = zero_encoding(&mut s[m..], h, x);
    mask_pairs(s, h, y)
}

// A zero encoding in the region at `at`.
pub fn zero_encoding_at(s: &mut [u64], at: usize, d: usize, g: MaskGen) -> MaskGen
    requires { ShareCount d × (at + d * 512 ≤ length s.old) × Below q s.old }
    ensures { Wrote 0 at (d * 512) (zero_at masks d 0 g) s.old s.new × (result ≡ skip masks d 1 g) }
{
    zero_encoding(&mut s[at..at + d * 512], d, g)
}

// The sharing in the scratch is added to the one at `at`.
pub fn add_scratch(s: &mut [u64], at: usize, d: usize)
    requires { (d * 512 ≤ at) × (at + d * 512 ≤ length s.old) × Below q s.old }
    ensures { Wrote 0 at (d * 512) (add_w (span s.old at (d * 512)) (span s.old 0 (d * 512))) s.old
        s.new }
{
    for j in 0..d {
        let p = load(s, j * 512);
        add_at(s, at + j * 512, &p);
    }
}

// Algorithm 11: a zero encoding is added to the sharing at `at`. It stays in the scratch.
pub fn refresh_at(s: &mut [u64], at: usize, p: Params, g: MaskGen) -> MaskGen
    requires { ShareCount p.shares × (p.shares * 512 ≤ at) × (at + p.shares * 512 ≤ length s.old) × Below q s.old }
    ensures { Wrote (p.shares * 512) at (p.shares * 512)
        (add_w (span s.old at (p.shares * 512)) (zero_at masks p.shares 0 g)) s.old s.new
        × (result ≡ skip masks p.shares 1 g) × (span s.new 0 (p.shares * 512) ≡ zero_at masks p.shares 0 g) }
{
    let d = p.shares;
    let x = zero_encoding_at(s, 0, d, g);
    add_scratch(s, at, d);
    x
}

// m zero encodings, from `at` on. Nothing else is written.
pub fn zero_vector(s: &mut [u64], at: usize, m: usize, p: Params, g: MaskGen) -> MaskGen
    requires { ShareCount p.shares × (at + m * (p.shares * 512) ≤ length s.old) × Below q s.old }
    ensures { Wrote 0 at (m * (p.shares * 512)) (zero_vector masks p.shares g m) s.old s.new
        × (result ≡ skip masks p.shares m g) }
{
    let d = p.shares;
    let mut x = g;
    for i in 0..m {
        let a = at + i * (d * 512);
        x = zero_encoding_at(s, a, d, x);
    }
    x
}

// Algorithm 11 at each of m sharings.
pub fn refresh_vector(s: &mut [u64], at: usize, m: usize, p: Params, g: MaskGen) -> MaskGen
    requires { ShareCount p.shares × (p.shares * 512 ≤ at) × (at + m * (p.shares * 512) ≤ length s.old) × Below q s.old }
    ensures { WroteMasked p.shares m g result at (m * (p.shares * 512))
        (refreshed masks p.shares g m (span s.old at (m * (p.shares * 512)))) s.old s.new }
{
    let d = p.shares;
    let mut x = g;
    for i in 0..m {
        let a = at + i * (d * 512);
        x = refresh_at(s, a, p, x);
    }
    x
}
