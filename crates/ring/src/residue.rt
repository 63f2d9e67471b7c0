// Inside the layer: polynomials modulo one prime of q (000, 2.7.2), in place. One code for both primes; `which` names the one.
// From `reduce_all` and `reduce_words` to `combined` residues are loose (02, #109).
ghost use Rattle.std.specs.Prelude.{◌≡◌, ℕ, ◌+◌, ◌*◌, ◌-◌, ◌%◌, ◌^◌, ◌<◌, ◌≤◌, length};
ghost use Rattle.ring.specs.Words.{q, Below, Residues};
ghost use Rattle.ring.specs.Poly.{map2};
ghost use Rattle.ring.specs.Residue.{prime, zeta, over512, powers, up, down, join, part, halves, fwd, bwd, scale, mods, back_one, crt_of};
ghost use Rattle.ring.specs.declared.prime.Prime.{Prime};
ghost use Rattle.ring.specs.Loose.{Loose, LooseList, CooleyTukey, GentlemanSande, Stepped, forth_range, back_range, Block};

use crate::powers::powers;
use crate::prime::Prime;

// The two primes, q = q1 q2 (000, 2.7.2).
const Q1: u64 = 16515073;

const Q2: u64 = 33292289;

// 2^32
const TWO_32: u64 = 4294967296;

// The two results of a butterfly.
#[derive(Clone, Copy)]
struct Pair {
    sum: u64,
    diff: u64,
}

// The prime itself.
fn modulus(which: Prime) -> u64
    ensures { result ≡ prime which }
{
    match which {
        Prime::First => Q1,
        Prime::Second => Q2,
    }
}

// 1 / 512 modulo the prime.
fn inverse(which: Prime) -> u64
    ensures { result ≡ over512 which }
{
    match which {
        Prime::First => 16482817,
        Prime::Second => 33227265,
    }
}

// x modulo the prime: a division by a constant, which is compiled to multiplications.
pub fn reduce(which: Prime, x: u64) -> u64
    ensures { result ≡ x % prime which }
{
    match which {
        Prime::First => x % Q1,
        Prime::Second => x % Q2,
    }
}

// The least residue of what is below twice the prime: compiled to a conditional move, with no jump.
pub fn narrow(which: Prime, x: u64) -> u64
    requires { x < 2 * prime which }
    ensures { result ≡ x % prime which }
{
    let p = modulus(which);
    if x < p { x } else { x - p }
}

// x as it is, seen to have 32 bits: products of such factors are taken two at a time.
pub fn low32(x: u64) -> u64
    requires { x < 2 ^ 32 }
    ensures { result ≡ x }
{
    x % TWO_32
}

// Barrett's quotient: t by the prime, rounded down, or one less. The factors are 2^55 by the prime, rounded down; t has 55 bits.
fn quotient(which: Prime, t: u64) -> u64
    requires { t < 32 * (prime which * prime which) }
    ensures { (result * prime which ≤ t) × (t < result * prime which + 2 * prime which) }
{
    match which {
        Prime::First => (low32(t >> 23) * 2181570557) >> 32,
        Prime::Second => (low32(t >> 23) * 1082196451) >> 32,
    }
}

// Barrett's reduction, left at what its quotient leaves of t: below twice the prime.
fn barrett(which: Prime, t: u64) -> u64
    requires { t < 32 * (prime which * prime which) }
    ensures { Loose (prime which) 2 (t % prime which) result }
{
    t - quotient(which, t) * modulus(which)
}

// The product of two words of 32 bits, so reduced.
fn barrett_mul(which: Prime, a: u64, b: u64) -> u64
    requires { (a < 2 ^ 32) × (b < 2 ^ 32) × (a * b < 32 * (prime which * prime which)) }
    ensures { Loose (prime which) 2 ((a * b) % prime which) result }
{
    barrett(which, low32(a) * low32(b))
}

// The residue product, returned loosely (02, #109): factors and product below twice the prime.
pub fn mul(which: Prime, a: u64, b: u64) -> u64
    requires { (a < 2 * prime which) × (b < 2 * prime which) }
    ensures { Loose (prime which) 2 ((a * b) % prime which) result }
{
    barrett_mul(which, a, b)
}

// The same for a least residue, as those of the tables are, and a sum below 32 primes.
fn mul_wide(which: Prime, w: u64, y: u64) -> u64
    requires { (w < prime which) × (y < 32 * prime which) }
    ensures { Loose (prime which) 2 ((w * y) % prime which) result }
{
    barrett_mul(which, w, y)
}

// x + w y and x - w y, not reduced.
fn cross(which: Prime, w: u64, x: u64, y: u64) -> Pair
    requires { (w < prime which) × (x < 32 * prime which) × (y < 32 * prime which) }
    ensures { CooleyTukey (prime which) w x y result.sum result.diff }
{
    let t = mul_wide(which, w, y);
    Pair {
        sum: x + t,
        diff: x + (2 * modulus(which) - t),
    }
}

// x + y, not reduced, and w (y - x): the way back, but for a factor 2.
fn back(which: Prime, w: u64, x: u64, y: u64) -> Pair
    requires { (w < prime which) × (x < 16 * prime which) × (y < 16 * prime which) }
    ensures { GentlemanSande (prime which) w x y result.sum result.diff }
{
    Pair {
        sum: x + y,
        diff: mul_wide(which, w, y + (16 * modulus(which) - x)),
    }
}

// The factor at node k of the tree of halves.
fn zeta(which: Prime, z: &[u64; 512], k: usize) -> u64
    requires { (z.now ≡ powers which) × (k < 512) }
    ensures { result ≡ zeta which k }
{
    z[k]
}

// A block of the transform: a butterfly at each place of its halves.
fn split(which: Prime, a: &mut [u64], h: usize, w: u64)
    requires { (length a.old ≡ 2 * h) × (w < prime which) × Below (32 * prime which) a.old }
    ensures { Stepped (prime which) (halves (up (prime which) w) (down (prime which) w) h) (λ (m : ℕ). m + 2 * prime which)
        a.old a.new }
{
    for i in 0..h {
        let r = cross(which, w, a[i], a[h + i]);
        a[i] = r.sum;
        a[h + i] = r.diff;
    }
}

// A block of the inverse.
fn merge(which: Prime, a: &mut [u64], h: usize, w: u64)
    requires { (length a.old ≡ 2 * h) × (w < prime which) × Below (16 * prime which) a.old }
    ensures { Stepped (prime which) (halves (join (prime which)) (part (prime which) w) h) (λ (m : ℕ). 2 * m) a.old
        a.new }
{
    for i in 0..h {
        let r = back(which, w, a[i], a[h + i]);
        a[i] = r.sum;
        a[h + i] = r.diff;
    }
}

// Each entry times s.
fn scaled(which: Prime, a: &mut [u64], s: u64)
    requires { (s < prime which) × Below (32 * prime which) a.old }
    ensures { LooseList (prime which) 2 (scale (prime which) s (mods (prime which) a.old)) a.new }
{
    for x in a.iter_mut() {
        *x = mul_wide(which, s, *x);
    }
}

// A level of the inverse, to blocks of 2^d entries; the sums of the fifth are reduced, as products with 1.
fn level(which: Prime, a: &mut [u64], h: usize, w: u64, d: usize)
    requires { (length a.old ≡ 2 * h) × (w < prime which) × (0 < d) × (d ≤ 9) × Below (back_range (d - 1) * prime which) a.old }
    ensures { LooseList (prime which) (back_range d)
        (halves (join (prime which)) (part (prime which) w) h (mods (prime which) a.old)) a.new }
{
    merge(which, a, h, w);
    if d == 5 {
        scaled(which, a, 1);
    }
}

// The last two levels of the transform, a block of four at node k.
fn last(which: Prime, z: &[u64; 512], a: &mut [u64], k: usize)
    requires { (z.now ≡ powers which) × Block (forth_range 2 * prime which) 2 k a.old }
    ensures { LooseList (prime which) (forth_range 0) (fwd (prime which) (zeta which) 2 k (mods (prime which) a.old))
        a.new }
{
    let w = zeta(which, z, k);
    let s = cross(which, w, a[0], a[2]);
    let t = cross(which, w, a[1], a[3]);
    let u = cross(which, zeta(which, z, 2 * k), s.sum, t.sum);
    let v = cross(which, zeta(which, z, 2 * k + 1), s.diff, t.diff);
    a[0] = u.sum;
    a[1] = u.diff;
    a[2] = v.sum;
    a[3] = v.diff;
}

// The first two levels of the inverse. k is the node that mirrors the block's.
fn first(which: Prime, z: &[u64; 512], a: &mut [u64], k: usize)
    requires { (z.now ≡ powers which) × Block (prime which) 2 k a.old }
    ensures { LooseList (prime which) (back_range 2) (bwd (prime which) (zeta which) 2 k (mods (prime which) a.old))
        a.new }
{
    let s = back(which, zeta(which, z, 2 * k + 1), a[0], a[1]);
    let t = back(which, zeta(which, z, 2 * k), a[2], a[3]);
    let w = zeta(which, z, k);
    let u = back(which, w, s.sum, t.sum);
    let v = back(which, w, s.diff, t.diff);
    a[0] = u.sum;
    a[1] = v.sum;
    a[2] = u.diff;
    a[3] = v.diff;
}

// The last three levels of the transform, a block of eight at node k: where `transform` ends, so that it is called for fewer blocks.
fn last_three(which: Prime, z: &[u64; 512], a: &mut [u64], k: usize)
    requires { (z.now ≡ powers which) × Block (forth_range 3 * prime which) 3 k a.old }
    ensures { LooseList (prime which) (forth_range 0) (fwd (prime which) (zeta which) 3 k (mods (prime which) a.old))
        a.new }
{
    let w = zeta(which, z, k);
    split(which, a, 4, w);
    last(which, z, &mut a[..4], 2 * k);
    last(which, z, &mut a[4..], 2 * k + 1);
}

// The transform of a block of 2^d entries at node k.
fn transform(which: Prime, z: &[u64; 512], a: &mut [u64], k: usize, d: usize)
    requires { (z.now ≡ powers which) × (3 ≤ d) × (d ≤ 9) × Block (forth_range d * prime which) d k a.old }
    ensures { LooseList (prime which) (forth_range 0) (fwd (prime which) (zeta which) d k (mods (prime which) a.old))
        a.new }
{
    if 3 < d {
        let h = a.len() / 2;
        let w = zeta(which, z, k);
        split(which, a, h, w);
        transform(which, z, &mut a[..h], 2 * k, d - 1);
        transform(which, z, &mut a[h..], 2 * k + 1, d - 1);
    } else {
        last_three(which, z, a, k);
    }
}

// The first three levels of the inverse, where `invert` begins. k is the node that mirrors the block's.
fn first_three(which: Prime, z: &[u64; 512], a: &mut [u64], k: usize)
    requires { (z.now ≡ powers which) × Block (prime which) 3 k a.old }
    ensures { LooseList (prime which) (back_range 3) (bwd (prime which) (zeta which) 3 k (mods (prime which) a.old))
        a.new }
{
    first(which, z, &mut a[..4], 2 * k + 1);
    first(which, z, &mut a[4..], 2 * k);
    let w = zeta(which, z, k);
    level(which, a, 4, w, 3);
}

// The inverse of the transform of a block of 2^d entries, but for a factor 2^d. k is the node that mirrors the block's.
fn invert(which: Prime, z: &[u64; 512], a: &mut [u64], k: usize, d: usize)
    requires { (z.now ≡ powers which) × (3 ≤ d) × (d ≤ 9) × Block (prime which) d k a.old }
    ensures { LooseList (prime which) (back_range d) (bwd (prime which) (zeta which) d k (mods (prime which) a.old))
        a.new }
{
    if 3 < d {
        let h = a.len() / 2;
        invert(which, z, &mut a[..h], 2 * k + 1, d - 1);
        invert(which, z, &mut a[h..], 2 * k, d - 1);
        let w = zeta(which, z, k);
        level(which, a, h, w, d);
    } else {
        first_three(which, z, a, k);
    }
}

// The entries of a modulo the prime.
fn reduce_all(which: Prime, a: &mut [u64])
    ensures { a.new ≡ mods (prime which) a.old }
{
    for x in a.iter_mut() {
        *x = reduce(which, *x);
    }
}

// Words below q, modulo the prime, left below two primes: q is below 32 squares of either.
pub fn reduce_words(which: Prime, a: &mut [u64])
    requires { Below q a.old }
    ensures { LooseList (prime which) 2 (mods (prime which) a.old) a.new }
{
    for x in a.iter_mut() {
        *x = barrett(which, *x);
    }
}

// The coefficients a, transformed.
pub fn forward(which: Prime, a: &mut [u64])
    requires { length a.old ≡ 512 }
    ensures { LooseList (prime which) 32 (fwd (prime which) (zeta which) 9 1 (mods (prime which) a.old))
        a.new }
{
    reduce_all(which, a);
    let z = powers(which);
    transform(which, &z, a, 1, 9);
}

// The same of words below q.
pub fn forward_words(which: Prime, a: &mut [u64])
    requires { Residues q 512 a.old }
    ensures { LooseList (prime which) 32 (fwd (prime which) (zeta which) 9 1 (mods (prime which) a.old))
        a.new }
{
    reduce_words(which, a);
    let z = powers(which);
    transform(which, &z, a, 1, 9);
}

// The values a, transformed back.
pub fn backward(which: Prime, a: &mut [u64])
    requires { length a.old ≡ 512 }
    ensures { LooseList (prime which) 32 (back_one which (mods (prime which) a.old)) a.new }
{
    reduce_all(which, a);
    let z = powers(which);
    invert(which, &z, a, 1, 9);
    scaled(which, a, inverse(which));
}

// The number below q with the least residue r1 modulo the first prime, and congruent to r2 modulo the second.
pub fn combine(r2: u64, r1: u64) -> u64
    requires { (r2 < 32 * prime Prime.Second) × (r1 < prime Prime.First) }
    ensures { (result ≡ crt_of r2 r1) × (result < q) }
{
    let t = ((r2 + (Q2 - r1)) * 520194) % Q2;
    r1 + Q1 * t
}

// From residues modulo the second prime, in a, and modulo the first, in b, to the numbers below q: here they are made least.
pub fn combined(a: &mut [u64], b: &[u64])
    requires { Residues (32 * prime Prime.Second) 512 a.old × (length b.now ≡ 512) }
    ensures { (a.new ≡ map2 crt_of (mods (prime Prime.Second) a.old) (mods (prime Prime.First) b.now))
        × Residues q 512 a.new }
{
    for i in 0..a.len() {
        a[i] = combine(a[i], reduce(Prime::First, b[i]));
    }
}

// Values modulo the second prime, in a, and modulo the first, in b, transformed back: in a the numbers below q. What is left in b is of no use.
pub fn backward_both(a: &mut [u64], b: &mut [u64])
    requires { (length a.old ≡ 512) × (length b.old ≡ 512) }
    ensures { (a.new ≡ map2 crt_of (back_one Prime.Second (mods (prime Prime.Second) a.old))
        (back_one Prime.First (mods (prime Prime.First) b.old))) × Residues q 512 a.new }
{
    backward(Prime::Second, a);
    backward(Prime::First, b);
    combined(a, b);
}
