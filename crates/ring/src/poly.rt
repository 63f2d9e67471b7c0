// Polynomials of R_q, by value: 512 coefficients below q, or the 512 values of the transform (000, 2.2 and 2.7.1).
ghost use Rattle.std.specs.Prelude.{◌≡◌, ◌*◌, ◌%◌, ◌^◌, ◌<◌, ◌≤◌, length};
ghost use Rattle.ring.specs.Words.{q, addq, subq, add_w, sub_w, Below, all_below, Residues, Words};
ghost use Rattle.ring.specs.Transform.{ntt, intt, pointwise};
ghost use Rattle.ring.specs.Round.{rounded, scaled_t, centred, residue, residues};
ghost use Rattle.ring.specs.Poly.{map_n};

use crate::prime::Prime;
use crate::residue::{backward_both, combine, combined, forward, mul, narrow, reduce};

// The modulus q (000, Tables 2 to 4).
pub const Q: u64 = 549824583172097;

// 2^42: rounding divides t by it (2.2).
const SCALE_T: u64 = 4398046511104;

// 2^63 - q: with it, a word from q on reaches bit 63.
const UP_TO_63: u64 = 9222822212271603711;

// The transform.
pub fn ntt(f: [u64; 512]) -> [u64; 512]
    ensures { (result ≡ ntt f) × Words 512 result }
{
    let mut a = f;
    let mut b = f;
    forward(Prime::Second, &mut a);
    forward(Prime::First, &mut b);
    combined(&mut a, &b);
    a
}

// Its inverse. Where x is words below q, x is the transform of what it gives.
pub fn intt(x: [u64; 512]) -> [u64; 512]
    ensures { (result ≡ intt x) × Words 512 result × (Words 512 x → ntt result ≡ x) }
{
    let mut a = x;
    let mut b = x;
    backward_both(&mut a, &mut b);
    a
}

// The least residue of what is below 2 q. Bit 63 of s + (2^63 - q) says whether q goes off: words are not compared, so two are taken at a time.
fn narrow_word(s: u64) -> u64
    requires { s < 2 * q }
    ensures { result ≡ s % q }
{
    s - ((s + UP_TO_63) >> 63) * Q
}

fn add_word(x: u64, y: u64) -> u64
    requires { (x < q) × (y < q) }
    ensures { result ≡ addq x y }
{
    narrow_word(x + y)
}

fn sub_word(x: u64, y: u64) -> u64
    requires { (x < q) × (y < q) }
    ensures { result ≡ subq x y }
{
    narrow_word(x + (Q - y))
}

// By the rests modulo the two primes: the product itself fits no word.
fn mul_word(x: u64, y: u64) -> u64
    ensures { result ≡ (x * y) % q }
{
    let r2 = mul(
        Prime::Second,
        reduce(Prime::Second, x),
        reduce(Prime::Second, y),
    );
    let r1 = mul(
        Prime::First,
        reduce(Prime::First, x),
        reduce(Prime::First, y),
    );
    combine(r2, narrow(Prime::First, r1))
}

// Is every word below p?
pub fn all_below(s: &[u64], p: u64) -> bool
    ensures { result ≡ all_below p s.now }
{
    s.iter().all(|x| *x < p)
}

// p into s, which is as long, one by one and out of line: of slices that may overlap, for all that it knows, the compiler makes memmove of the
// library's copy, and the archives are to need nothing of C but memcpy and memset (docs/GUIDE.md).
#[inline(never)]
pub fn copy_into<T: Copy>(s: &mut [T], p: &[T])
    requires { length s.old ≡ length p.now }
    ensures { s.new ≡ p.now }
{
    for (i, &x) in p.iter().enumerate() {
        s[i] = x;
    }
}

// s + p, place by place, into s.
pub fn add_into(s: &mut [u64], p: &[u64])
    requires { (length s.old ≡ length p.now) × Below q s.old × Below q p.now }
    ensures { (s.new ≡ add_w s.old p.now) × Below q s.new }
{
    for i in 0..s.len() {
        s[i] = add_word(s[i], p[i]);
    }
}

// s - p, place by place, into s.
pub fn sub_into(s: &mut [u64], p: &[u64])
    requires { (length s.old ≡ length p.now) × Below q s.old × Below q p.now }
    ensures { (s.new ≡ sub_w s.old p.now) × Below q s.new }
{
    for i in 0..s.len() {
        s[i] = sub_word(s[i], p[i]);
    }
}

// s times p, place by place, into s.
fn mul_into(s: &mut [u64], p: &[u64])
    requires { length s.old ≡ length p.now }
    ensures { (s.new ≡ pointwise s.old p.now) × Below q s.new }
{
    for i in 0..s.len() {
        s[i] = mul_word(s[i], p[i]);
    }
}

// a + b.
pub fn add(a: [u64; 512], b: [u64; 512]) -> [u64; 512]
    requires { Words 512 a × Words 512 b }
    ensures { (result ≡ add_w a b) × Words 512 result }
{
    let mut r = a;
    add_into(&mut r, &b);
    r
}

// a - b.
pub fn sub(a: [u64; 512], b: [u64; 512]) -> [u64; 512]
    requires { Words 512 a × Words 512 b }
    ensures { (result ≡ sub_w a b) × Words 512 result }
{
    let mut r = a;
    sub_into(&mut r, &b);
    r
}

// The product of two transforms.
pub fn pointwise(a: [u64; 512], b: [u64; 512]) -> [u64; 512]
    ensures { (result ≡ pointwise a b) × Words 512 result }
{
    let mut r = a;
    mul_into(&mut r, &b);
    r
}

// Rounding by BITS bits to the modulus M (2.2): half is added, the low bits go.
fn rounded<const BITS: usize, const M: u64>(x: u64) -> u64
    requires { (x < q) × (1 ≤ BITS) × (BITS ≤ 63) × (0 < M) }
    ensures { result ≡ rounded BITS M x }
{
    ((x + (1 << (BITS - 1))) >> BITS) % M
}

// .. of each coefficient: 42 bits and 125 for the t of a public key, 44 bits and 31 for a commitment w.
pub fn round<const BITS: usize, const M: u64>(f: [u64; 512]) -> [u64; 512]
    requires { Words 512 f × (1 ≤ BITS) × (BITS ≤ 63) × (0 < M) }
    ensures { (result ≡ map_n (rounded BITS M) f) × Residues M 512 result }
{
    let mut r = f;
    for x in r.iter_mut() {
        *x = rounded::<BITS, M>(*x);
    }
    r
}

fn scaled_t(x: u64) -> u64
    requires { x < 125 }
    ensures { result ≡ x * 2 ^ 42 % q }
{
    x * SCALE_T % Q
}

// The rounded t, scaled up again.
pub fn scale_t(f: [u64; 512]) -> [u64; 512]
    requires { Residues 125 512 f }
    ensures { (result ≡ scaled_t f) × Words 512 result }
{
    let mut r = f;
    for x in r.iter_mut() {
        *x = scaled_t(*x);
    }
    r
}

// The residue of a small signed number.
fn signed(c: i8) -> u64
    ensures { result ≡ residue q c }
{
    if 0 <= c {
        c as u64
    } else {
        Q - (-(c as i64) as u64)
    }
}

// The polynomial of signed coefficients.
pub fn from_signed(c: [i8; 512]) -> [u64; 512]
    ensures { (result ≡ residues q c) × Words 512 result }
{
    let mut r = [0u64; 512];
    for (i, x) in r.iter_mut().enumerate() {
        *x = signed(c[i]);
    }
    r
}

// The centred value of x modulo an odd m, from -(m / 2) to m / 2, both ends included.
pub fn centred(x: u64, m: u64) -> i64
    requires { (x < m) × (m < 2 ^ 62) }
    ensures { result ≡ centred m x }
{
    if x <= m / 2 {
        x as i64
    } else {
        -((m - x) as i64)
    }
}
