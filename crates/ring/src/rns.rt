// Polynomials in the transform domain left as residues modulo the two primes of q (000, 2.7.2), two to a word. A row of a matrix product is added
// up in them: products of residues, not reduced, modulo each prime; the sums are reduced, turned back and recombined once.
ghost use Rattle.std.specs.Prelude.{◌≡◌, ℕ, ◌+◌, ◌*◌, ◌-◌, ◌^◌, ◌<◌};
ghost use Rattle.ring.specs.Words.{add_w, sub_w, Residues, Words};
ghost use Rattle.ring.specs.Poly.{map2};
ghost use Rattle.ring.specs.Transform.{ntt, intt};
ghost use Rattle.ring.specs.Rns.{residue_in, words_of, recombined, times_in, multiple, Accrued};

use crate::prime::Prime;
use crate::residue::{backward_both, forward_words, low32, reduce_words};

// 2^30
const TWO_30: u64 = 1073741824;

// A word of two residues: r2 modulo q2, r1 modulo q1.
fn word_of_two(r2: u64, r1: u64) -> u64
    requires { (r2 < 2 ^ 30) × (r1 < 2 ^ 30) }
    ensures { result ≡ r2 * 2 ^ 30 + r1 }
{
    r2 * TWO_30 + r1
}

// The residue modulo a prime in a word of two, seen to have 32 bits.
fn residue_in(which: Prime, x: u64) -> u64
    requires { x < 2 ^ 60 }
    ensures { (result ≡ residue_in which x) × (result < 2 ^ 30) }
{
    match which {
        Prime::First => x % TWO_30,
        Prime::Second => low32(x >> 30),
    }
}

// A multiple of the prime above every product of two residues.
fn multiple(which: Prime) -> u64
    ensures { result ≡ multiple which }
{
    match which {
        Prime::First => 1152921504607633342,
        Prime::Second => 1152921504612891761,
    }
}

// From residues modulo q2, in a, and modulo q1, in b, to words of two.
fn words_of_two(a: &mut [u64], b: &[u64])
    requires { Residues (2 ^ 30) 512 a.old × Residues (2 ^ 30) 512 b.now }
    ensures { (words_of a.new ≡ recombined a.old b.now) × Residues (2 ^ 60) 512 a.new }
{
    for i in 0..a.len() {
        a[i] = word_of_two(a[i], b[i]);
    }
}

// The transform, left in residues.
pub fn ntt_residues(a: &mut [u64])
    requires { Words 512 a.old }
    ensures { (words_of a.new ≡ ntt a.old) × Residues (2 ^ 60) 512 a.new }
{
    let mut b = [0u64; 512];
    b.copy_from_slice(a);
    forward_words(Prime::Second, a);
    forward_words(Prime::First, &mut b);
    words_of_two(a, &b);
}

// Words below q, each as its two residues.
pub fn residues_of(f: [u64; 512]) -> [u64; 512]
    requires { Words 512 f }
    ensures { (words_of result ≡ f) × Residues (2 ^ 60) 512 result }
{
    let mut a = f;
    let mut b = f;
    reduce_words(Prime::Second, &mut a);
    reduce_words(Prime::First, &mut b);
    words_of_two(&mut a, &b);
    a
}

// The products of the residues of a and x modulo one prime, added to s, not reduced.
fn add_times(which: Prime, s: &mut [u64], a: &[u64], x: &[u64])
    requires { Residues (15 * 2 ^ 60) 512 s.old × Residues (2 ^ 60) 512 a.now × Residues (2 ^ 60) 512 x.now }
    ensures { s.new ≡ map2 (λ (y z : ℕ). y + z) s.old (map2 (times_in which) a.now x.now) }
{
    for i in 0..s.len() {
        s[i] += residue_in(which, a[i]) * residue_in(which, x[i]);
    }
}

// The same, subtracted from a multiple of the prime.
fn sub_times(which: Prime, s: &mut [u64], a: &[u64], x: &[u64])
    requires { Residues (14 * 2 ^ 60) 512 s.old × Residues (2 ^ 60) 512 a.now × Residues (2 ^ 60) 512 x.now }
    ensures { s.new ≡ map2 (λ (y z : ℕ). y + (multiple which - z)) s.old
        (map2 (times_in which) a.now x.now) }
{
    for i in 0..s.len() {
        let m = multiple(which);
        let t = residue_in(which, a[i]) * residue_in(which, x[i]);
        s[i] += m - t;
    }
}

// The product of a and x, pointwise, added to the sums hi and lo.
pub fn add_product(hi: &mut [u64], lo: &mut [u64], a: &[u64], x: &[u64])
    requires residues { Residues (15 * 2 ^ 60) 512 hi.old × Residues (15 * 2 ^ 60) 512 lo.old }
    requires residues_2 { Residues (2 ^ 60) 512 a.now × Residues (2 ^ 60) 512 x.now }
    ensures { Accrued add_w (2 ^ 60) a.now x.now hi.old lo.old hi.new
        lo.new }
{
    add_times(Prime::Second, hi, a, x);
    add_times(Prime::First, lo, a, x);
}

// .. subtracted from them.
pub fn sub_product(hi: &mut [u64], lo: &mut [u64], a: &[u64], x: &[u64])
    requires residues { Residues (14 * 2 ^ 60) 512 hi.old × Residues (14 * 2 ^ 60) 512 lo.old }
    requires residues_2 { Residues (2 ^ 60) 512 a.now × Residues (2 ^ 60) 512 x.now }
    ensures { Accrued sub_w (2 ^ 61) a.now x.now hi.old lo.old hi.new
        lo.new }
{
    sub_times(Prime::Second, hi, a, x);
    sub_times(Prime::First, lo, a, x);
}

// Sums reduced, turned back and recombined.
pub fn intt_sums(hi: [u64; 512], lo: [u64; 512]) -> [u64; 512]
    ensures { (result ≡ intt (recombined hi lo)) × Words 512 result }
{
    let mut a = hi;
    let mut b = lo;
    backward_both(&mut a, &mut b);
    a
}
