// Vectors of polynomials in a work buffer: each turned into another in place, or transformed from there to a buffer of residues (000, 2.7.1).
ghost use Rattle.std.specs.Prelude.{◌≡◌, List, ℕ, ◌+◌, ◌*◌, ◌^◌, ◌≤◌, length};
ghost use Rattle.ring.specs.Words.{q, Below, Residues, Words};
ghost use Rattle.ring.specs.Transform.{ntt};
ghost use Rattle.ring.specs.Rns.{words_of};
ghost use Rattle.sharing.specs.Region.{span, Wrote};
ghost use Rattle.signature.specs.MaskedSteps.{mapped, transformed};

use ring::rns::ntt_residues;
use sharing::region::{load, store_at};

// Each of the n polynomials from `at` on in place: what f, transform, inverse or rounding, makes of it.
pub(crate) fn map_vector<F: Fn([u64; 512]) -> [u64; 512]>(s: &mut [u64], at: usize, n: usize, f: F)
    requires bounds { (at + n * 512 ≤ length s.old) × Below q s.old }
    requires callable { (x : List ℕ) → Words 512 x → F.pre f x }
    requires words { (x y : List ℕ) → Words 512 x → F.post f x y → Words 512 y }
    ensures { (φ : List ℕ → List ℕ)
        → ((x y : List ℕ) → Words 512 x → F.post f x y → y ≡ φ x)
        → Wrote 0 at (n * 512) (mapped n φ (span s.old at (n * 512))) s.old s.new }
{
    for i in 0..n {
        let a = at + i * 512;
        let p = f(load(s, a));
        store_at(s, a, &p);
    }
}

// The transform of the polynomial at `at`, left in residues.
fn ntt_poly_to(s: &[u64], at: usize, out: &mut [u64])
    requires { (at + 512 ≤ length s.now) × Below q s.now × (length out.old ≡ 512) }
    ensures { (words_of out.new ≡ ntt (span s.now at 512)) × Residues (2 ^ 60) 512 out.new }
{
    let e = at + 512;
    out.copy_from_slice(&s[at..e]);
    ntt_residues(out);
}

// .. of the n polynomials from `at` on.
pub(crate) fn ntt_to(s: &[u64], at: usize, n: usize, out: &mut [u64])
    requires { (at + n * 512 ≤ length s.now) × Below q s.now × (length out.old ≡ n * 512) × Below (2 ^ 60) out.old }
    ensures { (words_of out.new ≡ transformed n (span s.now at (n * 512)))
        × (length out.new ≡ length out.old) × Below (2 ^ 60) out.new }
{
    for i in 0..n {
        let b = i * 512;
        let e = b + 512;
        ntt_poly_to(s, at + b, &mut out[b..e]);
    }
}
