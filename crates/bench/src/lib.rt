// Exports for the benchmark, which times them beside another implementation.
#![tactic(auto)]

ghost use Rattle.std.specs.Prelude.{◌≡◌, ◌++◌, ◌+◌, length, true, false};
ghost use Rattle.hash.specs.Lists.{pick};
ghost use Rattle.ring.specs.Checks.{filled};
ghost use Rattle.ring.specs.Words.{q, all_below};
ghost use Rattle.ring.specs.Transform.{ntt, mul};
ghost use Rattle.ring.specs.Uniform.{sample_q};
ghost use Rattle.ring.specs.UniformSteps.{poly_of};
ghost use Rattle.hash.specs.Keccak.{lane};
ghost use Rattle.hash.specs.Shake.{zero_state, after, shake256};
ghost use Rattle.sharing.specs.Encoding.{later};
ghost use Rattle.sharing.specs.Masks.{masks, mask_poly, mask_start};
ghost use Rattle.signature.specs.Decision.{decided};

use signature::bounds::Decision;

// n permutations, one on the other.
#[unsafe(no_mangle)]
pub extern "C" fn bench_permute(n: usize) -> u64
    ensures { result ≡ lane (after n zero_state) 0 0 }
{
    let mut s = hash::shake::start();
    for _ in 0..n {
        let t = hash::keccak::permute(s);
        s = t;
    }
    s[0][0]
}

// The stream of a header and a seed.
#[unsafe(no_mangle)]
pub extern "C" fn bench_stream(header: &[u8; 8], seed: &[u8], out: &mut [u8])
    ensures { out.new ≡ shake256 (header.now ++ seed.now) (length out.old) }
{
    hash::shake::squeeze(hash::shake::begin(header, seed), out);
}

// SHAKE256 of any message.
#[unsafe(no_mangle)]
pub extern "C" fn bench_shake256(m: &[u8], out: &mut [u8])
    ensures { out.new ≡ shake256 m.now (length out.old) }
{
    hash::shake::shake256(m, out);
}

// The transform of f, where its words are below q; else f stays, and the answer is false.
#[unsafe(no_mangle)]
pub extern "C" fn bench_ntt(f: &mut [u64; 512]) -> bool
    ensures { (result ≡ all_below q f.old)
        × (f.new ≡ pick (all_below q f.old) (ntt f.old) f.old) }
{
    if !ring::poly::all_below(f, ring::poly::Q) {
        return false;
    }
    *f = ring::poly::ntt(*f);
    true
}

// f times g in the ring, by the transform, into f, where the words of both are below q; else f stays, and the answer is false.
#[unsafe(no_mangle)]
pub extern "C" fn bench_product(f: &mut [u64; 512], g: &[u64; 512]) -> bool
    ensures { (result ≡ pick (all_below q f.old) (all_below q g.now) false)
        × (f.new ≡ pick result (mul f.old g.now) f.old) }
{
    if !ring::poly::all_below(f, ring::poly::Q) {
        return false;
    }
    if !ring::poly::all_below(g, ring::poly::Q) {
        return false;
    }
    let a = ring::poly::ntt(*f);
    let b = ring::poly::ntt(*g);
    *f = ring::poly::intt(ring::poly::pointwise(a, b));
    true
}

// A uniform polynomial of a header and a seed, or zero where its draws run out.
#[unsafe(no_mangle)]
pub extern "C" fn bench_sample_q(header: &[u8; 8], seed: &[u8], out: &mut [u64; 512]) -> bool
    ensures { (result ≡ filled (sample_q header.now seed.now)) × (out.new ≡ poly_of (sample_q header.now seed.now)) }
{
    match ring::uniform::sample_q(header, seed) {
        Some(f) => {
            *out = f;
            true
        }
        None => {
            *out = [0; 512];
            false
        }
    }
}

// Polynomial number n of a seed's mask generator, from 0 on. Where it or one before it runs dry it is zero, and the answer is false. One call of
// `fill`, as the unit has it, so that it is compiled as there.
#[unsafe(no_mangle)]
pub extern "C" fn bench_masks(seed: &[u8], n: u32, out: &mut [u64; 512]) -> bool
    ensures { (result ≡ (later masks (n + 1) (mask_start seed.now)).ok)
        × (out.new ≡ mask_poly (later masks n (mask_start seed.now))) }
{
    let m = n as u64 + 1;
    let mut g = sharing::masks::start(seed);
    for _ in 0..m {
        g = sharing::masks::fill(out, g);
    }
    g.ok
}

// CheckBounds of any hint and response under any limits, settled early.
#[unsafe(no_mangle)]
pub extern "C" fn bench_check_bounds(
    hint: &[i64],
    response: &[i64],
    hint_limit: u64,
    binf: u64,
    b22: u64,
) -> Decision
    ensures { result ≡ decided hint_limit binf b22 hint.now response.now }
{
    signature::bounds::check_bounds(hint, response, hint_limit, binf, b22)
}
