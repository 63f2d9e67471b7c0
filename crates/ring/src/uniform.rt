// Uniform polynomials: Algorithm 5 of paper 000, SampleQ, over the SHAKE256 stream of a header and a seed, and over lent bytes.
ghost use Rattle.std.specs.Prelude.{◌≡◌, ◌*◌, ◌≤◌, length, IfSome};
ghost use Rattle.hash.specs.Refusal.{status_of, unless};
ghost use Rattle.hash.specs.declared.refusal.Refusal.{Refusal};
ghost use Rattle.ring.specs.Words.{Words};
ghost use Rattle.ring.specs.Checks.{filled};
ghost use Rattle.ring.specs.Uniform.{sampled_of, sample_q};
ghost use Rattle.ring.specs.UniformSteps.{Gathered, option_of, poly_of};

use crate::poly::Q;
use hash::refusal::Refusal;

// Draws 0 to n - 1 of b: those below q go into a from the place k on, until its 512 places are full. The new k.
fn gather(b: &[u8], n: usize, a: &mut [u64], k: usize) -> usize
    requires { (7 * n ≤ length b.now) × (length a.old ≡ 512) × (k ≤ 512) }
    ensures { Gathered b.now n a.old k a.new result }
{
    let mut at = k;
    for i in 0..n {
        if at == 512 {
            return at;
        }
        let d = hash::endian::load(b, 7 * i, 7) % 0x2_0000_0000_0000;
        if d < Q {
            a[at] = d;
            at += 1;
        }
    }
    at
}

// The polynomial of lent bytes (01, "Streams and shares"). Refusals: out is no 512 words; fewer than 512 of at most 777 draws are kept. Then
// out is as it was.
pub fn sample_uniform(bytes: &[u8], out: &mut [u64]) -> Result<(), Refusal>
    ensures { (status_of result, out.new) ≡ sampled_of bytes.now out.old }
{
    if out.len() != 512 {
        return Err(Refusal::BadBuffer);
    }
    let mut a = [0u64; 512];
    let k = gather(bytes, (bytes.len() / 7).min(777), &mut a, 0);
    if k != 512 {
        return Err(Refusal::UniformNotFilled);
    }
    out.copy_from_slice(&a);
    Ok(())
}

// SampleQ (000, Algorithm 5) into out, which is zero where the draws do not fill it. A refill is seven blocks, 136 draws, so that no draw crosses
// two of them; 777 draws are five and 97 more.
pub fn sample_q_into(header: &[u8; 8], seed: &[u8], out: &mut [u64]) -> Result<(), Refusal>
    requires { length out.old ≡ 512 }
    ensures { (result ≡ unless Refusal.UniformNotFilled (filled (sample_q header.now seed.now)))
        × (out.new ≡ poly_of (sample_q header.now seed.now)) × Words 512 out.new }
{
    let mut s = hash::shake::begin(header, seed);
    let mut bytes = [0u8; 952];
    let mut k: usize = 0;
    for i in 0..6usize {
        let last = hash::shake::squeeze(s, &mut bytes);
        k = gather(&bytes, (777 - 136 * i).min(136), out, k);
        if k == 512 {
            return Ok(());
        }
        let next = hash::keccak::permute(last);
        s = next;
    }
    out.fill(0);
    Err(Refusal::UniformNotFilled)
}

// .. by value.
pub fn sample_q(header: &[u8; 8], seed: &[u8]) -> Option<[u64; 512]>
    ensures value { result ≡ option_of (sample_q header.now seed.now) }
    ensures words { IfSome result (λ f. Words 512 f) }
{
    let mut a = [0u64; 512];
    sample_q_into(header, seed, &mut a).ok()?;
    Some(a)
}
