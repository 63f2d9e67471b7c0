// The challenge (000, Algorithms 9 and 10; 01, "Streams and shares"): the hash of the rounded commitment and of mu, and the polynomial of
// omega coefficients 1 or -1, of a SHAKE256 stream and of lent bytes.
ghost use Rattle.std.specs.Prelude.{◌≡◌, ◌++◌, ◌+◌, ◌*◌, ◌/◌, ◌%◌, ◌^◌, ◌<◌, length, get_or, set};
ghost use Rattle.std.specs.Int.Bits.{bit_or};
ghost use Rattle.hash.specs.Lists.{table};
ghost use Rattle.hash.specs.Refusal.{status_of};
ghost use Rattle.hash.specs.Shake.{stream, shake256};
ghost use Rattle.ring.specs.UniformSteps.{option_of};
ghost use Rattle.signature.specs.Challenge.{chal_draw, place, minus_bit, sign, challenge, ordered, sampled_challenge, headed};
ghost use Rattle.signature.specs.ChallengeSteps.{bit_at, ones_of, block_of, bytes_of, draws_of, next_of, behind};

use hash::params::{Edition, lookup};
use hash::refusal::Refusal;

// What a challenge is drawn from: the stream that the state gives, its next block first, or lent bytes.
#[derive(Clone, Copy)]
pub(crate) enum Source<'a> {
    Stream([[u64; 5]; 5]),
    Lent(&'a [u8]),
}

// Draw number n of a block.
fn draw_at(b: [u8; 136], n: usize) -> u64
    requires { n < 68 }
    ensures { result ≡ chal_draw b n }
{
    u64::from(b[n * 2]) + u64::from(b[n * 2 + 1]) * 256
}

fn position(d: u64) -> usize
    ensures value { result ≡ place d }
    ensures upper_bound { result < 512 }
{
    (d / 2 % 512) as usize
}

// The lowest bit that means -1.
fn minus_bit(edition: Edition) -> u64
    ensures { result ≡ minus_bit edition }
{
    match edition {
        Edition::Printed => 1,
        Edition::Kat => 0,
    }
}

fn sign_of(edition: Edition, d: u64) -> i8
    ensures { result ≡ sign edition d }
{
    if d % 2 == minus_bit(edition) { -1 } else { 1 }
}

// Bit p of the map of taken positions.
fn taken(map: [u64; 8], p: usize) -> u64
    requires { p < 512 }
    ensures { result ≡ bit_at map p }
{
    (map[p / 64] >> (p % 64)) % 2
}

// The map with bit p set.
fn mark(map: [u64; 8], p: usize) -> [u64; 8]
    requires { p < 512 }
    ensures { result ≡ set map (p / 64) (bit_or (get_or map (p / 64) 0) (2 ^ (p % 64))) }
{
    let mut m = map;
    m[p / 64] |= 1u64 << (p % 64);
    m
}

// How many positions are taken.
fn count(map: [u64; 8]) -> u32
    ensures { result ≡ ones_of map }
{
    map.iter().map(|x| x.count_ones()).sum()
}

// Block number i of 136 bytes, 68 draws: of a stream the next one, of lent bytes with 0 behind their end.
fn block_of(source: Source, i: usize) -> [u8; 136]
    requires { i < 16 }
    ensures { result ≡ block_of source.entry i }
{
    match source {
        Source::Stream(s) => hash::shake::block(s),
        Source::Lent(bytes) => lent_block(bytes, i),
    }
}

fn lent_block(bytes: &[u8], i: usize) -> [u8; 136]
    requires { i < 16 }
    ensures { result ≡ table (λ j. get_or bytes.now (i * 136 + j) 0) 136 }
{
    let mut b = [0u8; 136];
    for j in 0..136 {
        b[j] = bytes.get(i * 136 + j).copied().unwrap_or(0);
    }
    b
}

// The source behind a block.
fn next_of<'a>(source: Source<'a>) -> Source<'a>
    ensures { result ≡ next_of source.entry }
{
    match source {
        Source::Stream(s) => Source::Stream(hash::keccak::permute(s)),
        Source::Lent(bytes) => Source::Lent(bytes),
    }
}

// How many draws there are: 1,088 of a stream, and no more of lent bytes.
fn draws_of(source: Source) -> usize
    ensures { result ≡ draws_of source.entry }
{
    match source {
        Source::Stream(_) => 1088,
        Source::Lent(bytes) => (bytes.len() / 2).min(1088),
    }
}

// Algorithm 10 over a stream or over lent bytes. A block is squeezed only where the one before is used up.
fn fill(omega: u32, edition: Edition, source: Source) -> Option<[i8; 512]>
    ensures { result ≡ option_of (challenge edition omega (bytes_of source.entry)) }
{
    let n = draws_of(source);
    let mut s = source;
    let mut map = [0u64; 8];
    let mut c = [0i8; 512];
    'blocks: for block in 0..n.div_ceil(68) {
        let b = block_of(s, block);
        let m = (n - block * 68).min(68);
        for j in 0..m {
            if count(map) == omega {
                break 'blocks;
            }
            let d = draw_at(b, j);
            let p = position(d);
            if taken(map, p) != 0 {
                continue;
            }
            let next = mark(map, p);
            map = next;
            c[p] = sign_of(edition, d);
        }
        let t = next_of(s);
        s = t;
    }
    if count(map) != omega {
        return None;
    }
    Some(c)
}

// The challenge polynomial of lent bytes, the printed way; or check 1 where set is none of the three, 8 where out is no 512 coefficients,
// 11 where the draws do not take omega positions. Then out is as it was.
pub fn sample_challenge(set: u64, bytes: &[u8], out: &mut [i8]) -> Result<(), Refusal>
    ensures { (status_of result, out.new) ≡ sampled_challenge set bytes.now out.old }
{
    let p = lookup(set, 1, Edition::Printed)?;
    if out.len() != 512 {
        return Err(Refusal::BadBuffer);
    }
    let edition = p.edition;
    let c = fill(p.omega as u32, edition, Source::Lent(bytes)).ok_or(Refusal::ChallengeNotFilled)?;
    out.copy_from_slice(&c);
    Ok(())
}

// Algorithm 10, ChalPoly: of the challenge hash.
pub(crate) fn chal_poly(omega: usize, edition: Edition, hash: &[u8]) -> Option<[i8; 512]>
    requires { omega < 256 }
    ensures { result ≡ option_of (challenge edition omega (shake256 (headed 99 omega ++ hash.now) 2176)) }
{
    let header = [99, omega as u8, 0, 0, 0, 0, 0, 0];
    let s = hash::shake::begin(&header, hash);
    fill(omega as u32, edition, Source::Stream(s))
}

// The hash of a and b behind the n bytes that the state s absorbed.
fn hash_behind(s: [[u64; 5]; 5], n: usize, a: &[u8], b: &[u8], out: &mut [u8])
    requires { n < 136 }
    ensures { out.new ≡ table (stream (behind s n a.now b.now)) (length out.old) }
{
    let k = n + a.len() % 136;
    let t = hash::shake::absorb(hash::shake::absorb(s, n, a), k, b);
    hash::shake::squeeze(hash::shake::finish(t, k + b.len() % 136), out);
}

// SHAKE256 of a and b, as many bytes as out holds.
pub(crate) fn hash_two(a: &[u8], b: &[u8], out: &mut [u8])
    ensures { out.new ≡ shake256 (a.now ++ b.now) (length out.old) }
{
    hash_behind(hash::shake::start(), 0, a, b, out);
}

// Algorithm 9, ChalHash: of the rounded commitment w, a byte for each coefficient of its k polynomials, and mu, in the edition's order.
pub(crate) fn chal_hash(k: usize, edition: Edition, w: &[u8], mu: &[u8], out: &mut [u8])
    requires { k < 256 }
    ensures { out.new
        ≡ shake256 (headed 104 k ++ ordered edition w.now mu.now) (length out.old) }
{
    let header = [104, k as u8, 0, 0, 0, 0, 0, 0];
    let s = hash::shake::absorb(hash::shake::start(), 0, &header);
    match edition {
        Edition::Printed => hash_behind(s, 8, w, mu, out),
        Edition::Kat => hash_behind(s, 8, mu, w, out),
    }
}
