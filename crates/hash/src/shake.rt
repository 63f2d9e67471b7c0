// SHAKE256, FIPS 202 sections 4 to 6.2, as start, absorb, finish and squeeze. How many bytes went before is kept by the caller;
// only its rest by the rate of 136 bytes counts, so any number is taken.
ghost use Rattle.std.specs.Prelude.{◌≡◌, ◌++◌, ◌+◌, ◌-◌, ◌*◌, ◌/◌, ◌%◌, ◌<◌, ◌≤◌, get_or, length, drop};
ghost use Rattle.hash.specs.Lists.{table};
ghost use Rattle.hash.specs.Keccak.{keccak_f};
ghost use Rattle.hash.specs.ShakeSteps.{pasted};
ghost use Rattle.hash.specs.Shake.{absorbed, byte_at, xor_byte, absorb_byte, absorb_from, finish, rate, zero_state, after, stream, shake256};

use crate::endian::load;

// b xored into byte k of the state.
fn xor_byte(a: [[u64; 5]; 5], k: usize, b: u8) -> [[u64; 5]; 5]
    requires { k < 200 }
    ensures { result ≡ xor_byte a k b }
{
    let x = k / 8 % 5;
    let y = k / 8 / 5;
    let mut s = a;
    s[y][x] ^= u64::from(b) << (8 * (k % 8));
    s
}

// b absorbed as byte n of the message.
fn absorb_byte(a: [[u64; 5]; 5], n: usize, b: u8) -> [[u64; 5]; 5]
    ensures { result ≡ absorb_byte a n b }
{
    let s = xor_byte(a, n % 136, b);
    if n % 136 == 135 {
        crate::keccak::permute(s)
    } else {
        s
    }
}

// The end of a message of n bytes: 1111 and pad10*1 (6.2, 5.1), and the last permutation. The state then gives the stream.
pub fn finish(a: [[u64; 5]; 5], n: usize) -> [[u64; 5]; 5]
    ensures { result ≡ finish a n }
{
    let k = n % 136;
    crate::keccak::permute(xor_byte(xor_byte(a, k, 0x1f), 135, 0x80))
}

// The state before any byte.
pub fn start() -> [[u64; 5]; 5]
    ensures { result ≡ zero_state }
{
    [[0; 5]; 5]
}

// A block of the stream into out, from the place at.
pub fn put_block(out: &mut [u8], at: usize, a: [[u64; 5]; 5])
    requires { at + 136 ≤ length out.old }
    ensures { out.new ≡ pasted (byte_at a) out.old at 136 }
{
    for i in 0..17 {
        crate::endian::put_word(out, at + 8 * i, a[i / 5][i % 5]);
    }
}

// The block of the stream that the state gives. The next one is given by the permuted state.
pub fn block(a: [[u64; 5]; 5]) -> [u8; 136]
    ensures { result ≡ rate a }
{
    let mut out = [0u8; 136];
    put_block(&mut out, 0, a);
    out
}

// The bytes of m, one by one, where n bytes went before.
fn absorb_bytes(a: [[u64; 5]; 5], n: usize, m: &[u8]) -> [[u64; 5]; 5]
    ensures { result ≡ absorb_from a n m.now }
{
    let mut s = a;
    let mut at = n % 136;
    for b in m {
        let t = absorb_byte(s, at, *b);
        s = t;
        at = if at == 135 { 0 } else { at + 1 };
    }
    s
}

// The first bytes of m, a lane at a time, where n bytes went before: the rest is still to be absorbed.
fn absorb_lanes(a: [[u64; 5]; 5], n: usize, m: &[u8], lanes: usize) -> [[u64; 5]; 5]
    requires { (n % 8 ≡ 0) × (8 * lanes ≤ length m.now) }
    ensures { absorb_from result (n + 8 * lanes) (drop (8 * lanes) m.now) ≡ absorb_from a n m.now }
{
    let mut s = a;
    let mut k = n % 136 / 8;
    for i in 0..lanes {
        let v = load(m, 8 * i, 8);
        let x = k % 5;
        let y = k / 5;
        s[y][x] ^= v;
        k += 1;
        if k == 17 {
            s = crate::keccak::permute(s);
            k = 0;
        }
    }
    s
}

// The bytes of m, where n bytes went before: by lanes where these fill whole lanes.
pub fn absorb(a: [[u64; 5]; 5], n: usize, m: &[u8]) -> [[u64; 5]; 5]
    ensures { result ≡ absorb_from a n m.now }
{
    if n % 8 != 0 {
        return absorb_bytes(a, n, m);
    }
    let lanes = m.len() / 8;
    let s = absorb_lanes(a, n, m, lanes);
    absorb_bytes(s, n % 136 + 8 * lanes % 136, &m[8 * lanes..])
}

// The state that gives the stream of a header and a seed (000, 2.4.3). Seeds of kappa bits, 16, 24 or 32 bytes, fill whole lanes of one block.
pub fn begin(header: &[u8; 8], seed: &[u8]) -> [[u64; 5]; 5]
    ensures { result ≡ absorbed (header.now ++ seed.now) }
{
    finish(absorb(absorb(start(), 0, header), 8, seed), 8 + seed.len())
}

// The stream that the state gives, as much as out holds, and the state that gave its last block: permuted, it gives the next.
pub fn squeeze(a: [[u64; 5]; 5], out: &mut [u8]) -> [[u64; 5]; 5]
    ensures { (out.new ≡ table (stream a) (length out.old))
        × (result ≡ after ((length out.old - 1) / 136) a) }
{
    let before = out.len().saturating_sub(1) / 136;
    let mut s = a;
    for i in 0..before {
        put_block(out, 136 * i, s);
        let t = crate::keccak::permute(s);
        s = t;
    }
    let at = 136 * before;
    let n = out.len() - at;
    out[at..].copy_from_slice(&block(s)[..n]);
    s
}

// SHAKE256 of m, as many bytes as out holds.
pub fn shake256(m: &[u8], out: &mut [u8])
    ensures { out.new ≡ shake256 m.now (length out.old) }
{
    squeeze(finish(absorb(start(), 0, m), m.len()), out);
}

// A digest: the stream's first N bytes.
pub fn digest<const N: usize>(a: [[u64; 5]; 5]) -> [u8; N]
    ensures { result ≡ table (stream a) N }
{
    let mut out = [0u8; N];
    squeeze(a, &mut out);
    out
}
