// Bits of byte strings, the lowest bit of each byte first (000, 2.4.1).
ghost use Rattle.std.specs.Prelude.{◌≡◌, ◌+◌, ◌*◌, ◌%◌, ◌^◌, ◌<◌, ◌≤◌, length, get_or, set, take, drop, replicate};
ghost use Rattle.std.proofs.lemmas.List.Edits.{sets};
ghost use Rattle.signature.specs.Bits.{bits_of, val_of, bit_string, repack};

// The w lowest bits of x, as a number.
pub(crate) fn low(x: u64, w: usize) -> u64
    requires { w < 64 }
    ensures { result ≡ x % 2 ^ w }
{
    x & ((1 << w) - 1)
}

// Bit `at`.
pub(crate) fn get_bit(buf: &[u8], at: usize) -> u64
    requires { at < length buf.now * 8 }
    ensures value { result ≡ get_or (bit_string 8 buf.now) at 0 }
    ensures upper_bound { result < 2 }
{
    (u64::from(buf[at / 8]) >> (at % 8)) % 2
}

// Stores the bit b at `at`.
pub(crate) fn put_bit(buf: &mut [u8], at: usize, b: u64)
    requires at_in_bounds { at < length buf.old * 8 }
    requires b_bound { b < 2 }
    ensures { bit_string 8 buf.new ≡ set (bit_string 8 buf.old) at b }
{
    let i = at / 8;
    let k = at % 8;
    let x = buf[i];
    if u64::from(x >> k) % 2 != b {
        buf[i] = x ^ (1u8 << k);
    }
}

// The number of the 64 bits from byte i on, of fewer near the end.
fn word_at(buf: &[u8], i: usize) -> u64
    requires { i ≤ length buf.now }
    ensures { result ≡ val_of (take 64 (drop (i * 8) (bit_string 8 buf.now))) }
{
    let n = buf.len() - i;
    if n < 8 {
        return hash::endian::load(buf, i, n);
    }
    hash::endian::load(buf, i, 8)
}

// The number of w bits from `at` on.
pub(crate) fn get_bits(buf: &[u8], at: usize, w: usize) -> u64
    requires w_in_bounds { at + w ≤ length buf.now * 8 }
    requires w_bound { w ≤ 56 }
    ensures value { result ≡ val_of (take w (drop at (bit_string 8 buf.now))) }
    ensures upper_bound { result < 2 ^ w }
{
    low(word_at(buf, at / 8) >> (at % 8), w)
}

// Bit by bit, for the last bytes.
fn put_slow(buf: &mut [u8], at: usize, v: u64, w: usize)
    requires w_in_bounds { at + w ≤ length buf.old * 8 }
    requires buf_len_bound { length buf.old < 2 ^ 32 }
    requires w_bound { w ≤ 64 }
    ensures { bit_string 8 buf.new ≡ sets (bit_string 8 buf.old) at (bits_of w v) }
{
    for k in 0..w {
        put_bit(buf, at + k, (v >> k) % 2);
    }
}

// x with the w lowest bits of v in place of its bits from k on.
fn spliced(x: u64, v: u64, k: usize, w: usize) -> u64
    requires { k + w < 64 }
    ensures { bits_of 64 result ≡ sets (bits_of 64 x) k (bits_of w v) }
{
    let above = x >> (k + w) << (k + w);
    low(x, k) + (low(v, w) << k) + above
}

// Stores the w lowest bits of v from `at` on.
pub(crate) fn put_bits(buf: &mut [u8], at: usize, v: u64, w: usize)
    requires w_in_bounds { at + w ≤ length buf.old * 8 }
    requires buf_len_bound { length buf.old < 2 ^ 32 }
    requires w_bound { w ≤ 56 }
    ensures { bit_string 8 buf.new ≡ sets (bit_string 8 buf.old) at (bits_of w v) }
{
    let i = at / 8;
    if i + 8 <= buf.len() {
        let x = hash::endian::load(buf, i, 8);
        hash::endian::put_word(buf, i, spliced(x, v, at % 8, w));
    } else {
        put_slow(buf, at, v, w);
    }
}

// Stores n bits b from `at` on.
pub(crate) fn put_run(buf: &mut [u8], at: usize, b: u64, n: usize)
    requires n_in_bounds { at + n ≤ length buf.old * 8 }
    requires buf_len_bound { length buf.old < 2 ^ 32 }
    requires b_bound { b < 2 }
    ensures { bit_string 8 buf.new ≡ sets (bit_string 8 buf.old) at (replicate n b) }
{
    for k in 0..n {
        put_bit(buf, at + k, b);
    }
}

// Packs numbers of w bits each into bytes: `acc` holds the `have` bits that no byte from j on has yet.
pub(crate) fn pack(words: &[u64], w: usize, out: &mut [u8])
    requires w_len { length words.now * w ≡ length out.old * 8 }
    requires out_len_bound { length out.old < 2 ^ 32 }
    requires w_bound { w ≤ 56 }
    ensures { out.new ≡ repack w 8 (length out.old) words.now }
{
    let mut acc: u64 = 0;
    let mut have: usize = 0;
    let mut j: usize = 0;
    for &word in words {
        let x = low(word, w);
        if have + w < 64 {
            acc += x << have;
            have += w;
            continue;
        }
        let t = 64 - have;
        hash::endian::put_word(out, j, acc + (low(x, t) << have));
        acc = x >> t;
        have = w - t;
        j += 8;
    }
    put_slow(out, j * 8, acc, have);
}

// Unpacks numbers of w bits each.
pub(crate) fn unpack(bytes: &[u8], w: usize, out: &mut [u64])
    requires w_len { length out.old * w ≡ length bytes.now * 8 }
    requires bytes_len_bound { length bytes.now < 2 ^ 32 }
    requires w_bound { w ≤ 56 }
    ensures { out.new ≡ repack 8 w (length out.old) bytes.now }
{
    for (i, x) in out.iter_mut().enumerate() {
        *x = get_bits(bytes, i * w, w);
    }
}
