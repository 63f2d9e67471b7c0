// The coefficients of a signature as bits (000, 2.5.1): w low bits, the rest in ones, a stop bit, a sign. Hint: w is 0; response: w is 40.
ghost use Rattle.std.specs.Prelude.{◌≡◌, ℕ, min, ◌+◌, ◌*◌, ◌^◌, ◌<◌, ◌≤◌, pos, nat_abs, length, get_or, take, drop, leb};
ghost use Rattle.std.specs.Int.Count.{count_trailing_zeros};
ghost use Rattle.std.proofs.lemmas.List.Edits.{sets};
ghost use Rattle.hash.specs.Lists.{pick};
ghost use Rattle.signature.specs.Bits.{bits_of, val_of, bit_string};
ghost use Rattle.signature.specs.Code.{code_of, code, codes, code_bits, codes_bits, run_of, read_code, read_codes};
ghost use Rattle.signature.specs.AnswerSteps.{got_of, NextOf};

use crate::{bits, int};

// How many bits the code of z takes, for any z, the smallest too.
pub fn code_bits(w: usize, z: i64) -> usize
    requires { w ≤ 40 }
    ensures { result ≡ code_bits w z }
{
    let m = z.unsigned_abs();
    if m == 0 {
        return w + 1;
    }
    w + (m >> w) as usize + 2
}

// How many bits the codes of numbers take.
pub(crate) fn codes_bits(w: usize, zs: &[i64]) -> usize
    requires by_index { (i : ℕ) → nat_abs (get_or zs.now i (pos 0)) < 2 ^ 50 }
    requires zs_len_bound { length zs.now ≤ 4608 }
    requires w_bound { w ≤ 40 }
    ensures value { result ≡ codes_bits w zs.now }
    ensures upper_bound { result ≤ 4608 * (2 ^ 50 + 64) }
{
    let mut n: usize = 0;
    for &z in zs {
        n += code_bits(w, z);
    }
    n
}

// Writes the number with absolute value m and sign s from bit `at` on, and returns the place behind it.
fn put_mag(buf: &mut [u8], at: usize, m: u64, s: u64, w: usize) -> usize
    requires s_in_bounds { at + length (code_of w m s) ≤ length buf.old * 8 }
    requires buf_len_bound { length buf.old < 2 ^ 17 }
    requires w_bound { w ≤ 40 }
    requires s_bound { s < 2 }
    ensures value { result ≡ at + length (code_of w m s) }
    ensures buf_after { bit_string 8 buf.new ≡ sets (bit_string 8 buf.old) at (code_of w m s) }
{
    let n = (m >> w) as usize;
    bits::put_bits(buf, at, m, w);
    let a = at + w;
    bits::put_run(buf, a, 1, n);
    let b = a + n;
    bits::put_bit(buf, b, 0);
    if m == 0 {
        return b + 1;
    }
    bits::put_bit(buf, b + 1, s);
    b + 2
}

// Writes z from bit `at` on, and returns the place behind it.
pub(crate) fn put_code(buf: &mut [u8], at: usize, z: i64, w: usize) -> usize
    requires z_in_bounds { at + length (code w z) ≤ length buf.old * 8 }
    requires buf_len_bound { length buf.old < 2 ^ 17 }
    requires w_bound { w ≤ 40 }
    ensures value { result ≡ at + length (code w z) }
    ensures buf_after { bit_string 8 buf.new ≡ sets (bit_string 8 buf.old) at (code w z) }
{
    put_mag(buf, at, z.unsigned_abs(), int::sign(z), w)
}

// The code of z as one number, its first bit the lowest.
fn code_word(z: i64, w: usize) -> u64
    requires z_bound { code_bits w z ≤ 56 }
    requires w_bound { w ≤ 40 }
    ensures { result ≡ val_of (code w z) }
{
    let m = z.unsigned_abs();
    let n = (m >> w) as usize;
    let ones = (1 << n) - 1;
    bits::low(m, w) + (ones << w) + (int::sign(z) << (w + n + 1))
}

// Writes numbers from bit `at` on, and returns the place behind them. `held` has the `have` bits before that place that are not stored yet.
pub(crate) fn put_codes(buf: &mut [u8], at: usize, zs: &[i64], w: usize) -> usize
    requires zs_in_bounds { at + length (codes w zs.now) ≤ length buf.old * 8 }
    requires buf_len_bound { length buf.old < 2 ^ 17 }
    requires w_bound { w ≤ 40 }
    ensures value { result ≡ at + length (codes w zs.now) }
    ensures buf_after { bit_string 8 buf.new ≡ sets (bit_string 8 buf.old) at (codes w zs.now) }
{
    let mut p = at;
    let mut held: u64 = 0;
    let mut have: usize = 0;
    for &z in zs {
        let n = code_bits(w, z);
        if have + n <= 56 {
            held += code_word(z, w) << have;
            have += n;
            continue;
        }
        bits::put_bits(buf, p, held, have);
        p += have;
        if n <= 56 {
            held = code_word(z, w);
            have = n;
            continue;
        }
        p = put_code(buf, p, z, w);
        held = 0;
        have = 0;
    }
    bits::put_bits(buf, p, held, have);
    p + have
}

// How many ones there are from bit `at` on.
fn run(buf: &[u8], at: usize) -> usize
    requires at_in_bounds { at ≤ length buf.now * 8 }
    requires buf_len_bound { length buf.now < 2 ^ 17 }
    ensures value { result ≡ run_of (drop at (bit_string 8 buf.now)) }
    ensures result_in_bounds { at + result ≤ length buf.now * 8 }
{
    let end = buf.len() * 8 - at;
    for n in 0..end {
        if bits::get_bit(buf, at + n) == 0 {
            return n;
        }
    }
    end
}

// The number that the bits from `at` on begin with, and the place behind it; None for too few bits.
pub(crate) fn get_code(buf: &[u8], at: usize, w: usize) -> Option<(i64, usize)>
    requires at_in_bounds { at ≤ length buf.now * 8 }
    requires buf_len_bound { length buf.now < 2 ^ 17 }
    requires w_bound { w ≤ 40 }
    ensures { result ≡ got_of at (read_code w (drop at (bit_string 8 buf.now))) }
{
    let end = buf.len() * 8;
    let a = at + w;
    if end < a {
        return None;
    }
    let n = run(buf, a);
    let b = a + n;
    if end <= b {
        return None;
    }
    let low = bits::get_bits(buf, at, w);
    let m = low + ((n as u64) << w);
    if m == 0 {
        return Some((0, b + 1));
    }
    if end <= b + 1 {
        return None;
    }
    let s = bits::get_bit(buf, b + 1);
    Some((int::signed(m, s), b + 2))
}

// How many ones x has below its lowest zero.
fn run_in(x: u64) -> usize
    requires { x < 2 ^ 56 }
    ensures value { result ≡ run_of (bits_of 64 x) }
    ensures upper_bound { result ≤ 56 }
{
    (!x).trailing_zeros() as usize
}

// How many zeros x has below its lowest one, no more than 56.
fn zeros_in(x: u64) -> usize
    ensures { result ≡ min 56 (count_trailing_zeros 64 x) }
{
    (x.trailing_zeros() as usize).min(56)
}

// The number of the 56 bits from `at` on, or 0 where fewer are left.
fn word_from(buf: &[u8], at: usize) -> u64
    requires at_bound { at < 2 ^ 32 }
    requires buf_len_bound { length buf.now < 2 ^ 17 }
    ensures value { result ≡ pick (leb (at + 56) (length buf.now * 8)) (val_of (take 56 (drop at (bit_string 8 buf.now)))) 0 }
    ensures upper_bound { result < 2 ^ 56 }
{
    if buf.len() * 8 < at + 56 {
        return 0;
    }
    bits::get_bits(buf, at, 56)
}

// The absolute value of w low bits from `at` on and n ones, or 0 where there are fewer than w bits.
fn mag_from(buf: &[u8], at: usize, w: usize, n: usize) -> u64
    requires at_bound { at < 2 ^ 32 }
    requires buf_len_bound { length buf.now < 2 ^ 17 }
    requires w_bound { w ≤ 40 }
    requires n_bound { n ≤ 56 }
    ensures value { result ≡ pick (leb (at + w) (length buf.now * 8)) (val_of (take w (drop at (bit_string 8 buf.now))) + n * 2 ^ w) 0 }
    ensures upper_bound { result < 2 ^ 63 }
{
    if buf.len() * 8 < at + w {
        return 0;
    }
    bits::get_bits(buf, at, w) + ((n as u64) << w)
}

// Reads numbers from bit `at` on, two at a time where a word has the run of each: the second word is loaded before the first run is known.
// The place behind them, or None for too few bits.
fn get_wide(buf: &[u8], at: usize, w: usize, out: &mut [i64]) -> Option<usize>
    requires at_in_bounds { at ≤ length buf.now * 8 }
    requires buf_len_bound { length buf.now < 2 ^ 17 }
    requires w_bound { w ≤ 40 }
    ensures { NextOf at (read_codes w (length out.old) (drop at (bit_string 8 buf.now))) result out.new }
{
    let mut k = at;
    let mut i: usize = 0;
    while i < out.len() {
        let x = word_from(buf, k + w);
        let y = word_from(buf, k + w + w + 2);
        let a = run_in(x);
        let b = run_in(y >> a);
        let p = k + w + a + 2;
        let m = mag_from(buf, k, w, a);
        let n = mag_from(buf, p, w, b);
        if (y != 0) & (a + b <= 54) & (1 < out.len() - i) & (m != 0) & (n != 0) {
            out[i] = int::signed(m, (x >> (a + 1)) % 2);
            out[i + 1] = int::signed(n, (y >> (a + b + 1)) % 2);
            k = p + w + b + 2;
            i += 2;
            continue;
        }
        let (z, next) = get_code(buf, k, w)?;
        out[i] = z;
        k = next;
        i += 1;
    }
    Some(k)
}

// Reads numbers with no low bits (w is 0) from bit `at` on: a 0 is one bit 0, so that a word shows at once how many there are before the next number.
fn get_small(buf: &[u8], at: usize, out: &mut [i64]) -> Option<usize>
    requires at_in_bounds { at ≤ length buf.now * 8 }
    requires buf_len_bound { length buf.now < 2 ^ 17 }
    ensures { NextOf at (read_codes 0 (length out.old) (drop at (bit_string 8 buf.now))) result out.new }
{
    out.fill(0);
    let mut k = at;
    let mut i: usize = 0;
    while i < out.len() {
        let x = word_from(buf, k);
        let a = zeros_in(x);
        let b = run_in(x >> a);
        if (0 < b) & (a + b <= 54) & (a < out.len() - i) {
            i += a;
            out[i] = int::signed(b as u64, (x >> (a + b + 1)) % 2);
            i += 1;
            k += a + b + 2;
            continue;
        }
        let (z, next) = get_code(buf, k, 0)?;
        out[i] = z;
        k = next;
        i += 1;
    }
    Some(k)
}

// Reads numbers from bit `at` on: the place behind them, or None for too few bits.
pub(crate) fn get_codes(buf: &[u8], at: usize, w: usize, out: &mut [i64]) -> Option<usize>
    requires at_in_bounds { at ≤ length buf.now * 8 }
    requires buf_len_bound { length buf.now < 2 ^ 17 }
    requires w_bound { w ≤ 40 }
    ensures { NextOf at (read_codes w (length out.old) (drop at (bit_string 8 buf.now))) result out.new }
{
    if w == 0 {
        return get_small(buf, at, out);
    }
    get_wide(buf, at, w, out)
}
