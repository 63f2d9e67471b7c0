// The byte form of a signature (000, 2.5.1): the challenge hash, the hint's code, the response's code, zero fill.
ghost use Rattle.std.specs.Prelude.{◌≡◌, ◌++◌, ℕ, ◌+◌, ◌-◌, ◌*◌, ◌^◌, ◌<◌, ◌≤◌, pos, nat_abs, length, get_or, drop, replicate};
ghost use Rattle.std.specs.Result.{IfErr, is_ok};
ghost use Rattle.hash.specs.declared.refusal.Refusal.{Refusal};
ghost use Rattle.signature.specs.Bits.{bit_string, chop};
ghost use Rattle.signature.specs.Form.{signature_bits, bit_count, with_fill, read_both};
ghost use Rattle.signature.specs.AnswerSteps.{fields_of, all_zero, ReadOf};

use crate::{bits, code};
use hash::refusal::Refusal;
use ring::poly::copy_into;

// How many bits the fields take, counted without making them.
pub(crate) fn bit_count(hash_bytes: usize, hint: &[i64], response: &[i64]) -> usize
    requires hash_bytes_bound { hash_bytes ≤ 64 }
    requires by_index { (i : ℕ) → nat_abs (get_or hint.now i (pos 0)) < 2 ^ 50 }
    requires hint_len_bound { length hint.now ≤ 4608 }
    requires by_index_2 { (i : ℕ) → nat_abs (get_or response.now i (pos 0)) < 2 ^ 50 }
    requires response_len_bound { length response.now ≤ 4608 }
    ensures { result ≡ signature_bits hash_bytes hint.now response.now }
{
    8 * hash_bytes + (code::codes_bits(0, hint) + code::codes_bits(40, response))
}

// The hash, and zeros behind it.
fn begin(hash: &[u8], out: &mut [u8])
    requires { length hash.now ≤ length out.old }
    ensures { out.new ≡ hash.now ++ replicate (length out.old - length hash.now) 0 }
{
    let n = hash.len();
    copy_into(&mut out[..n], hash);
    out[n..].fill(0);
}

// The fields and zeros behind them, as many as out has room for.
pub(crate) fn write(hash: &[u8], hint: &[i64], response: &[i64], out: &mut [u8])
    requires response_bound { bit_count (fields_of hash.now hint.now response.now) ≤ 8 * length out.old }
    requires out_len_bound { length out.old < 2 ^ 17 }
    ensures { out.new ≡ chop 8 (length out.old)
        (with_fill (fields_of hash.now hint.now response.now) (length out.old)) }
{
    begin(hash, out);
    let at = code::put_codes(out, 8 * hash.len(), hint, 0);
    code::put_codes(out, at, response, 40);
}

// Whether every bit from `at` on is 0, bit by bit, for the last bytes.
fn rest_zero(buf: &[u8], at: usize) -> bool
    requires { length buf.now < 2 ^ 17 }
    ensures { result ≡ all_zero (drop at (bit_string 8 buf.now)) }
{
    (at..buf.len() * 8).all(|k| bits::get_bit(buf, k) == 0)
}

// Whether every bit from `at` on is 0.
fn all_zero(buf: &[u8], at: usize) -> bool
    requires { length buf.now < 2 ^ 17 }
    ensures { result ≡ all_zero (drop at (bit_string 8 buf.now)) }
{
    let end = buf.len() * 8;
    if end < at {
        return true;
    }
    let words = (end - at) / 56;
    for i in 0..words {
        if bits::get_bits(buf, at + 56 * i, 56) != 0 {
            return false;
        }
    }
    rest_zero(buf, at + 56 * words)
}

// Reads hint and response behind the hash, or check 14: they cannot be read, or a bit behind them is not 0.
pub(crate) fn read(
    sig: &[u8],
    hash_bytes: usize,
    hint: &mut [i64],
    response: &mut [i64],
) -> Result<(), Refusal>
    requires hash_bytes_in_bounds { hash_bytes ≤ length sig.now }
    requires sig_len_bound { length sig.now < 2 ^ 17 }
    ensures refused { IfErr result (λ refusal. refusal ≡ Refusal.BadSignatureForm) }
    ensures value { ReadOf
        (read_both (length hint.old) (length response.old) (drop (8 * hash_bytes) (bit_string 8 sig.now)))
        (drop (8 * hash_bytes) (bit_string 8 sig.now)) (is_ok result) hint.new response.new }
{
    let a = code::get_codes(sig, 8 * hash_bytes, 0, hint).ok_or(Refusal::BadSignatureForm)?;
    let b = code::get_codes(sig, a, 40, response).ok_or(Refusal::BadSignatureForm)?;
    if !all_zero(sig, b) {
        return Err(Refusal::BadSignatureForm);
    }
    Ok(())
}
