// Verifying (000, Algorithm 3; 01: checks 1, 3, 4, 9, 13, 14, 15, 10, 11, 16). Nothing is written but local arrays.
ghost use Rattle.std.specs.Prelude.{◌≡◌, Ok, OnOk, List, ℕ, ◌*◌, ◌^◌, ◌≤◌, ◌<◌, pos, nat_abs, length, get_or};
ghost use Rattle.std.proofs.Math.Option.{some};
ghost use Rattle.hash.specs.Refusal.{status_of, unless};
ghost use Rattle.hash.specs.declared.refusal.Refusal.{Refusal};
ghost use Rattle.ring.specs.Words.{q, Below, Residues};
ghost use Rattle.ring.specs.Transform.{ntt};
ghost use Rattle.ring.specs.Rns.{words_of};
ghost use Rattle.ring.specs.Round.{residues};
ghost use Rattle.signature.specs.AnswerSteps.{fields_of};
ghost use Rattle.signature.specs.Checks.{first_no, same_bytes};
ghost use Rattle.signature.specs.Digest.{key_hash, bound_to};
ghost use Rattle.signature.specs.Form.{hash_bytes};
ghost use Rattle.signature.specs.Keys.{vk_seed, vk_vector};
ghost use Rattle.signature.specs.MaskedSteps.{transformed};
ghost use Rattle.signature.specs.Matrix.{matrix, matrix_of, filled};
ghost use Rattle.signature.specs.Recover.{recovered, adjusted};
ghost use Rattle.signature.specs.RecoverSteps.{adjusted_rows};
ghost use Rattle.signature.specs.Verify.{hash_checks, verify_checks, verify_call};
ghost use Rattle.signature.specs.VerifySteps.{form_checks};

use crate::bits::unpack;
use crate::bounds::check_bounds;
use crate::challenge::{chal_hash, chal_poly, hash_two};
use crate::form::read;
use crate::keycheck::public_key_good;
use crate::matrix::expand_row;
use crate::recover::recover_row;
use crate::residues::{adjust, residues_into};
use crate::row::{Row, find};
use hash::params::Edition;
use hash::refusal::Refusal;
use hash::shake::shake256;
use ring::poly::{Q, from_signed, round};
use ring::rns::ntt_residues;
use sharing::region::load;

// Lines 6 and 7, row by row: the bytes of w' = y + h; z and c are transformed and left in residues. Or check 10.
fn adjust_rows(
    z: &[u64],
    seed: &[u8],
    k: usize,
    l: usize,
    c: &[u64],
    t: &[u64],
    hint: &[i64],
    w: &mut [u8],
) -> Result<(), Refusal>
    requires l_in_bounds { (l * 512 ≤ length z.now) × Below (2 ^ 60) z.now × (k ≤ 9) × (l ≤ 7) × Residues (2 ^ 60) 512 c.now }
    requires t_len { (length t.now ≡ k * 512) × Below 125 t.now × (length hint.now ≡ k * 512) × (length w.old ≡ k * 512) }
    requires by_index { (i : ℕ) → i < length hint.now → nat_abs (get_or hint.now i (pos 0)) < 31 }
    ensures value { result ≡ unless Refusal.UniformNotFilled (filled (matrix_of k l seed.now)) }
    ensures w_after { OnOk result
        (w.new ≡ adjusted_rows k l seed.now (words_of z.now) (words_of c.now) t.now hint.now) }
{
    let mut a = [0u64; 3584];
    for i in 0..k {
        let b = i * 512;
        let e = b + 512;
        expand_row(&mut a, 0, seed, i, l)?;
        let y = round::<44, 31>(recover_row(&a, 0, z, l, c, load(t, b)));
        adjust(y, &hint[b..e], &mut w[b..e]);
    }
    Ok(())
}

// A polynomial of z, transformed and left in residues.
fn place_poly(z: &[i64], out: &mut [u64])
    requires z_len { (length z.now ≡ 512) × (length out.old ≡ 512) }
    requires by_index { (i : ℕ) → i < length z.now → nat_abs (get_or z.now i (pos 0)) < q }
    ensures { (words_of out.new ≡ ntt (residues q z.now)) × Residues (2 ^ 60) 512 out.new }
{
    residues_into(z, Q, out);
    ntt_residues(out);
}

// .. all l of them.
fn place(z: &[i64], l: usize, out: &mut [u64])
    requires z_len { (length z.now ≡ l * 512) × (length out.old ≡ l * 512) × Below (2 ^ 60) out.old }
    requires by_index { (i : ℕ) → i < length z.now → nat_abs (get_or z.now i (pos 0)) < q }
    ensures { (words_of out.new ≡ transformed l (residues q z.now))
        × (length out.new ≡ length out.old) × Below (2 ^ 60) out.new }
{
    for i in 0..l {
        let b = i * 512;
        let e = b + 512;
        place_poly(&z[b..e], &mut out[b..e]);
    }
}

// Lines 4 to 7: the bytes of w', of the matrix, t, the fields and the challenge polynomial. Or check 10.
fn recompute(
    row: Row,
    vk: &[u8],
    hint: &[i64],
    z: &[i64],
    c: [i8; 512],
    w: &mut [u8],
) -> Result<(), Refusal>
    requires vk_len { (length vk.now ≡ row.p.vk_bytes) × Below 125 (vk_vector row.p vk.now) }
    requires hint_len { (length hint.now ≡ row.p.k * 512) × (length z.now ≡ row.p.l * 512) × (length w.old ≡ row.p.k * 512) }
    requires by_index { (i : ℕ) → i < length hint.now → nat_abs (get_or hint.now i (pos 0)) < 31 }
    requires by_index_2 { (i : ℕ) → i < length z.now → nat_abs (get_or z.now i (pos 0)) < q }
    ensures value { result ≡ unless Refusal.UniformNotFilled (filled (matrix row.p (vk_seed row.p vk.now))) }
    ensures by_index_3 { (A : List ℕ)
        → matrix row.p (vk_seed row.p vk.now) ≡ some A
        → w.new
        ≡ adjusted (recovered row.p A (residues q z.now) (residues q c) (vk_vector row.p vk.now)) hint.now }
{
    let p = row.p;
    let k = p.k;
    let l = p.l;
    let n = p.kappa / 8;
    let m = k * 512;
    let f = l * 512;
    let e = n + k * 448;
    let mut t = [0u64; 4608];
    let mut s = [0u64; 3584];
    unpack(&vk[n..e], 7, &mut t[0..m]);
    place(z, l, &mut s[0..f]);
    let mut x = from_signed(c);
    ntt_residues(&mut x);
    adjust_rows(&s[0..f], &vk[0..n], k, l, &x, &t[0..m], hint, w)
}

// mu = H(H(vk) || msg) (line 3); out has the bytes of a hash.
fn bind(vk: &[u8], msg: &[u8], out: &mut [u8])
    requires { length out.old ≤ 64 }
    ensures { out.new
        ≡ bound_to (length out.old) (key_hash (length out.old) vk.now) msg.now }
{
    let n = out.len();
    let mut h = [0u8; 64];
    shake256(vk, &mut h[0..n]);
    hash_two(&h[0..n], msg, out);
}

// Whether a and b are the same bytes (line 9).
pub fn same_bytes(a: &[u8], b: &[u8]) -> bool
    ensures { result ≡ same_bytes a.now b.now }
{
    a == b
}

// Lines 3 to 9, of the fields: checks 10, 11, 16.
fn verify_hash(
    row: Row,
    vk: &[u8],
    msg: &[u8],
    hash: &[u8],
    hint: &[i64],
    z: &[i64],
) -> Result<(), Refusal>
    requires vk_len { (length vk.now ≡ row.p.vk_bytes) × Below 125 (vk_vector row.p vk.now) × (length hash.now ≡ hash_bytes row.p) }
    requires hint_len { (length hint.now ≡ row.p.k * 512) × (length z.now ≡ row.p.l * 512) }
    requires by_index { (i : ℕ) → i < length hint.now → nat_abs (get_or hint.now i (pos 0)) < 31 }
    requires by_index_2 { (i : ℕ) → i < length z.now → nat_abs (get_or z.now i (pos 0)) < q }
    ensures { status_of result
        ≡ first_no
        (hash_checks row.p vk.now msg.now (fields_of hash.now hint.now z.now)) }
{
    let p = row.p;
    let k = p.k;
    let edition = p.edition;
    let n = k * 512;
    let b = p.kappa / 4;
    let mut w = [0u8; 4608];
    let mut mu = [0u8; 64];
    let mut again = [0u8; 64];
    let c = chal_poly(p.omega, edition, hash);
    recompute(row, vk, hint, z, c.unwrap_or([0i8; 512]), &mut w[0..n])?;
    if c.is_none() {
        return Err(Refusal::ChallengeNotFilled);
    }
    bind(vk, msg, &mut mu[0..b]);
    chal_hash(k, edition, &w[0..n], &mu[0..b], &mut again[0..b]);
    if !same_bytes(hash, &again[0..b]) {
        return Err(Refusal::BadSignatureHash);
    }
    Ok(())
}

// Lines 1 and 2: the fields, checks 14 and 15; then the rest.
fn verify_fields(row: Row, vk: &[u8], msg: &[u8], sig: &[u8]) -> Result<(), Refusal>
    requires { (length vk.now ≡ row.p.vk_bytes) × Below 125 (vk_vector row.p vk.now) × (length sig.now ≡ row.p.sig_bytes) }
    ensures { status_of result ≡ first_no (form_checks row.p vk.now msg.now sig.now) }
{
    let p = row.p;
    let n = p.k * 512;
    let m = p.l * 512;
    let b = p.kappa / 4;
    let mut hint = [0i64; 4608];
    let mut z = [0i64; 3584];
    read(sig, b, &mut hint[0..n], &mut z[0..m])?;
    let bounds = check_bounds(&hint[0..n], &z[0..m], p.hint_limit, p.binf, p.b22);
    if !bounds.passed {
        return Err(Refusal::BadSignatureBounds);
    }
    verify_hash(row, vk, msg, &sig[0..b], &hint[0..n], &z[0..m])
}

// The checks of lengths and of the public key, then the rest.
fn verify_with(row: Row, vk: &[u8], msg: &[u8], sig: &[u8]) -> Result<(), Refusal>
    ensures { status_of result ≡ first_no (verify_checks (Ok row.p) row.p vk.now msg.now sig.now) }
{
    let p = row.p;
    if vk.len() != p.vk_bytes {
        return Err(Refusal::BadKeyLength);
    }
    if !public_key_good(vk, p.kappa / 8, p.k) {
        return Err(Refusal::BadPublicKey);
    }
    if 4096 < msg.len() {
        return Err(Refusal::BadMessageLength);
    }
    if sig.len() != p.sig_bytes {
        return Err(Refusal::BadSignatureLength);
    }
    verify_fields(row, vk, msg, sig)
}

// Whether a signature of a message is good under a public key, or the first no (01, "Questions put to a call").
pub fn verify(
    set: u64,
    edition: Edition,
    public_key: &[u8],
    message: &[u8],
    signature: &[u8],
) -> Result<(), Refusal>
    ensures { status_of result ≡ verify_call edition set public_key.now message.now signature.now }
{
    let row = find(set, 1, edition)?;
    verify_with(row, public_key, message, signature)
}
