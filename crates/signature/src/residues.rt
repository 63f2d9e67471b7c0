// Lists of signed numbers and of residues (000, 2.2).
ghost use Rattle.std.specs.Prelude.{◌≡◌, ℕ, ◌^◌, ◌<◌, pos, nat_abs, length, get_or};
ghost use Rattle.ring.specs.Words.{Below, Residues, zip_to};
ghost use Rattle.ring.specs.Round.{residues};
ghost use Rattle.signature.specs.Recover.{add31, sub31, centred_all};

use crate::int::residue;
use ring::poly::centred;

// The residues modulo m of numbers whose absolute values are below m.
pub(crate) fn residues_into(zs: &[i64], m: u64, out: &mut [u64])
    requires out_len { (length out.old ≡ length zs.now) × (m < 2 ^ 63) }
    requires by_index { (i : ℕ) → i < length zs.now → nat_abs (get_or zs.now i (pos 0)) < m }
    ensures { out.new ≡ residues m zs.now }
{
    for (i, &z) in zs.iter().enumerate() {
        out[i] = residue(z, m);
    }
}

// y + h modulo 31, a byte a coefficient (Algorithm 3, line 7).
pub(crate) fn adjust(y: [u64; 512], hint: &[i64], out: &mut [u8])
    requires residues { Residues 31 512 y × (length hint.now ≡ 512) × (length out.old ≡ 512) }
    requires by_index { (i : ℕ) → i < length hint.now → nat_abs (get_or hint.now i (pos 0)) < 31 }
    ensures { out.new ≡ zip_to add31 y (residues 31 hint.now) }
{
    for (i, x) in out.iter_mut().enumerate() {
        let h = residue(hint[i], 31);
        *x = ((y[i] + h) % 31) as u8;
    }
}

// The centred value of each word modulo an odd m.
pub(crate) fn centred_into(words: &[u64], m: u64, out: &mut [i64])
    requires { (length out.old ≡ length words.now) × Below m words.now × (0 < m) × (m < 2 ^ 62) }
    ensures { out.new ≡ centred_all m words.now }
{
    for (i, &x) in words.iter().enumerate() {
        out[i] = centred(x, m);
    }
}

// w - y modulo 31, centred (Algorithm 2, line 18).
pub(crate) fn hint_into(w: [u64; 512], y: [u64; 512], out: &mut [i64])
    requires { Residues 31 512 w × Residues 31 512 y × (length out.old ≡ 512) }
    ensures { out.new ≡ centred_all 31 (zip_to sub31 w y) }
{
    for (i, x) in out.iter_mut().enumerate() {
        let d = (w[i] + (31 - y[i])) % 31;
        *x = centred(d, 31);
    }
}
