// Signed whole numbers of 64 bits by absolute value and sign.
ghost use Rattle.std.specs.Prelude.{◌≡◌, ◌^◌, ◌<◌, nat_abs};
ghost use Rattle.ring.specs.Round.{residue};
ghost use Rattle.signature.specs.Code.{neg_of, signed_of};

// 1 where z is negative.
pub(crate) fn sign(z: i64) -> u64
    ensures { result ≡ neg_of z }
{
    u64::from(z < 0)
}

// The number with absolute value m, below 0 where s is not 0.
pub(crate) fn signed(m: u64, s: u64) -> i64
    requires { m < 2 ^ 63 }
    ensures { result ≡ signed_of m s }
{
    let z = m as i64;
    if s == 0 { z } else { -z }
}

// The residue modulo m of a number whose absolute value is below m.
pub(crate) fn residue(z: i64, m: u64) -> u64
    requires { (nat_abs z < m) × (m < 2 ^ 63) }
    ensures { (result ≡ residue m z) × (result < m) }
{
    let a = z.unsigned_abs();
    if sign(z) == 0 { a } else { m - a }
}
