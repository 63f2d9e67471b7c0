// Words of at most eight bytes, the low one first (000, 2.4.1).
ghost use Rattle.std.specs.Prelude.{◌≡◌, ◌+◌, ◌%◌, ◌≤◌, get_or, length};
ghost use Rattle.hash.specs.Lists.{table};
ghost use Rattle.hash.specs.Endian.{le, byte_of};
ghost use Rattle.hash.specs.ShakeSteps.{pasted};

// A word's eight bytes into out, from the place at.
pub fn put_word(out: &mut [u8], at: usize, x: u64)
    requires { at + 8 ≤ length out.old }
    ensures { out.new ≡ pasted (byte_of x) out.old at 8 }
{
    out[at..at + 8].copy_from_slice(&x.to_le_bytes());
}

// The number of the n bytes of m from the place at, n at most 8.
pub fn load(m: &[u8], at: usize, n: usize) -> u64
    requires { (n ≤ 8) × (at + n ≤ length m.now) }
    ensures { result ≡ le (λ j. get_or m.now (at + j) 0) n }
{
    let mut x: u64 = 0;
    for j in 0..n {
        x ^= u64::from(m[at + j]) << (8 * j);
    }
    x
}
