// Polynomials of 512 words in the regions of a work buffer. All words are below q.
ghost use Rattle.std.specs.Prelude.{◌≡◌, ◌+◌, ◌≤◌, length};
ghost use Rattle.ring.specs.Words.{q, add_w, sub_w, Below, Words};
ghost use Rattle.hash.specs.Lists.{zeros};
ghost use Rattle.sharing.specs.Region.{span, put, Wrote};

use ring::poly::{add_into, copy_into, sub_into};

// The polynomial at `at`.
pub fn load(s: &[u64], at: usize) -> [u64; 512]
    requires { (at + 512 ≤ length s.now) × Below q s.now }
    ensures { (result ≡ span s.now at 512) × Words 512 result }
{
    let mut p = [0u64; 512];
    p.copy_from_slice(&s[at..at + 512]);
    p
}

// p at `at`.
pub fn store_at(s: &mut [u64], at: usize, p: &[u64; 512])
    requires { (at + 512 ≤ length s.old) × Below q s.old × Below q p.now }
    ensures { Wrote 0 at 512 p.now s.old s.new }
{
    copy_into(&mut s[at..at + 512], p);
}

// Zero everywhere.
pub fn clear(s: &mut [u64])
    ensures { s.new ≡ zeros (length s.old) }
{
    s.fill(0);
}

// p added to the polynomial at `at`.
pub fn add_at(s: &mut [u64], at: usize, p: &[u64; 512])
    requires { (at + 512 ≤ length s.old) × Below q s.old × Below q p.now }
    ensures { s.new ≡ put s.old at 512 (add_w (span s.old at 512) p.now) }
{
    add_into(&mut s[at..at + 512], p);
}

// p subtracted from it.
pub fn sub_at(s: &mut [u64], at: usize, p: &[u64; 512])
    requires { (at + 512 ≤ length s.old) × Below q s.old × Below q p.now }
    ensures { s.new ≡ put s.old at 512 (sub_w (span s.old at 512) p.now) }
{
    sub_into(&mut s[at..at + 512], p);
}
