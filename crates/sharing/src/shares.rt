// Sharings in a work buffer: their sums (000, Algorithm 13), and shares added to shares (01, "Streams and shares").
ghost use Rattle.std.specs.Prelude.{◌≡◌, ◌+◌, ◌*◌, ◌≤◌, length};
ghost use Rattle.ring.specs.Words.{q, add_w, Below, Words};
ghost use Rattle.sharing.specs.Blocks.{total};
ghost use Rattle.sharing.specs.Region.{span, Wrote};

use crate::region::{load, store_at};
use hash::params::Params;
use ring::poly::add_into;

// Algorithm 13: the sum of the d shares at `at`.
pub fn sum_shares(s: &[u64], at: usize, p: Params) -> [u64; 512]
    requires { (at + p.shares * 512 ≤ length s.now) × Below q s.now }
    ensures { (result ≡ total p.shares (span s.now at (p.shares * 512))) × Words 512 result }
{
    let d = p.shares;
    let mut acc = [0u64; 512];
    for j in 0..d {
        let x = load(s, at + j * 512);
        add_into(&mut acc, &x);
    }
    acc
}

// The sum of the d shares at `from`, stored at `to`.
pub fn decode_at(s: &mut [u64], from: usize, to: usize, p: Params)
    requires { (from + p.shares * 512 ≤ length s.old) × (to + 512 ≤ length s.old) × Below q s.old }
    ensures { Wrote 0 to 512 (total p.shares (span s.old from (p.shares * 512))) s.old s.new }
{
    let x = sum_shares(s, from, p);
    store_at(s, to, &x);
}

// The d shares of lent words at `from` are added to those at `at`.
pub fn add_shares_at(s: &mut [u64], at: usize, words: &[u64], from: usize, p: Params)
    requires { (at + p.shares * 512 ≤ length s.old) × (from + p.shares * 512 ≤ length words.now) × Below q s.old
        × Below q words.now }
    ensures { Wrote 0 at (p.shares * 512)
        (add_w (span s.old at (p.shares * 512)) (span words.now from (p.shares * 512))) s.old
        s.new }
{
    let m = p.shares * 512;
    add_into(&mut s[at..at + m], &words[from..from + m]);
}
