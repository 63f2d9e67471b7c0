// The sharing layer on known inputs: digests of what it makes, compared with those of another implementation (stdout).
#![tactic(auto)]

ghost use Rattle.std.specs.Prelude.{◌≤◌};
ghost use Rattle.hash.specs.Params.{ShareCount};

use hash::params::{Edition, Params, lookup};
use hash::shake;
use ring::poly;
use sharing::{encoding, masks};
use std::io;
use std::io::Write;

// SHAKE256 of words of eight bytes, the low one first.
fn print_digest<W: Write>(out: &mut W, s: &[u64]) -> io::Result<()> {
    let mut a = shake::start();
    for (i, x) in s.iter().enumerate() {
        let next = shake::absorb(a, 8 * (i % 17), &x.to_le_bytes());
        a = next;
    }
    let n = 8 * (s.len() % 17);
    hexio::print_line(out, &shake::digest::<32>(shake::finish(a, n)))?;
    Ok(())
}

// A sharing of d shares, filled with the polynomials of one seed and refreshed with those of another.
fn refreshed<W: Write>(out: &mut W, p: Params) -> io::Result<()>
    requires { ShareCount p.shares }
{
    let mut s = [0u64; 32768];
    let m = p.shares * 512;
    let mut g = masks::start(b"sharing");
    for i in 0..64usize {
        let from = i * 512;
        let to = from + 512;
        g = masks::fill(&mut s[from..to], g);
    }
    if poly::all_below(&s, poly::Q) {
        encoding::refresh_at(&mut s, m, p, masks::start(b"refresh"));
        print_digest(out, &s[m..m + m])?;
    }
    Ok(())
}

// .. with the record of set 128 and d shares.
fn refreshed_with<W: Write>(out: &mut W, d: u64) -> io::Result<()> {
    match lookup(128, d, Edition::Printed) {
        Ok(p) => refreshed(out, p),
        Err(_) => Ok(()),
    }
}

// Noise of u bits.
fn noise<W: Write>(out: &mut W, u: usize) -> io::Result<()>
    requires { (1 ≤ u) × (u ≤ 48) }
{
    let header = [117u8, 1, 2, 3, 0, 0, 0, 0];
    let p = sharing::noise::sample_u(&header, b"sixteen bytes...", u);
    print_digest(out, &p)
}

fn main(rt: HostRuntime) -> io::Result<()> {
    let mut out = rt.stdout();
    refreshed_with(&mut out, 1)?;
    refreshed_with(&mut out, 2)?;
    refreshed_with(&mut out, 4)?;
    refreshed_with(&mut out, 8)?;
    refreshed_with(&mut out, 16)?;
    refreshed_with(&mut out, 32)?;
    noise(&mut out, 4)?;
    noise(&mut out, 5)?;
    noise(&mut out, 6)?;
    noise(&mut out, 7)?;
    noise(&mut out, 39)?;
    noise(&mut out, 40)?;
    noise(&mut out, 41)
}
