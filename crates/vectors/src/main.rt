// SHAKE256 on known messages: what it prints is compared with the values of another implementation (stdout).
#![tactic(auto)]

use hash::shake;
use std::io;
use std::io::Write;

// Byte i is 7 i modulo 251, so that no two bytes of a lane are equal.
fn pattern() -> [u8; 300] {
    let mut m = [0u8; 300];
    for (i, x) in m.iter_mut().enumerate() {
        *x = (7 * i % 251) as u8;
    }
    m
}

// FIPS 202's own examples: no byte, and 200 bytes 0xa3 with four blocks of output.
fn examples<W: Write>(out: &mut W) -> io::Result<()> {
    let mut short = [0u8; 32];
    shake::shake256(&[], &mut short);
    hexio::print_line(out, &short)?;
    let mut long = [0u8; 512];
    shake::shake256(&[0xa3; 200], &mut long);
    hexio::print_line(out, &long)?;
    Ok(())
}

// The bytes of m, as many as there are below, at or above a multiple of the rate.
fn length<W: Write>(out: &mut W, m: &[u8]) -> io::Result<()> {
    let mut digest = [0u8; 32];
    shake::shake256(m, &mut digest);
    hexio::print_line(out, &digest)?;
    Ok(())
}

fn lengths<W: Write>(out: &mut W, m: &[u8; 300]) -> io::Result<()> {
    length(out, &m[..135])?;
    length(out, &m[..136])?;
    length(out, &m[..137])?;
    length(out, &m[..271])?;
    length(out, &m[..272])?;
    length(out, &m[..273])
}

// 273 bytes in parts that end within a lane, at a lane and at a block; the first two blocks of the stream.
fn parts<W: Write>(out: &mut W, m: &[u8; 300]) -> io::Result<()> {
    let a = shake::absorb(shake::start(), 0, &m[..3]);
    let b = shake::absorb(a, 3, &m[3..16]);
    let c = shake::absorb(b, 16, &m[16..136]);
    let s = shake::finish(shake::absorb(c, 136, &m[136..273]), 273);
    hexio::print_line(out, &shake::block(s))?;
    hexio::print_line(out, &shake::block(hash::keccak::permute(s)))?;
    Ok(())
}

// A header of eight bytes and seeds of 16, 24 and 32 bytes, and of 5.
fn seeds<W: Write>(out: &mut W, m: &[u8; 300]) -> io::Result<()> {
    let header = [1u8, 2, 3, 4, 5, 6, 7, 8];
    hexio::print_line(out, &shake::digest::<32>(shake::begin(&header, &m[..16])))?;
    hexio::print_line(out, &shake::digest::<48>(shake::begin(&header, &m[..24])))?;
    hexio::print_line(out, &shake::digest::<64>(shake::begin(&header, &m[..32])))?;
    hexio::print_line(out, &shake::digest::<32>(shake::begin(&header, &m[..5])))?;
    Ok(())
}

fn main(rt: HostRuntime) -> io::Result<()> {
    let mut out = rt.stdout();
    examples(&mut out)?;
    let m = pattern();
    lengths(&mut out, &m)?;
    parts(&mut out, &m)?;
    seeds(&mut out, &m)
}
