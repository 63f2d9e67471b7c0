// The checking program (01, "Questions put to a call"): standard input is a public key of 2256 bytes, a signature of 11524 bytes and a
// message; it prints verify's status for set 128, in decimal, and a line end.
#![tactic(auto)]

ghost use Rattle.std.specs.Prelude.{◌≡◌, IfOk, IfSome};
ghost use Rattle.checker.specs.Input.{checked_of};

use hash::params::Edition;
use hash::refusal::status;
use input::read_full;
use signature::verify::verify;
use std::io;
use std::io::Read;

// The status of an input of any length.
fn check(input: &[u8]) -> u32
    ensures { result ≡ checked_of input.now }
{
    let k = input.len().min(2256);
    let m = input.len().min(13780);
    status(verify(
        128,
        Edition::Printed,
        &input[0..k],
        &input[m..],
        &input[k..m],
    ))
}

// The status of all that the reader gives.
// The buffer has room for one byte more than the longest message: what is behind it is not read, and does not change the status.
fn check_all<R: Read>(from: &mut R) -> io::Result<u32>
    ensures { IfOk result (λ status. IfSome (R.remaining from.old) (λ s. status ≡ checked_of s)) }
{
    let mut input = [0u8; 17877];
    let n = read_full(from, &mut input)?;
    Ok(check(&input[..n]))
}

fn main(rt: HostRuntime) -> io::Result<()> {
    let status = check_all(&mut rt.stdin())?;
    println!(rt; "{status}")
}
