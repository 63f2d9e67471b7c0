// SHAKE256 of standard input, its first 32 bytes in hex.
#![tactic(auto)]

ghost use Rattle.std.specs.Prelude.{◌≡◌, ◌^◌, ◌<◌, length, IfOk, IfSome};
ghost use Rattle.hash.specs.Shake.{shake256};

use hash::shake;
use input::read_full;
use std::io;
use std::io::Read;

// The first 32 bytes of SHAKE256 of all that the reader gives.
// The buffer holds 30 blocks, so a full one leaves the next byte at the start of a block. A proved loop has to end and a reader need
// not: so the turns are counted, to a number that no run uses up.
fn digest_of<R: Read>(from: &mut R) -> io::Result<[u8; 32]>
    ensures { IfOk result (λ d. IfSome (R.remaining from.old) (λ m. length m < 2 ^ 64 → d ≡ shake256 m 32)) }
{
    let mut s = shake::start();
    let mut buf = [0u8; 4080];
    let mut n = read_full(from, &mut buf)?;
    for _ in 0..u64::MAX {
        if n < buf.len() {
            break;
        }
        let next = shake::absorb(s, 0, &buf);
        s = next;
        n = read_full(from, &mut buf)?;
    }
    let last = shake::absorb(s, 0, &buf[..n]);
    Ok(shake::digest(shake::finish(last, n)))
}

fn main(rt: HostRuntime) -> io::Result<()> {
    let digest = digest_of(&mut rt.stdin())?;
    hexio::print_line(&mut rt.stdout(), &digest)?;
    Ok(())
}
