// The crate is its definitions and theorems (specs/, proofs/). A library needs one function.
#![tactic(auto)]

ghost use Rattle.std.specs.Prelude.{◌≡◌};

pub fn same(x: u64) -> u64
    ensures { result ≡ x }
{
    x
}
