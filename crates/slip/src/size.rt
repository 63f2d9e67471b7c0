// The set of a slip (02, #101): it follows from the length of the signature.
ghost use Rattle.std.specs.Prelude.{◌≡◌};
ghost use Rattle.hash.specs.Lists.{other_than};
ghost use Rattle.slip.specs.Format.{signature_bytes, set_by_size};

use hash::params::{Edition, lookup};

// The bytes of a signature of a set; 0 of an unknown one.
fn signature_bytes(set: u64) -> usize
    ensures { result ≡ signature_bytes set }
{
    lookup(set, 1, Edition::Printed).map_or(0, |p| p.sig_bytes)
}

// The set whose signatures have n bytes.
pub(crate) fn set_by_size(n: usize) -> Option<u32>
    ensures { result ≡ other_than 0 (set_by_size n) }
{
    [128, 192, 256]
        .into_iter()
        .find(|&set: &u32| n == signature_bytes(u64::from(set)))
}
