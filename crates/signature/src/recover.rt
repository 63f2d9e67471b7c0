// The commitment recovered from a response (000, Algorithm 2 line 17, Algorithm 3 line 6): y = A z - 2^42 c t, a row at a time. The matrix, z and c
// are lent in the transform domain, left in residues; 2^42 c t goes into the sums of the row.
ghost use Rattle.std.specs.Prelude.{◌≡◌, ◌+◌, ◌*◌, ◌^◌, ◌≤◌, length};
ghost use Rattle.ring.specs.Words.{Below, Words, Residues};
ghost use Rattle.ring.specs.Rns.{words_of};
ghost use Rattle.sharing.specs.Region.{span};
ghost use Rattle.signature.specs.RecoverSteps.{recovered_by};

use crate::masked::apply_row;
use ring::poly::scale_t;
use ring::rns::{intt_sums, ntt_residues, sub_product};

// A row of y: the matrix's row begins at `from` in a, t is the row's polynomial of the public key.
pub(crate) fn recover_row(
    a: &[u64],
    from: usize,
    z: &[u64],
    l: usize,
    c: &[u64],
    t: [u64; 512],
) -> [u64; 512]
    requires l_in_bounds { (from + l * 512 ≤ length a.now) × Below (2 ^ 60) a.now × (l * 512 ≤ length z.now) × Below (2 ^ 60) z.now × (l ≤ 7) }
    requires residues { Residues (2 ^ 60) 512 c.now × Residues 125 512 t }
    ensures { (result ≡ recovered_by l (span (words_of a.now) from (l * 512)) (words_of z.now) (words_of c.now) t)
        × Words 512 result }
{
    let mut hi = [0u64; 512];
    let mut lo = [0u64; 512];
    let mut u = scale_t(t);
    apply_row(&mut hi, &mut lo, a, from, z, l);
    ntt_residues(&mut u);
    sub_product(&mut hi, &mut lo, c, &u);
    intt_sums(hi, lo)
}
