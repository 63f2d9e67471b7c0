// The matrix (000, Algorithm 6, ExpandA): an entry, a row, all rows. Rows are made in the transform domain and left in residues, as each of their
// uses needs them.
ghost use Rattle.std.specs.Prelude.{◌≡◌, OnOk, List, ℕ, ◌+◌, ◌*◌, ◌^◌, ◌≤◌, ◌<◌, length};
ghost use Rattle.std.proofs.Math.Option.{some};
ghost use Rattle.hash.specs.Refusal.{unless};
ghost use Rattle.hash.specs.declared.refusal.Refusal.{Refusal};
ghost use Rattle.ring.specs.Words.{Below, Residues};
ghost use Rattle.ring.specs.Transform.{ntt};
ghost use Rattle.ring.specs.Rns.{words_of};
ghost use Rattle.sharing.specs.Region.{Wrote};
ghost use Rattle.signature.specs.MaskedSteps.{untransformed, ResiduesHeld, held-prop};
ghost use Rattle.signature.specs.Matrix.{matrix_at, matrix_of, filled};
ghost use Rattle.signature.specs.MatrixSteps.{row_fills, row_entry, row_made};

use crate::row::Row;
use hash::refusal::Refusal;
use ring::rns::ntt_residues;
use ring::uniform::sample_q_into;

// A matrix of a set, lent as `expand_matrix` leaves it: transformed, in residues.
#[derive(Clone, Copy)]
pub(crate) struct HeldMatrix<'a> {
    pub row: Row,
    pub words: &'a [u64],
    ghost held: { ResiduesHeld row.p words.now } by { held-prop row.p words.now },
}

// Line 3: entry (i, j), transformed and left in residues, or check 10.
fn entry_into(out: &mut [u64], seed: &[u8], i: usize, j: usize) -> Result<(), Refusal>
    requires { (length out.old ≡ 512) × (i < 256) × (j < 256) }
    ensures { (result ≡ unless Refusal.UniformNotFilled (filled (matrix_at seed.now i j))) × (words_of out.new ≡ ntt (row_entry seed.now i j))
        × Residues (2 ^ 60) 512 out.new }
{
    let header = [65u8, i as u8, j as u8, 0, 0, 0, 0, 0];
    let entry = sample_q_into(&header, seed, out);
    ntt_residues(out);
    entry
}

// Row i at `to`: its l entries, or check 10.
pub(crate) fn expand_row(
    s: &mut [u64],
    to: usize,
    seed: &[u8],
    i: usize,
    l: usize,
) -> Result<(), Refusal>
    requires { (to + l * 512 ≤ length s.old) × Below (2 ^ 60) s.old × (i < 256) × (l < 256) }
    ensures value { (result ≡ unless Refusal.UniformNotFilled (row_fills seed.now i l)) × (length s.new ≡ length s.old)
        × Below (2 ^ 60) s.new }
    ensures wrote { OnOk result (Wrote 0 to (l * 512) (row_made l seed.now i) (words_of s.old) (words_of s.new)) }
{
    for m in 0..l {
        let b = to + m * 512;
        let e = b + 512;
        entry_into(&mut s[b..e], seed, i, m)?;
    }
    Ok(())
}

// All k rows, one behind the other: turned back, they are the matrix. Or check 10.
pub(crate) fn expand_matrix(s: &mut [u64], seed: &[u8], k: usize, l: usize) -> Result<(), Refusal>
    requires { (k * (l * 512) ≤ length s.old) × Below (2 ^ 60) s.old × (k ≤ 9) × (l ≤ 7) }
    ensures value { (result ≡ unless Refusal.UniformNotFilled (filled (matrix_of k l seed.now))) × (length s.new ≡ length s.old)
        × Below (2 ^ 60) s.new }
    ensures by_index { (A : List ℕ)
        → matrix_of k l seed.now ≡ some A
        → untransformed (k * l) (words_of s.new) ≡ A }
{
    for i in 0..k {
        expand_row(s, i * (l * 512), seed, i, l)?;
    }
    Ok(())
}
