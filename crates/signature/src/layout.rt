// The places of the work buffer's parts, as specs/Layout.antt says.
ghost use Rattle.std.specs.Prelude.{◌≡◌};
ghost use Rattle.signature.specs.Layout.{at_room, at_s, at_r, at_t, at_x};

use crate::row::Row;

// The room of eight polynomials.
pub(crate) fn at_room(row: Row) -> usize
    ensures { result ≡ at_room row.p.shares }
{
    4 * (row.p.shares * 512)
}

// The shares of s.
pub(crate) fn at_s(row: Row) -> usize
    ensures { result ≡ at_s row.p.shares }
{
    at_room(row) + 4096
}

// The shares of r, and then of z.
pub(crate) fn at_r(row: Row) -> usize
    ensures { result ≡ at_r row.p.l row.p.shares }
{
    at_s(row) + row.p.l * (row.p.shares * 512)
}

// The sums t or w.
pub(crate) fn at_t(row: Row) -> usize
    ensures { result ≡ at_t row.p.l row.p.shares }
{
    at_r(row) + row.p.l * (row.p.shares * 512)
}

// The share x that is written in full, or the sum z.
pub(crate) fn at_x(row: Row) -> usize
    ensures { result ≡ at_x row.p.k row.p.l row.p.shares }
{
    at_t(row) + row.p.k * 512
}
