// A row of the parameter table (000, Tables 2 to 4) as a value, with what holds of every row (specs/Table.antt).
ghost use Rattle.std.specs.Prelude.{◌≡◌};
ghost use Rattle.std.specs.Result.{result_map_both};
ghost use Rattle.hash.specs.Params.{lookup_of};
ghost use Rattle.signature.specs.Table.{Tabled, Tabled-prop};

use hash::params::{Edition, Params, Unknown, lookup};

// The record of one set and share count. It is made by the look-up alone.
#[derive(Clone, Copy)]
pub struct Row {
    pub p: Params,
    ghost tabled: { Tabled p } by { Tabled-prop p },
}

// The row of a set and a share count.
pub fn find(set: u64, shares: u64, edition: Edition) -> Result<Row, Unknown>
    ensures { result_map_both (λ r. r.p) (λ e. e) result ≡ lookup_of set shares edition }
{
    let p = lookup(set, shares, edition)?;
    Ok(Row { p })
}
