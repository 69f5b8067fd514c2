//! Rows put together.

ghost use Rattle.std.specs.Prelude.{◌≡◌, ◌++◌, IfOk};

use st_num::{NoMemory, Row};

/// The first elements with the others behind them.
pub(crate) fn append<T: Drop>(first: Row<T>, others: Row<T>) -> Result<Row<T>, NoMemory>
    ensures { IfOk result (λ all. all ≡ first ++ others) }
{
    let mut all = first.into_vec();
    let mut others = others.into_vec();
    all.append(&mut others)?;
    Ok(Row::from_vec(all))
}
