//! Copies of expressions that are referred to.

ghost use Rattle.std.specs.Prelude.{◌≡◌, IfOk};
ghost use Rattle.st_order.specs.inner.Parts.{exps_in};

use st_il::{IlExp, copy_exp};
use st_num::{NoMemory, Row};
use std::alloc::Global;

/// The same expressions again, which are referred to.
pub(crate) fn copy_refs(alloc: Global, exps: &[&IlExp]) -> Result<Row<IlExp>, NoMemory>
    ensures { IfOk result (λ copies. copies ≡ exps_in exps.now) }
{
    let mut copies = Row::new(alloc);
    for exp in exps {
        copies.push(copy_exp(alloc, *exp)?)?;
    }
    Ok(copies)
}
