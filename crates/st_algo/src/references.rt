//! Lists of references: to the members of a list, and to the premises of some numbers.

ghost use Rattle.std.specs.Prelude.{◌≡◌, ◌++◌, IfOk, OnOk};
ghost use Rattle.std.specs.Option.{option_copied};
ghost use Rattle.st_semantics.specs.Parts.{option_list};
ghost use Rattle.st_semantics.specs.Orders.{premise_at, in_order};
ghost use Rattle.st_order.specs.inner.Parts.{exps_in};
ghost use Rattle.st_order.specs.Known.{all_now};

use st_il::{IlExp, IlPrem};
use st_num::{NoMemory, Row};
use std::alloc::Global;

/// The expressions, referred to.
pub(crate) fn expressions(alloc: Global, exps: &[IlExp]) -> Result<Row<&IlExp>, NoMemory>
    ensures { IfOk result (λ row. exps_in row ≡ exps.now) }
{
    let mut row = Row::new(alloc);
    for exp in exps {
        row.push(exp)?;
    }
    Ok(row)
}

/// The premises, referred to.
pub(crate) fn premises(alloc: Global, prems: &[IlPrem]) -> Result<Row<&IlPrem>, NoMemory>
    ensures { IfOk result (λ row. all_now row ≡ prems.now) }
{
    let mut row = Row::new(alloc);
    for prem in prems {
        row.push(prem)?;
    }
    Ok(row)
}

/// The premise of a number, counted from 1.
fn premise_at(prems: &[IlPrem], number: u32) -> Option<&IlPrem>
    ensures { option_copied result ≡ premise_at prems.now number }
{
    if number == 0 {
        return None;
    }
    prems.get(number as usize - 1)
}

/// Adds the premise of a number, counted from 1, if there is one.
fn push_premise<'a>(
    prems: &'a [IlPrem],
    number: u32,
    row: &mut Row<&'a IlPrem>,
) -> Result<(), NoMemory>
    ensures { OnOk result
        (all_now row.new ≡ all_now row.old ++ option_list (premise_at prems.now number)) }
{
    match premise_at(prems, number) {
        Some(prem) => row.push(prem),
        None => Ok(()),
    }
}

/// The premises of these numbers, counted from 1, in this order.
pub(crate) fn in_order<'a>(
    alloc: Global,
    prems: &'a [IlPrem],
    order: &[u32],
) -> Result<Row<&'a IlPrem>, NoMemory>
    ensures { IfOk result (λ row. all_now row ≡ in_order prems.now order.now) }
{
    let mut row = Row::new(alloc);
    for number in order {
        push_premise(prems, *number, &mut row)?;
    }
    Ok(row)
}
