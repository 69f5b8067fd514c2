//! The order in which the premises of a rule are run, told where it is asked for: where a tree is made,
//! whose children stand as the premises are written, and where a premise stops.

ghost use Rattle.std.specs.Prelude.{◌≡◌, ◌⊎◌, ◌<◌, ◌^◌, ℕ, List, length, Ok, Err, Some, slice_get, IfOk, IfErr};
ghost use Rattle.st_semantics.specs.Marks.{full_name};
ghost use Rattle.st_semantics.specs.OrderOf.{order_of};
ghost use Rattle.st_search.specs.declared.answer.SearchFault.TheVariants as fault;
ghost use Rattle.st_search.specs.declared.stop.Stop.{Stop};
ghost use Rattle.st_search.specs.inner.Chains.{fault_by};
ghost use Rattle.st_search.specs.inner.Running.{IsNumberAt};
ghost use Rattle.st_search.specs.inner.Search.{IsSearch};

use crate::answer::SearchFault;
use crate::setting::Search;
use crate::stop::{Stop, fault_of};
use st_il::RuleDef;
use st_num::{NoMemory, Row};
use st_order::order_by;
use std::alloc::Global;

/// The order in which the premises of a rule are run, where it has one.
pub(crate) fn order_of(
    alloc: Global,
    search: &Search<'_>,
    rule: &RuleDef,
) -> Result<Row<u32>, NoMemory>
    requires search { IsSearch search.now }
    requires few { length rule.now.premises < 2 ^ 32 }
    ensures { IfOk result (λ row. (order : List ℕ)
        → order_of search.now.setting.index.now rule.now ≡ Ok order → row ≡ order) }
{
    if rule.premises.is_empty() {
        return Ok(Row::new(alloc));
    }
    let order = order_by(alloc, search.directions, rule)?;
    match order {
        Ok(order) => Ok(order),
        Err(_) => Ok(Row::new(alloc)),
    }
}

/// The number of the premise that is run at this position, counted from 1.
fn number_at(order: &[u32], position: usize) -> u32
    ensures { position < length order.now → slice_get order.now position ≡ Some result }
{
    match order.get(position) {
        Some(number) => *number,
        None => 0,
    }
}

/// What is told of a rule that stops at the premise that is run at this position.
fn fault_at(
    alloc: Global,
    search: &Search<'_>,
    rule: &RuleDef,
    position: usize,
    stop: Stop,
) -> Result<SearchFault, NoMemory>
    requires search { IsSearch search.now }
    requires few { length rule.now.premises < 2 ^ 32 }
    ensures { IfOk result (λ fault. (premise : ℕ)
        × IsNumberAt search.now.setting.index.now rule.now position premise
        × (fault ≡ fault_by (full_name rule.now) premise stop)) }
{
    let order = order_of(alloc, search, rule)?;
    let premise = number_at(order.as_slice(), position);
    let fault = fault_of(alloc, rule, premise, stop)?;
    Ok(fault)
}

/// What was found, or what is told of a rule that stopped at the premise that is run at this position.
pub(crate) fn at_position<T>(
    alloc: Global,
    search: &Search<'_>,
    rule: &RuleDef,
    position: usize,
    found: Result<T, Stop>,
) -> Result<T, SearchFault>
    requires search { IsSearch search.now }
    requires few { length rule.now.premises < 2 ^ 32 }
    ensures found { IfOk result (λ value. found ≡ Ok value) }
    ensures stopped { IfErr result (λ error. (error ≡ fault.Memory)
        ⊎ ((premise : ℕ) × (stop : Stop)
        × IsNumberAt search.now.setting.index.now rule.now position premise × (found ≡ Err stop)
        × (error ≡ fault_by (full_name rule.now) premise stop))) }
{
    match found {
        Ok(value) => Ok(value),
        Err(stop) => Err(fault_at(alloc, search, rule, position, stop)?),
    }
}
