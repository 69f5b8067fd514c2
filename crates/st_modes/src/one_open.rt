//! Whether the patterns of equations have at most one part of open length in a list.

ghost use Rattle.std.specs.Prelude.{◌≡◌, IfOk};
ghost use Rattle.st_il.specs.declared.definition.Il.{Il};
ghost use Rattle.st_semantics.specs.Executable.{class_of_sides, class_of_condition, class_of};
ghost use Rattle.st_semantics.specs.ModeRules.{has_one_open, patterns_have_one_open};
ghost use Rattle.st_order.specs.inner.Index.{names_in};

use crate::open_parts::is_doubly_open;
use indexmap::IndexSet;
use st_il::{IlExp, IlPrem};
use st_num::{Name, NoMemory};
use st_order::class::{inside_each, is_bound, is_matched};
use st_order::index::set_of;
use st_order::selection::add_variables;
use std::alloc::Global;

/// Whether an equation of these sides, one of which is unbound, has a pattern like that, or is
/// none that can be run.
fn sides_have_one_open(
    alloc: Global,
    bound: &IndexSet<&Name>,
    left: &IlExp,
    right: &IlExp,
) -> Result<bool, NoMemory>
    ensures { IfOk result (λ have. have
        ≡ has_one_open (class_of_sides (names_in bound.now.keys) left.now right.now)) }
{
    if is_matched(alloc, bound, left, right)? {
        return Ok(!is_doubly_open(right));
    }
    if is_matched(alloc, bound, right, left)? {
        return Ok(!is_doubly_open(left));
    }
    Ok(true)
}

/// Whether a condition is no equation that has a pattern otherwise.
fn condition_has_one_open(
    alloc: Global,
    bound: &IndexSet<&Name>,
    exp: &IlExp,
) -> Result<bool, NoMemory>
    ensures { IfOk result (λ has. has
        ≡ has_one_open (class_of_condition (names_in bound.now.keys) exp.now)) }
{
    if is_bound(alloc, bound, exp)? {
        return Ok(true);
    }
    match exp {
        IlExp::Eq(left, right) => sides_have_one_open(alloc, bound, left.get(), right.get()),
        _ => Ok(true),
    }
}

/// Whether a premise is no equation that has a pattern otherwise.
fn has_one_open<'a>(
    alloc: Global,
    bound: &IndexSet<&'a Name>,
    prem: &'a IlPrem,
) -> Result<bool, NoMemory>
    ensures { IfOk result (λ has. (il : Il)
        → has ≡ has_one_open (class_of il (names_in bound.now.keys) prem.now)) }
{
    match prem {
        IlPrem::If(exp) => {
            let condition = condition_has_one_open(alloc, bound, exp)?;
            Ok(condition)
        }
        IlPrem::Goal(_, _) => Ok(true),
        IlPrem::Otherwise => Ok(true),
        IlPrem::Each(how, list, body) => {
            let list = list.as_slice();
            let body = body.get();
            let inside = inside_each(alloc, bound, how, list, body)?;
            let Some(inside) = inside else {
                return Ok(true);
            };
            let entered = has_one_open(alloc, &inside, body)?;
            Ok(entered)
        }
    }
}

/// Whether no premise is an equation that has a pattern otherwise, where these names are bound at
/// first.
pub(crate) fn patterns_have_one_open<'a>(
    alloc: Global,
    names: &[&'a Name],
    premises: &'a [IlPrem],
) -> Result<bool, NoMemory>
    ensures { IfOk result (λ have. (il : Il)
        → have ≡ patterns_have_one_open il (names_in names.now) premises.now) }
{
    let mut bound = set_of(alloc, names)?;
    for premise in premises {
        let has = has_one_open(alloc, &bound, premise)?;
        if !has {
            return Ok(false);
        }
        add_variables(alloc, premise, &mut bound)?;
    }
    Ok(true)
}
