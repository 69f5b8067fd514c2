//! The order in which the premises of a rule are run.

ghost use Rattle.std.specs.Prelude.{◌≡◌, ◌<◌, ◌^◌, ◌↔◌, [], length, Some, IfOk, IsTrue};
ghost use Rattle.std.specs.List.{list_all};
ghost use Rattle.st_il.specs.declared.definition.RuleDef.{RuleDef};
ghost use Rattle.st_il.specs.Names.{least, without};
ghost use Rattle.st_semantics.specs.Variables.{vars_of, prem_vars};
ghost use Rattle.st_semantics.specs.Orders.{is_input};
ghost use Rattle.st_semantics.specs.OrderOf.{order_of};
ghost use Rattle.st_order.specs.Answers.{rule_at, IsRule, IsAnswer, IsExact};
ghost use Rattle.st_order.specs.inner.Index.{names_in};
ghost use Rattle.st_order.specs.Known.{AreDirections};
ghost use Rattle.st_order.specs.inner.Parts.{exps_in};
ghost use Rattle.st_order.specs.inner.Endings.{AreInputs, Ends, told_of};

use crate::bindings::push_bound_by;
use crate::directed::at_holes;
use crate::fault::OrderFault;
use crate::index::{are_known, set_of};
use crate::least::least_unknown;
use crate::masks::{Directions, directions_of, mask_under};
use crate::rules::rule_at;
use crate::selection::{Numbered, Selection, select};
use crate::variables::{push_prem_vars, push_vars, push_vars_of};
use st_il::{Il, IlExp, RuleDef};
use st_num::{Name, NoMemory, Row};
use st_semantics::{Unordered, is_pattern};
use std::alloc::Global;

/// Whether an input is a pattern, or closed.
fn is_input(alloc: Global, exp: &IlExp) -> Result<bool, NoMemory>
    ensures { IfOk result (λ is. is ≡ is_input exp.now) }
{
    if is_pattern(exp) {
        return Ok(true);
    }
    let mut names = Row::new(alloc);
    push_vars(alloc, exp, &mut names)?;
    Ok(names.is_empty())
}

/// Whether each input is a pattern, or closed.
fn all_are_inputs(alloc: Global, inputs: &[&IlExp]) -> Result<bool, NoMemory>
    ensures { IfOk result (λ are. are ≡ list_all is_input (exps_in inputs.now)) }
{
    for input in inputs {
        if !is_input(alloc, *input)? {
            return Ok(false);
        }
    }
    Ok(true)
}

/// What is in the way at the inputs, whose variables are given, or nothing.
fn fault_of_inputs(
    alloc: Global,
    inputs: &[&IlExp],
    names: &[&Name],
) -> Result<Option<Unordered>, NoMemory>
    requires { names_in names.now ≡ vars_of (exps_in inputs.now) }
    ensures { IfOk result (λ fault. AreInputs (exps_in inputs.now) fault) }
{
    let are = all_are_inputs(alloc, inputs)?;
    if !are {
        return Ok(Some(Unordered {
            premise: 0,
            variable: None,
        }));
    }
    let mut binding = Row::new(alloc);
    push_bound_by(alloc, inputs, &mut binding)?;
    let known = set_of(alloc, binding.as_slice())?;
    if are_known(&known, names) {
        return Ok(None);
    }
    let variable = least_unknown(alloc, &known, names)?;
    Ok(Some(Unordered {
        premise: 0,
        variable,
    }))
}

/// What is in the way of a premise that is left.
fn fault_of_premise(
    alloc: Global,
    left: Numbered,
    selection: &Selection,
) -> Result<Unordered, NoMemory>
    ensures { IfOk result (λ fault. fault ≡ record {
      premise = left.entry.number;
      variable = least (without (names_in selection.now.bound.keys) (prem_vars left.entry.premise.now));
    }) }
{
    let mut names = Row::new(alloc);
    push_prem_vars(alloc, left.premise, &mut names)?;
    let variable = least_unknown(alloc, &selection.bound, names.as_slice())?;
    let premise = left.number;
    Ok(Unordered { premise, variable })
}

/// What is in the way at the outputs, or nothing.
fn fault_of_outputs(
    alloc: Global,
    outputs: &[&IlExp],
    selection: &Selection,
) -> Result<Option<Unordered>, NoMemory>
    requires { selection.now.left ≡ [] }
    ensures { IfOk result (λ fault. Ends (exps_in outputs.now) (told_of selection.now) fault) }
{
    let mut names = Row::new(alloc);
    push_vars_of(alloc, outputs, &mut names)?;
    let names = names.as_slice();
    if are_known(&selection.bound, names) {
        return Ok(None);
    }
    let variable = least_unknown(alloc, &selection.bound, names)?;
    Ok(Some(Unordered {
        premise: 0,
        variable,
    }))
}

/// What is in the way once no premise can be taken any more, or nothing.
fn fault_of_selection(
    alloc: Global,
    outputs: &[&IlExp],
    selection: &Selection,
) -> Result<Option<Unordered>, NoMemory>
    ensures { IfOk result (λ fault. Ends (exps_in outputs.now) (told_of selection.now) fault) }
{
    let first = selection.left.get(0);
    let Some(first) = first else {
        return fault_of_outputs(alloc, outputs, selection);
    };
    let fault = fault_of_premise(alloc, *first, selection)?;
    Ok(Some(fault))
}

/// The order in which the premises of a rule are run, or what is in the way.
pub fn order_by(
    alloc: Global,
    directions: &Directions,
    rule: &RuleDef,
) -> Result<Result<Row<u32>, Unordered>, NoMemory>
    requires directions { AreDirections directions.now }
    requires few { length rule.now.premises < 2 ^ 32 }
    ensures { IfOk result (λ order. order ≡ order_of directions.now.il.now rule.now) }
{
    let mask = mask_under(directions, &rule.relation);
    let conclusion = rule.conclusion.as_slice();
    let inputs = at_holes(alloc, mask, true, conclusion)?;
    let inputs = inputs.as_slice();
    let mut names = Row::new(alloc);
    push_vars_of(alloc, inputs, &mut names)?;
    let names = names.as_slice();
    let wrong = fault_of_inputs(alloc, inputs, names)?;
    if let Some(wrong) = wrong {
        return Ok(Err(wrong));
    }
    let premises = rule.premises.as_slice();
    let selection = select(alloc, directions, premises, names)?;
    let outputs = at_holes(alloc, mask, false, conclusion)?;
    let outputs = outputs.as_slice();
    let open = fault_of_selection(alloc, outputs, &selection)?;
    if let Some(open) = open {
        return Ok(Err(open));
    }
    Ok(Ok(selection.order))
}

/// The same for a rule of this internal language.
fn order_of(alloc: Global, il: &Il, rule: &RuleDef) -> Result<Result<Row<u32>, Unordered>, NoMemory>
    requires { length rule.now.premises < 2 ^ 32 }
    ensures { IfOk result (λ order. order ≡ order_of il.now rule.now) }
{
    let directions = directions_of(alloc, il)?;
    let order = order_by(alloc, &directions, rule)?;
    Ok(order)
}

/// The refusal by what is in the way.
fn refused(fault: Unordered) -> OrderFault
    ensures { result ≡ OrderFault.Unordered fault.premise fault.variable }
{
    let Unordered { premise, variable } = fault;
    OrderFault::Unordered { premise, variable }
}

/// Whether the internal language has a rule of this number of the relation of this number, of fewer
/// than 2^32 premises. Both are numbered from 0, in the order of the source.
pub fn has_rule(alloc: Global, il: &Il, relation: u32, rule: u32) -> Result<bool, NoMemory>
    ensures { IfOk result (λ has. IsTrue has ↔ IsRule (rule_at il.now relation rule)) }
{
    let found = rule_at(alloc, il, relation, rule)?;
    let Some(found) = found else {
        return Ok(false);
    };
    Ok(found.premises.len() <= u32::MAX as usize)
}

/// The order in which the premises of a rule are run, by their numbers, counted from 1. The
/// relation and the rule are numbered from 0, in the order of the source. In an undirected relation
/// all holes are inputs.
pub fn order_rule(alloc: Global, il: &Il, relation: u32, rule: u32) -> Result<Row<u32>, OrderFault>
    requires { IsRule (rule_at il.now relation rule) }
    ensures order { (r : RuleDef) → rule_at il.now relation rule ≡ Some r
        → IsAnswer (order_of il.now r) result }
    ensures exact { (r : RuleDef) → rule_at il.now relation rule ≡ Some r
        → IsExact il.now r result }
{
    let found = rule_at(alloc, il, relation, rule)?;
    let Some(found) = found else {
        unreachable!();
    };
    let order = order_of(alloc, il, found)?;
    match order {
        Ok(order) => Ok(order),
        Err(fault) => Err(refused(fault)),
    }
}
