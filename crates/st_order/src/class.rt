//! In which class a premise can be run where some variables are bound.

ghost use Rattle.std.specs.Prelude.{◌≡◌, ◌++◌, IfOk};
ghost use Rattle.std.specs.List.{list_any, list_all};
ghost use Rattle.std.specs.Option.{option_map};
ghost use Rattle.st_il.specs.declared.expression.IlExp.{out-IlExp};
ghost use Rattle.st_il.specs.Names.{all_known};
ghost use Rattle.st_semantics.specs.Iterations.{count_of};
ghost use Rattle.st_semantics.specs.Variables.{vars, vars_of};
ghost use Rattle.st_semantics.specs.Patterns.{binds, bound_by};
ghost use Rattle.st_semantics.specs.Directions.{inputs_by, outputs_by};
ghost use Rattle.st_semantics.specs.Executable.{is_matched, is_met, class_of, class_of_condition, class_of_sides, class_of_goal, is_anchored, is_countable, is_variable_at, bound_inside};
ghost use Rattle.st_order.specs.inner.Index.{names_in, SameNames};
ghost use Rattle.st_order.specs.Known.{AreDirections};
ghost use Rattle.st_order.specs.inner.Parts.{exps_in};
ghost use Rattle.st_order.specs.inner.Classes.{kind, others, IsInside};

use crate::bindings::{push_bound, push_bound_by};
use crate::directed::at_holes;
use crate::index::{are_known, are_known_by_both, is_any_known, push_known, push_unknown, set_of};
use crate::masks::{Directions, mask_under};
use crate::variables::{
    push_index, push_names, push_others, push_prem_vars, push_refs, push_vars, push_vars_of,
};
use indexmap::IndexSet;
use st_il::{IlExp, IlPrem, Iteration};
use st_num::{Name, NoMemory, Row};
use st_semantics::is_pattern;
use std::alloc::Global;

/// The class of a premise that can be run.
#[derive(Clone, Copy, Debug, PartialEq, Eq)]
pub enum Class {
    Test,
    Equation,
    Goal,
}

/// Whether all variables of an expression are bound.
pub fn is_bound(alloc: Global, bound: &IndexSet<&Name>, exp: &IlExp) -> Result<bool, NoMemory>
    ensures { IfOk result (λ is. is ≡ all_known (names_in bound.now.keys) (vars exp.now)) }
{
    let mut names = Row::new(alloc);
    push_vars(alloc, exp, &mut names)?;
    Ok(are_known(bound, names.as_slice()))
}

/// Whether all variables of several expressions are bound.
fn are_bound(alloc: Global, bound: &IndexSet<&Name>, exps: &[&IlExp]) -> Result<bool, NoMemory>
    ensures { IfOk result (λ are. are
        ≡ all_known (names_in bound.now.keys) (vars_of (exps_in exps.now))) }
{
    let mut names = Row::new(alloc);
    push_vars_of(alloc, exps, &mut names)?;
    Ok(are_known(bound, names.as_slice()))
}

/// Whether all variables of an expression are bound by the one or the other.
fn is_bound_by_both(
    alloc: Global,
    bound: &IndexSet<&Name>,
    more: &IndexSet<&Name>,
    exp: &IlExp,
) -> Result<bool, NoMemory>
    ensures { IfOk result (λ is. is
        ≡ all_known (names_in bound.now.keys ++ names_in more.now.keys) (vars exp.now)) }
{
    let mut names = Row::new(alloc);
    push_vars(alloc, exp, &mut names)?;
    Ok(are_known_by_both(bound, more, names.as_slice()))
}

/// Whether each variable of a pattern is bound, or bound by it.
fn is_bound_by_itself(
    alloc: Global,
    bound: &IndexSet<&Name>,
    pattern: &IlExp,
) -> Result<bool, NoMemory>
    ensures { IfOk result (λ is. is
        ≡ all_known (names_in bound.now.keys ++ binds pattern.now) (vars pattern.now)) }
{
    let mut names = Row::new(alloc);
    push_bound(alloc, pattern, &mut names)?;
    let more = set_of(alloc, names.as_slice())?;
    let is = is_bound_by_both(alloc, bound, &more, pattern)?;
    Ok(is)
}

/// Whether the one side can be evaluated and the other one matched.
pub fn is_matched(
    alloc: Global,
    bound: &IndexSet<&Name>,
    exp: &IlExp,
    pattern: &IlExp,
) -> Result<bool, NoMemory>
    ensures { IfOk result (λ is. is
        ≡ is_matched (names_in bound.now.keys) exp.now pattern.now) }
{
    if !is_bound(alloc, bound, exp)? {
        return Ok(false);
    }
    if !is_pattern(pattern) {
        return Ok(false);
    }
    is_bound_by_itself(alloc, bound, pattern)
}

/// The class of an equation of these sides, one of which is unbound.
fn class_of_sides(
    alloc: Global,
    bound: &IndexSet<&Name>,
    left: &IlExp,
    right: &IlExp,
) -> Result<Option<Class>, NoMemory>
    ensures { IfOk result (λ class. class
        ≡ kind (class_of_sides (names_in bound.now.keys) left.now right.now)) }
{
    if is_matched(alloc, bound, left, right)? {
        return Ok(Some(Class::Equation));
    }
    if is_matched(alloc, bound, right, left)? {
        return Ok(Some(Class::Equation));
    }
    Ok(None)
}

/// The class of a condition.
fn class_of_condition(
    alloc: Global,
    bound: &IndexSet<&Name>,
    exp: &IlExp,
) -> Result<Option<Class>, NoMemory>
    ensures { IfOk result (λ class. class
        ≡ kind (class_of_condition (names_in bound.now.keys) exp.now)) }
{
    if is_bound(alloc, bound, exp)? {
        return Ok(Some(Class::Test));
    }
    match exp {
        IlExp::Eq(left, right) => class_of_sides(alloc, bound, left.get(), right.get()),
        _ => Ok(None),
    }
}

/// Whether an output is bound, or a pattern whose variables are bound or bound by the outputs.
fn is_met(
    alloc: Global,
    bound: &IndexSet<&Name>,
    more: &IndexSet<&Name>,
    exp: &IlExp,
) -> Result<bool, NoMemory>
    ensures { IfOk result (λ is. is ≡ is_met (names_in bound.now.keys)
        (names_in bound.now.keys ++ names_in more.now.keys) exp.now) }
{
    if is_bound(alloc, bound, exp)? {
        return Ok(true);
    }
    if !is_pattern(exp) {
        return Ok(false);
    }
    is_bound_by_both(alloc, bound, more, exp)
}

/// Whether all outputs are so, where they bind these variables.
fn are_met_with(
    alloc: Global,
    bound: &IndexSet<&Name>,
    more: &IndexSet<&Name>,
    exps: &[&IlExp],
) -> Result<bool, NoMemory>
    ensures { IfOk result (λ are. are ≡ list_all (is_met (names_in bound.now.keys)
        (names_in bound.now.keys ++ names_in more.now.keys)) (exps_in exps.now)) }
{
    for exp in exps {
        if !is_met(alloc, bound, more, *exp)? {
            return Ok(false);
        }
    }
    Ok(true)
}

/// Whether all outputs are bound, or patterns whose variables are bound or bound by the outputs.
fn are_outputs_met(
    alloc: Global,
    bound: &IndexSet<&Name>,
    exps: &[&IlExp],
) -> Result<bool, NoMemory>
    ensures { IfOk result (λ are. are ≡ list_all (is_met (names_in bound.now.keys)
        (names_in bound.now.keys ++ bound_by (exps_in exps.now))) (exps_in exps.now)) }
{
    let mut names = Row::new(alloc);
    push_bound_by(alloc, exps, &mut names)?;
    let more = set_of(alloc, names.as_slice())?;
    let are = are_met_with(alloc, bound, &more, exps)?;
    Ok(are)
}

/// The class of a goal.
fn class_of_goal(
    alloc: Global,
    mask: &[bool],
    bound: &IndexSet<&Name>,
    exps: &[IlExp],
) -> Result<Option<Class>, NoMemory>
    ensures { IfOk result (λ class. class ≡ kind (class_of_goal (names_in bound.now.keys)
        (inputs_by mask.now exps.now) (outputs_by mask.now exps.now))) }
{
    let inputs = at_holes(alloc, mask, true, exps)?;
    if !are_bound(alloc, bound, inputs.as_slice())? {
        return Ok(None);
    }
    let outputs = at_holes(alloc, mask, false, exps)?;
    if !are_outputs_met(alloc, bound, outputs.as_slice())? {
        return Ok(None);
    }
    Ok(Some(Class::Goal))
}

/// Whether the count of an iteration, where it has one, is bound.
fn is_count_bound(alloc: Global, bound: &IndexSet<&Name>, how: &Iteration) -> Result<bool, NoMemory>
    ensures { IfOk result (λ is. is
        ≡ list_any (λ e. all_known (names_in bound.now.keys) (vars e)) (count_of how.now)) }
{
    match how {
        Iteration::Star | Iteration::Plus | Iteration::Quest => Ok(false),
        Iteration::Times(count) | Iteration::Below(_, count) => {
            is_bound(alloc, bound, count.get())
        }
    }
}

/// Whether the expression is a variable.
fn is_variable(exp: &IlExp) -> bool
    ensures { result ≡ is_variable_at (out-IlExp exp.now) }
{
    match exp {
        IlExp::Var(_) => true,
        _ => false,
    }
}

/// Whether the count of an iteration is bound or a variable, where it has one.
fn is_countable(alloc: Global, bound: &IndexSet<&Name>, how: &Iteration) -> Result<bool, NoMemory>
    ensures { IfOk result (λ is. is
        ≡ list_all (is_countable (names_in bound.now.keys)) (count_of how.now)) }
{
    match how {
        Iteration::Star | Iteration::Plus | Iteration::Quest => Ok(true),
        Iteration::Times(count) | Iteration::Below(_, count) => {
            if is_bound(alloc, bound, count.get())? {
                return Ok(true);
            }
            Ok(is_variable(count.get()))
        }
    }
}

/// Whether an iterated variable or the whole count is bound.
fn is_anchored(
    alloc: Global,
    bound: &IndexSet<&Name>,
    how: &Iteration,
    listed: &[&Name],
) -> Result<bool, NoMemory>
    ensures { IfOk result (λ is. is
        ≡ is_anchored (names_in bound.now.keys) how.now (names_in listed.now)) }
{
    if is_any_known(bound, listed) {
        return Ok(true);
    }
    is_count_bound(alloc, bound, how)
}

/// The variables of what is iterated that are neither iterated nor the index.
pub fn others<'a>(
    alloc: Global,
    how: &Iteration,
    listed: &[&Name],
    body: &'a IlPrem,
) -> Result<Row<&'a Name>, NoMemory>
    ensures { IfOk result (λ names. names_in names
        ≡ others how.now (names_in listed.now) body.now) }
{
    let mut inner = Row::new(alloc);
    push_prem_vars(alloc, body, &mut inner)?;
    let mut without_index = Row::new(alloc);
    push_others(how, inner.as_slice(), &mut without_index)?;
    let listed = set_of(alloc, listed)?;
    let mut names = Row::new(alloc);
    push_unknown(&listed, without_index.as_slice(), &mut names)?;
    Ok(names)
}

/// What is bound inside an iteration.
pub fn bound_inside<'a>(
    alloc: Global,
    bound: &IndexSet<&Name>,
    how: &'a Iteration,
    listed: &[&'a Name],
    others: &[&'a Name],
) -> Result<IndexSet<&'a Name>, NoMemory>
    ensures { IfOk result (λ inside. SameNames (names_in inside.keys)
        (bound_inside (names_in bound.now.keys) how.now (names_in listed.now) (names_in others.now))) }
{
    let mut names = Row::new(alloc);
    push_known(bound, listed, &mut names)?;
    push_refs(others, &mut names)?;
    push_index(how, &mut names)?;
    let inside = set_of(alloc, names.as_slice())?;
    Ok(inside)
}

/// What is bound inside an iterated premise; none where it cannot be run.
pub fn inside_each<'a>(
    alloc: Global,
    bound: &IndexSet<&Name>,
    how: &'a Iteration,
    list: &'a [Name],
    body: &'a IlPrem,
) -> Result<Option<IndexSet<&'a Name>>, NoMemory>
    ensures { IfOk result (λ inside. IsInside (names_in bound.now.keys) how.now list.now body.now
        (option_map (λ set. names_in set.keys) inside)) }
{
    let mut listed = Row::new(alloc);
    push_names(list, &mut listed)?;
    let listed = listed.as_slice();
    let anchored = is_anchored(alloc, bound, how, listed)?;
    if !anchored {
        return Ok(None);
    }
    let countable = is_countable(alloc, bound, how)?;
    if !countable {
        return Ok(None);
    }
    let rest = others(alloc, how, listed, body)?;
    let rest = rest.as_slice();
    if !are_known(bound, rest) {
        return Ok(None);
    }
    let inside = bound_inside(alloc, bound, how, listed, rest)?;
    Ok(Some(inside))
}

/// The class in which a premise can be run where these variables are bound; none if it cannot.
pub fn class_of<'a>(
    alloc: Global,
    directions: &Directions,
    bound: &IndexSet<&'a Name>,
    prem: &'a IlPrem,
) -> Result<Option<Class>, NoMemory>
    requires { AreDirections directions.now }
    ensures { IfOk result (λ class. class
        ≡ kind (class_of directions.now.il.now (names_in bound.now.keys) prem.now)) }
{
    match prem {
        IlPrem::If(exp) => {
            let condition = class_of_condition(alloc, bound, exp)?;
            Ok(condition)
        }
        IlPrem::Goal(relation, exps) => {
            let mask = mask_under(&*directions, &*relation);
            let exps = exps.as_slice();
            let judgement = class_of_goal(alloc, mask, bound, exps)?;
            Ok(judgement)
        }
        IlPrem::Otherwise => Ok(Some(Class::Test)),
        IlPrem::Each(how, list, body) => {
            let list = list.as_slice();
            let body = body.get();
            let inside = inside_each(alloc, bound, how, list, body)?;
            let Some(inside) = inside else {
                return Ok(None);
            };
            let entered = class_of(alloc, directions, &inside, body)?;
            Ok(entered)
        }
    }
}
