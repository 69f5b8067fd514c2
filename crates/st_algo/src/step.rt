//! The step of a premise where some variables are bound.

ghost use Rattle.std.specs.Prelude.{◌≡◌, IfOk};
ghost use Rattle.st_semantics.specs.Directions.{inputs_of, outputs_of};
ghost use Rattle.st_semantics.specs.Executable.{bound_inside};
ghost use Rattle.st_order.specs.inner.Classes.{others};
ghost use Rattle.st_order.specs.inner.Index.{names_in, SameNames};
ghost use Rattle.st_order.specs.Known.{AreDirections};
ghost use Rattle.st_algo.specs.Lowered.{step_of_sides, step_of_condition, step_of};

use crate::algorithm::AlgoStep;
use crate::copy::copy_refs;
use indexmap::IndexSet;
use st_il::{IlExp, IlPrem, Iteration, copy_exp, copy_iteration};
use st_num::{Boxed, Name, NoMemory, Row, copy_names};
use st_order::class::{bound_inside, is_bound, is_matched, others};
use st_order::directed::at_holes;
use st_order::masks::{Directions, mask_under};
use st_order::variables::push_names;
use std::alloc::Global;

/// The test of a condition.
fn test_of(alloc: Global, exp: &IlExp) -> Result<AlgoStep, NoMemory>
    ensures { IfOk result (λ step. step ≡ AlgoStep.Test exp.now) }
{
    Ok(AlgoStep::Test(copy_exp(alloc, exp)?))
}

/// The match of the value of an expression with a pattern.
fn match_of(alloc: Global, pattern: &IlExp, exp: &IlExp) -> Result<AlgoStep, NoMemory>
    ensures { IfOk result (λ step. step ≡ AlgoStep.Let pattern.now exp.now) }
{
    let pattern = copy_exp(alloc, pattern)?;
    Ok(AlgoStep::Let(pattern, copy_exp(alloc, exp)?))
}

/// The step of an equation of these sides, one of which is unbound.
fn step_of_sides(
    alloc: Global,
    bound: &IndexSet<&Name>,
    exp: &IlExp,
    left: &IlExp,
    right: &IlExp,
) -> Result<AlgoStep, NoMemory>
    ensures { IfOk result (λ step. step
        ≡ step_of_sides (names_in bound.now.keys) exp.now left.now right.now) }
{
    if is_matched(alloc, bound, left, right)? {
        return match_of(alloc, right, left);
    }
    if is_matched(alloc, bound, right, left)? {
        return match_of(alloc, left, right);
    }
    test_of(alloc, exp)
}

/// The step of a condition.
fn step_of_condition(
    alloc: Global,
    bound: &IndexSet<&Name>,
    exp: &IlExp,
) -> Result<AlgoStep, NoMemory>
    ensures { IfOk result (λ step. step ≡ step_of_condition (names_in bound.now.keys) exp.now) }
{
    if is_bound(alloc, bound, exp)? {
        return test_of(alloc, exp);
    }
    match exp {
        IlExp::Eq(left, right) => step_of_sides(alloc, bound, exp, left.get(), right.get()),
        _ => test_of(alloc, exp),
    }
}

/// The step of a goal.
fn step_of_goal(
    alloc: Global,
    directions: &Directions,
    relation: &Name,
    exps: &[IlExp],
) -> Result<AlgoStep, NoMemory>
    requires { AreDirections directions.now }
    ensures { IfOk result (λ step. step ≡ AlgoStep.Goal relation.now
        (inputs_of directions.now.il.now relation.now exps.now)
        (outputs_of directions.now.il.now relation.now exps.now)) }
{
    let mask = mask_under(directions, relation);
    let inputs = at_holes(alloc, mask, true, exps)?;
    let outputs = at_holes(alloc, mask, false, exps)?;
    let relation = relation.copy(alloc)?;
    let inputs = copy_refs(alloc, inputs.as_slice())?;
    let outputs = copy_refs(alloc, outputs.as_slice())?;
    Ok(AlgoStep::Goal(relation, inputs, outputs))
}

/// What is bound inside an iteration.
fn inside_of<'a>(
    alloc: Global,
    bound: &IndexSet<&Name>,
    how: &'a Iteration,
    list: &'a [Name],
    body: &'a IlPrem,
) -> Result<IndexSet<&'a Name>, NoMemory>
    ensures { IfOk result (λ inside. SameNames (names_in inside.keys)
        (bound_inside (names_in bound.now.keys) how.now list.now
        (others how.now list.now body.now))) }
{
    let mut listed = Row::new(alloc);
    push_names(list, &mut listed)?;
    let listed = listed.as_slice();
    let rest = others(alloc, how, listed, body)?;
    let rest = rest.as_slice();
    let inside = bound_inside(alloc, bound, how, listed, rest)?;
    Ok(inside)
}

/// A step for each element of the named lists.
fn loop_of(
    alloc: Global,
    how: &Iteration,
    list: &[Name],
    step: AlgoStep,
) -> Result<AlgoStep, NoMemory>
    ensures { IfOk result (λ whole. whole ≡ AlgoStep.Loop how.now list.now step) }
{
    let how = copy_iteration(alloc, how)?;
    let list = copy_names(alloc, list)?;
    Ok(AlgoStep::Loop(how, list, Boxed::new(alloc, step)?))
}

/// The step of a premise where these variables are bound.
pub(crate) fn step_of<'a>(
    alloc: Global,
    directions: &Directions,
    bound: &IndexSet<&'a Name>,
    prem: &'a IlPrem,
) -> Result<AlgoStep, NoMemory>
    requires { AreDirections directions.now }
    ensures { IfOk result (λ step. step
        ≡ step_of directions.now.il.now (names_in bound.now.keys) prem.now) }
{
    match prem {
        IlPrem::If(exp) => {
            let condition = step_of_condition(alloc, bound, exp)?;
            Ok(condition)
        }
        IlPrem::Goal(relation, exps) => {
            let exps = exps.as_slice();
            let judgement = step_of_goal(alloc, directions, relation, exps)?;
            Ok(judgement)
        }
        IlPrem::Otherwise => Ok(AlgoStep::Otherwise),
        IlPrem::Each(how, list, body) => {
            let list = list.as_slice();
            let body = body.get();
            let inside = inside_of(alloc, bound, how, list, body)?;
            let step = step_of(alloc, directions, &inside, body)?;
            let whole = loop_of(alloc, how, list, step)?;
            Ok(whole)
        }
    }
}
