//! The algorithm of a rule in an order, and that of a clause.

ghost use Rattle.std.specs.Prelude.{◌≡◌, ◌++◌, IfOk, OnOk};
ghost use Rattle.st_semantics.specs.Variables.{prem_vars};
ghost use Rattle.st_order.specs.inner.Index.{names_in, SameNames};
ghost use Rattle.st_order.specs.Known.{AreDirections, all_now};
ghost use Rattle.st_order.specs.inner.Parts.{exps_in};
ghost use Rattle.st_algo.specs.Lowered.{step_of, steps_of, algorithm_of, rule_algorithm, clause_algorithm};

use crate::algorithm::{AlgoStep, Algorithm};
use crate::copy::copy_refs;
use crate::references::{expressions, in_order, premises};
use crate::step::step_of;
use indexmap::IndexSet;
use st_il::{ClauseDef, IlExp, IlPrem, RuleDef};
use st_num::{Name, NoMemory, Row};
use st_order::directed::at_holes;
use st_order::index::{add_all, set_of};
use st_order::masks::{Directions, mask_under};
use st_order::variables::{push_prem_vars, push_vars_of};
use std::alloc::Global;

/// Adds the variables of a premise to those that are bound.
fn bind<'a>(alloc: Global, prem: &'a IlPrem, bound: &mut IndexSet<&'a Name>) -> Result<(), NoMemory>
    ensures { OnOk result (SameNames (names_in bound.new.keys)
        (names_in bound.old.keys ++ prem_vars prem.now)) }
{
    let mut names = Row::new(alloc);
    push_prem_vars(alloc, prem, &mut names)?;
    add_all(bound, names.as_slice())?;
    Ok(())
}

/// Adds the steps of premises that are run one after another, where these variables are bound at
/// first.
fn push_steps<'a>(
    alloc: Global,
    directions: &Directions,
    prems: &[&'a IlPrem],
    bound: &mut IndexSet<&'a Name>,
    steps: &mut Row<AlgoStep>,
) -> Result<(), NoMemory>
    requires { AreDirections directions.now }
    ensures { OnOk result (steps.new ≡ steps.old
        ++ steps_of directions.now.il.now (names_in bound.old.keys) (all_now prems.now)) }
{
    for prem in prems {
        let step = step_of(alloc, directions, &*bound, *prem)?;
        steps.push(step)?;
        bind(alloc, *prem, bound)?;
    }
    Ok(())
}

/// The algorithm of this name: what comes in is matched with the heads, the premises are run in
/// this order, and the results are given.
fn algorithm_of<'a>(
    alloc: Global,
    directions: &Directions,
    name: &Name,
    heads: &[&'a IlExp],
    prems: &[&'a IlPrem],
    results: &[&IlExp],
) -> Result<Algorithm, NoMemory>
    requires { AreDirections directions.now }
    ensures { IfOk result (λ algorithm. algorithm ≡ algorithm_of directions.now.il.now name.now
        (exps_in heads.now) (all_now prems.now) (exps_in results.now)) }
{
    let mut names = Row::new(alloc);
    push_vars_of(alloc, heads, &mut names)?;
    let mut bound = set_of(alloc, names.as_slice())?;
    let mut steps = Row::new(alloc);
    let heads = copy_refs(alloc, heads)?;
    steps.push(AlgoStep::Match(heads))?;
    let results = copy_refs(alloc, results)?;
    push_steps(alloc, directions, prems, &mut bound, &mut steps)?;
    steps.push(AlgoStep::Give(results))?;
    let name = name.copy(alloc)?;
    Ok(Algorithm { name, steps })
}

/// The algorithm of a rule whose premises are run in this order.
pub(crate) fn rule_algorithm(
    alloc: Global,
    directions: &Directions,
    rule: &RuleDef,
    order: &[u32],
) -> Result<Algorithm, NoMemory>
    requires { AreDirections directions.now }
    ensures { IfOk result (λ algorithm. algorithm
        ≡ rule_algorithm directions.now.il.now rule.now order.now) }
{
    let mask = mask_under(directions, &rule.relation);
    let conclusion = rule.conclusion.as_slice();
    let heads = at_holes(alloc, mask, true, conclusion)?;
    let heads = heads.as_slice();
    let results = at_holes(alloc, mask, false, conclusion)?;
    let results = results.as_slice();
    let written = rule.premises.as_slice();
    let prems = in_order(alloc, written, order)?;
    let prems = prems.as_slice();
    let algorithm = algorithm_of(alloc, directions, &rule.name, heads, prems, results)?;
    Ok(algorithm)
}

/// The algorithm of a clause, whose premises are run as they are written.
pub(crate) fn clause_algorithm(
    alloc: Global,
    directions: &Directions,
    clause: &ClauseDef,
) -> Result<Algorithm, NoMemory>
    requires { AreDirections directions.now }
    ensures { IfOk result (λ algorithm. algorithm
        ≡ clause_algorithm directions.now.il.now clause.now) }
{
    let args = clause.args.as_slice();
    let heads = expressions(alloc, args)?;
    let heads = heads.as_slice();
    let written = clause.premises.as_slice();
    let prems = premises(alloc, written)?;
    let prems = prems.as_slice();
    let mut results = Row::new(alloc);
    results.push(&clause.result)?;
    let results = results.as_slice();
    let algorithm = algorithm_of(alloc, directions, &clause.fun, heads, prems, results)?;
    Ok(algorithm)
}
