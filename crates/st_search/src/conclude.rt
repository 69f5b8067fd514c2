//! The outputs at the ends of runs, each with the tree of the run.

ghost use Rattle.std.specs.Prelude.{◌≡◌, ◌<◌, ◌^◌, ℕ, List, length, IfOk, IfErr, OnOk, MatchOption};
ghost use Rattle.std.specs.List.{AllByRecursion};
ghost use Rattle.st_semantics.specs.declared.outcome.Outcome.TheVariants as variant;
ghost use Rattle.st_il.specs.Definitions.{syntaxes, IsRelation};
ghost use Rattle.st_semantics.specs.Formed.{AreFormed};
ghost use Rattle.st_semantics.specs.Orders.{outputs_of_rule, in_order};
ghost use Rattle.st_semantics.specs.Evaluation.{tasks};
ghost use Rattle.st_semantics.specs.Holding.{HaveValues};
ghost use Rattle.st_semantics.specs.Calls.{has_value_at};
ghost use Rattle.st_semantics.specs.Goals.{Goal};
ghost use Rattle.st_search.specs.Searchable.{CanBeRun};
ghost use Rattle.st_search.specs.declared.found.Partial.{Partial};
ghost use Rattle.st_search.specs.inner.Chains.{EndsBehind};
ghost use Rattle.st_search.specs.inner.Lists.{Exists};
ghost use Rattle.st_search.specs.inner.Sought.{Finds, StopsIf, sought_from};
ghost use Rattle.st_search.specs.inner.Holes.{SomeGives};
ghost use Rattle.st_search.specs.inner.Rules.{IsPartial};
ghost use Rattle.st_search.specs.inner.Running.{end_seeks, IsRuleOf, IsPlace};
ghost use Rattle.st_search.specs.inner.Search.{IsSearch};

use crate::answer::{Output, SearchFault};
use crate::found::{Partial, joined};
use crate::orders::order_of;
use crate::setting::{Search, outcome_of};
use crate::stop::{Stop, at_premise};
use crate::tree::{Place, tree_of};
use st_il::{Env, IlExp, RuleDef, Value};
use st_num::Row;
use st_order::masks::mask_under;
use st_semantics::Outcome;
use std::alloc::Global;

/// The values of some expressions, if all have one. All of them are evaluated.
fn each_value(
    alloc: Global,
    search: &Search<'_>,
    env: &Env,
    exps: &[IlExp],
) -> Result<Option<Row<Value>>, Stop>
    requires search { IsSearch search.now }
    requires formed { AreFormed (syntaxes search.now.setting.index.now) exps.now }
    ensures found { IfOk result (λ found. MatchOption found
        (SomeGives search.now.setting.index.now search.now.setting.depth env.now exps.now
        variant.NoValue)
        (λ values. HaveValues
        (has_value_at search.now.setting.index.now search.now.setting.depth)
        (tasks env.now exps.now) values)) }
    ensures quiet { OnOk result (SomeGives search.now.setting.index.now search.now.setting.depth
        env.now exps.now variant.Deep → ⊥) }
    ensures stops { IfErr result (λ stop. StopsIf (SomeGives search.now.setting.index.now
        search.now.setting.depth env.now exps.now variant.Deep) stop) }
{
    let mut values = Row::new(alloc);
    let mut whole = true;
    for exp in exps {
        let outcome = outcome_of(alloc, search, env, exp)?;
        match outcome {
            Outcome::Val(value) => values.push(value)?,
            Outcome::NoValue => whole = false,
            Outcome::Deep => return Err(Stop::Meets),
        }
    }
    if whole { Ok(Some(values)) } else { Ok(None) }
}

/// The output at the end of a run, if what stands at the outputs has values.
fn given(
    alloc: Global,
    search: &Search<'_>,
    place: &Place<'_>,
    outs: &[IlExp],
    inputs: &[Value],
    end: &Partial,
) -> Result<Row<Output>, Stop>
    requires search { IsSearch search.now }
    requires rule { CanBeRun search.now.setting.index.now place.now.rule.now }
    requires outputs { outs.now
        ≡ outputs_of_rule search.now.setting.index.now place.now.rule.now }
    ensures found { IfOk result (λ found. (g : Goal) → g.inputs ≡ inputs.now
        → IsPlace search.now.setting.index.now g.relation place.now
        → IsPartial search.now.setting.index.now search.now.setting.depth g place.now.number
        place.now.rule.now (in_order place.now.rule.now.premises place.now.order.now) end.now
        → Finds search.now.setting.index.now search.now.setting.depth 0
        (end_seeks search.now.setting.index.now search.now.setting.depth g place.now.rule.now
        end.now) found) }
    ensures stops { IfErr result (λ stop. StopsIf (SomeGives search.now.setting.index.now
        search.now.setting.depth end.now.env outs.now variant.Deep) stop) }
{
    let mut found = Row::new(alloc);
    let values = each_value(alloc, search, &end.env, outs)?;
    match values {
        None => Ok(found),
        Some(values) => {
            let types = search.setting.types;
            let tree = tree_of(alloc, types, place, inputs, values.as_slice(), end)?;
            found.push(Output { values, tree })?;
            Ok(found)
        }
    }
}

/// The outputs at the ends of all runs.
fn all_given(
    alloc: Global,
    search: &Search<'_>,
    place: &Place<'_>,
    outs: &[IlExp],
    inputs: &[Value],
    ends: &[Partial],
) -> Result<Row<Output>, Stop>
    requires search { IsSearch search.now }
    requires rule { CanBeRun search.now.setting.index.now place.now.rule.now }
    requires outputs { outs.now
        ≡ outputs_of_rule search.now.setting.index.now place.now.rule.now }
    ensures found { IfOk result (λ found. (g : Goal) → g.inputs ≡ inputs.now
        → IsPlace search.now.setting.index.now g.relation place.now
        → AllByRecursion (IsPartial search.now.setting.index.now search.now.setting.depth g
        place.now.number place.now.rule.now
        (in_order place.now.rule.now.premises place.now.order.now)) ends.now
        → Finds search.now.setting.index.now search.now.setting.depth 0
        (sought_from (end_seeks search.now.setting.index.now search.now.setting.depth g
        place.now.rule.now) ends.now) found) }
    ensures stops { IfErr result (λ stop. StopsIf (Exists (λ (end : Partial).
        SomeGives search.now.setting.index.now search.now.setting.depth end.env outs.now
        variant.Deep) ends.now) stop) }
{
    let mut found = Row::new(alloc);
    for end in ends {
        let more = given(alloc, search, place, outs, inputs, end)?;
        found = joined(found, more)?;
    }
    Ok(found)
}

/// The outputs at the ends of all runs of a rule. The order of its premises is told only where there
/// is an end.
pub(crate) fn concluded(
    alloc: Global,
    search: &Search<'_>,
    relation: u32,
    number: u32,
    rule: &RuleDef,
    outs: &[IlExp],
    inputs: &[Value],
    ends: &[Partial],
) -> Result<Row<Output>, SearchFault>
    requires search { IsSearch search.now }
    requires rule { CanBeRun search.now.setting.index.now rule.now }
    requires few { length rule.now.premises < 2 ^ 32 }
    requires outputs { outs.now ≡ outputs_of_rule search.now.setting.index.now rule.now }
    ensures found { IfOk result (λ found. (g : Goal) (order : List ℕ) → g.inputs ≡ inputs.now
        → IsRelation search.now.setting.index.now relation g.relation
        → IsRuleOf search.now.setting.index.now g.relation number rule.now order
        → AllByRecursion (IsPartial search.now.setting.index.now search.now.setting.depth g number
        rule.now (in_order rule.now.premises order)) ends.now
        → Finds search.now.setting.index.now search.now.setting.depth 0
        (sought_from (end_seeks search.now.setting.index.now search.now.setting.depth g rule.now)
        ends.now) found) }
    ensures ends { IfErr result (λ fault. (left : ℕ) (g : Goal) (order : List ℕ)
        → IsRuleOf search.now.setting.index.now g.relation number rule.now order
        → AllByRecursion (IsPartial search.now.setting.index.now search.now.setting.depth g number
        rule.now (in_order rule.now.premises order)) ends.now
        → EndsBehind search.now.setting.index.now search.now.setting.depth left g fault) }
{
    if ends.is_empty() {
        return Ok(Row::new(alloc));
    }
    let order = order_of(alloc, search, rule)?;
    let order = order.as_slice();
    let holes = mask_under(search.directions, &rule.relation);
    let place = Place {
        relation,
        number,
        rule,
        order,
        holes,
    };
    let found = all_given(alloc, search, &place, outs, inputs, ends);
    let found = at_premise(alloc, rule, 0, found)?;
    Ok(found)
}
