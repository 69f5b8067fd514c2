//! Rules that are run: from the environments in which the inputs match, step by step, to the outputs.

ghost use Rattle.std.specs.Prelude.{◌≡◌, ◌<◌, ◌^◌, ◌++◌, ◌∷◌, [], ℕ, List, length, IfOk, IfErr, MatchOption};
ghost use Rattle.st_il.specs.declared.expression.IlExp.{IlExp};
ghost use Rattle.st_il.specs.Names.{Name};
ghost use Rattle.st_il.specs.Definitions.{IsRelation};
ghost use Rattle.st_semantics.specs.Orders.{inputs_of_rule, outputs_of_rule, in_order};
ghost use Rattle.st_semantics.specs.Variables.{vars_of};
ghost use Rattle.st_semantics.specs.Goals.{Goal};
ghost use Rattle.st_semantics.specs.RuleDepth.{no_variables};
ghost use Rattle.st_algo.specs.declared.algorithm.AlgoStep.{AlgoStep};
ghost use Rattle.st_algo.specs.declared.algorithm.AlgoStep.TheVariants as step;
ghost use Rattle.st_search.specs.declared.holes.Evaluated.TheVariants as evaluated;
ghost use Rattle.st_search.specs.Searchable.{CanBeRun};
ghost use Rattle.st_search.specs.inner.Chains.{EndsBehind};
ghost use Rattle.st_search.specs.declared.found.Partial.{Partial};
ghost use Rattle.st_search.specs.inner.Sought.{Finds};
ghost use Rattle.st_search.specs.inner.Holes.{HasDeepHole};
ghost use Rattle.st_search.specs.inner.Rules.{IsRuledBy, CanBeSearched, run_seeks, rule_seeks};
ghost use Rattle.st_search.specs.inner.Running.{AllEndWith, IsRuleOf, AreSteps};
ghost use Rattle.st_search.specs.inner.Contracts.{IsShort};
ghost use Rattle.st_search.specs.inner.Search.{IsSearch, AnswersGoals};

use crate::advance::run_from_all;
use crate::answer::{Output, SearchFault};
use crate::conclude::concluded;
use crate::finder::Finder;
use crate::found::{Found, Partial, greater, nothing};
use crate::orders::at_position;
use crate::setting::Search;
use crate::start::matched;
use crate::stop::at_premise;
use st_algo::{AlgoStep, Algorithm};
use st_il::{IlExp, RuleDef, Value};
use st_num::Row;
use std::alloc::Global;

/// The parts of the algorithm of a rule.
#[derive(Clone, Copy)]
struct Parts<'a> {
    inputs: &'a [IlExp],
    steps: &'a [AlgoStep],
    outputs: &'a [IlExp],
}

/// The parts of an algorithm, if it is one of a rule.
fn parts_of(algorithm: &Algorithm) -> Option<Parts>
    ensures { MatchOption result
        ((ins outs : List IlExp) (steps : List AlgoStep)
        → algorithm.now.steps ≡ step.Match ins ∷ (steps ++ step.Give outs ∷ []) → ⊥)
        (λ parts. algorithm.now.steps
        ≡ step.Match parts.inputs.now ∷ (parts.steps.now ++ step.Give parts.outputs.now ∷ [])) }
{
    let (first, rest) = algorithm.steps.as_slice().split_first()?;
    let (last, steps) = rest.split_last()?;
    let AlgoStep::Match(inputs) = first else {
        return None;
    };
    let AlgoStep::Give(outputs) = last else {
        return None;
    };
    Some(Parts {
        inputs: inputs.as_slice(),
        steps,
        outputs: outputs.as_slice(),
    })
}

/// The ends of all runs of a rule.
fn run_steps<F: Finder>(
    alloc: Global,
    search: &Search<'_>,
    finder: &F,
    rule: &RuleDef,
    steps: &[AlgoStep],
    starts: Row<Partial>,
) -> Result<Found<Partial>, SearchFault>
    requires search { IsSearch search.now }
    requires callable { F.IsCallable finder.now }
    requires rule { CanBeRun search.now.setting.index.now rule.now }
    requires few { length rule.now.premises < 2 ^ 32 }
    requires steps { AreSteps search.now.setting.index.now rule.now steps.now }
    requires starts { AllEndWith search.now.setting.index.now rule.now.variables
        (vars_of (inputs_of_rule search.now.setting.index.now rule.now)) starts }
    ensures short { IfOk result (λ found. IsShort search.now.setting.index.now
        search.now.setting.depth (F.answers finder.now) found.longest) }
    ensures found { IfOk result (λ found. (left : ℕ) (g : Goal) (number : ℕ) (order : List ℕ)
        → AnswersGoals search.now.setting.index.now search.now.setting.depth left
        (F.answers finder.now) → CanBeSearched search.now.setting.index.now g.relation
        → IsRuleOf search.now.setting.index.now g.relation number rule.now order
        → Finds search.now.setting.index.now search.now.setting.depth 0
        (run_seeks search.now.setting.index.now search.now.setting.depth g number rule.now []) starts
        → Finds search.now.setting.index.now search.now.setting.depth found.longest
        (run_seeks search.now.setting.index.now search.now.setting.depth g number rule.now
        (in_order rule.now.premises order)) found.items) }
    ensures ends { IfErr result (λ fault. (left : ℕ) (g : Goal) (number : ℕ) (order : List ℕ)
        → AnswersGoals search.now.setting.index.now search.now.setting.depth left
        (F.answers finder.now) → CanBeSearched search.now.setting.index.now g.relation
        → IsRuleOf search.now.setting.index.now g.relation number rule.now order
        → Finds search.now.setting.index.now search.now.setting.depth 0
        (run_seeks search.now.setting.index.now search.now.setting.depth g number rule.now []) starts
        → EndsBehind search.now.setting.index.now search.now.setting.depth left g fault) }
{
    let variables = rule.variables.as_slice();
    let mut ends = starts;
    let mut longest = 0;
    for i in 0..steps.len() {
        let found = run_from_all(alloc, search, finder, variables, &steps[i], ends.as_slice());
        let found = at_position(alloc, search, rule, i, found)?;
        ends = found.items;
        longest = greater(longest, found.longest);
    }
    Ok(Found {
        items: ends,
        longest,
    })
}

/// What a rule derives whose inputs match.
fn run_matched<F: Finder>(
    alloc: Global,
    search: &Search<'_>,
    finder: &F,
    relation: u32,
    number: u32,
    rule: &RuleDef,
    parts: Parts<'_>,
    inputs: &[Value],
    starts: Row<Partial>,
) -> Result<Found<Output>, SearchFault>
    requires search { IsSearch search.now }
    requires callable { F.IsCallable finder.now }
    requires rule { CanBeRun search.now.setting.index.now rule.now }
    requires few { length rule.now.premises < 2 ^ 32 }
    requires steps { AreSteps search.now.setting.index.now rule.now parts.steps.now }
    requires outputs { parts.outputs.now ≡ outputs_of_rule search.now.setting.index.now rule.now }
    requires starts { AllEndWith search.now.setting.index.now rule.now.variables
        (vars_of (inputs_of_rule search.now.setting.index.now rule.now)) starts }
    ensures short { IfOk result (λ found. IsShort search.now.setting.index.now
        search.now.setting.depth (F.answers finder.now) found.longest) }
    ensures found { IfOk result (λ found. (left : ℕ) (g : Goal) (order : List ℕ)
        → AnswersGoals search.now.setting.index.now search.now.setting.depth left
        (F.answers finder.now) → CanBeSearched search.now.setting.index.now g.relation
        → g.inputs ≡ inputs.now
        → IsRelation search.now.setting.index.now relation g.relation
        → IsRuleOf search.now.setting.index.now g.relation number rule.now order
        → (HasDeepHole search.now.setting.index.now search.now.setting.depth no_variables
        evaluated.Closed (inputs_of_rule search.now.setting.index.now rule.now) → ⊥)
        → Finds search.now.setting.index.now search.now.setting.depth 0
        (run_seeks search.now.setting.index.now search.now.setting.depth g number rule.now []) starts
        → Finds search.now.setting.index.now search.now.setting.depth found.longest
        (rule_seeks search.now.setting.index.now search.now.setting.depth g number rule.now order)
        found.items) }
    ensures ends { IfErr result (λ fault. (left : ℕ) (g : Goal) (order : List ℕ)
        → AnswersGoals search.now.setting.index.now search.now.setting.depth left
        (F.answers finder.now) → CanBeSearched search.now.setting.index.now g.relation
        → IsRuleOf search.now.setting.index.now g.relation number rule.now order
        → Finds search.now.setting.index.now search.now.setting.depth 0
        (run_seeks search.now.setting.index.now search.now.setting.depth g number rule.now []) starts
        → EndsBehind search.now.setting.index.now search.now.setting.depth left g fault) }
{
    let run = run_steps(alloc, search, finder, rule, parts.steps, starts)?;
    let outs = parts.outputs;
    let ends = run.items.as_slice();
    let items = concluded(alloc, search, relation, number, rule, outs, inputs, ends)?;
    let longest = run.longest;
    Ok(Found { items, longest })
}

/// What a rule derives.
pub(crate) fn run_rule<F: Finder>(
    alloc: Global,
    search: &Search<'_>,
    finder: &F,
    relation: u32,
    number: u32,
    rule: &RuleDef,
    algorithm: &Algorithm,
    inputs: &[Value],
) -> Result<Found<Output>, SearchFault>
    requires search { IsSearch search.now }
    requires callable { F.IsCallable finder.now }
    requires ruled { (name : Name)
        × IsRuledBy search.now.setting.index.now name number rule.now algorithm.now }
    ensures short { IfOk result (λ found. IsShort search.now.setting.index.now
        search.now.setting.depth (F.answers finder.now) found.longest) }
    ensures found { IfOk result (λ found. (left : ℕ) (g : Goal) (order : List ℕ)
        → AnswersGoals search.now.setting.index.now search.now.setting.depth left
        (F.answers finder.now) → CanBeSearched search.now.setting.index.now g.relation
        → g.inputs ≡ inputs.now
        → IsRelation search.now.setting.index.now relation g.relation
        → IsRuleOf search.now.setting.index.now g.relation number rule.now order
        → Finds search.now.setting.index.now search.now.setting.depth found.longest
        (rule_seeks search.now.setting.index.now search.now.setting.depth g number rule.now order)
        found.items) }
    ensures ends { IfErr result (λ fault. (left : ℕ) (g : Goal) (order : List ℕ)
        → AnswersGoals search.now.setting.index.now search.now.setting.depth left
        (F.answers finder.now) → CanBeSearched search.now.setting.index.now g.relation
        → g.inputs ≡ inputs.now
        → IsRelation search.now.setting.index.now relation g.relation
        → IsRuleOf search.now.setting.index.now g.relation number rule.now order
        → EndsBehind search.now.setting.index.now search.now.setting.depth left g fault) }
{
    let Some(parts) = parts_of(algorithm) else {
        return Ok(nothing(alloc));
    };
    let starts = matched(alloc, search, rule, parts.inputs, inputs);
    let starts = at_premise(alloc, rule, 0, starts)?;
    if starts.is_empty() {
        return Ok(nothing(alloc));
    }
    let found = run_matched(
        alloc, search, finder, relation, number, rule, parts, inputs, starts,
    )?;
    Ok(found)
}
