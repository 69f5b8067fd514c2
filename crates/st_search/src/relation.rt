//! Relations that are searched: all their rules are run, and what they derive is put in order.

ghost use Rattle.std.specs.Prelude.{◌≡◌, ℕ, Some, slice_get, IfOk, IfErr};
ghost use Rattle.std.specs.Option.{option_copied};
ghost use Rattle.st_il.specs.Names.{Name};
ghost use Rattle.st_il.specs.Definitions.{IsRelation, rules_of};
ghost use Rattle.st_semantics.specs.Goals.{Goal};
ghost use Rattle.st_index.specs.Names.{all_now};
ghost use Rattle.st_index.specs.Numbers.{IsFirstRelation};
ghost use Rattle.st_search.specs.Answers.{goal_of, AreSorted};
ghost use Rattle.st_search.specs.inner.Chains.{EndsBehind};
ghost use Rattle.st_search.specs.inner.Contracts.{IsShort};
ghost use Rattle.st_search.specs.inner.Rules.{CanBeSearched, algorithm_at, numbered_seeks, goal_seeks};
ghost use Rattle.st_search.specs.inner.Search.{IsSearch, AnswersGoals};
ghost use Rattle.st_search.specs.inner.Sought.{Finds};

use crate::answer::{Output, SearchFault};
use crate::finder::Finder;
use crate::found::{Found, greater, nothing};
use crate::ordered::with_outputs;
use crate::rule::run_rule;
use crate::setting::Search;
use st_algo::{Algorithm, Algos};
use st_il::{RuleDef, Value};
use st_num::{Name, Row};
use std::alloc::Global;

/// The algorithm of a rule, both by their numbers.
fn algorithm_at(algos: &Algos, relation: usize, rule: usize) -> Option<&Algorithm>
    ensures { option_copied result ≡ algorithm_at algos.now relation rule }
{
    match algos.relations.get(relation) {
        Some(algorithms) => match algorithms.get(rule) {
            Some(Some(algorithm)) => Some(algorithm),
            Some(None) | None => None,
        },
        None => None,
    }
}

/// What the rule of a number derives, if it has an algorithm.
fn run_numbered<F: Finder>(
    alloc: Global,
    search: &Search<'_>,
    finder: &F,
    relation: usize,
    number: usize,
    rule: &RuleDef,
    inputs: &[Value],
) -> Result<Found<Output>, SearchFault>
    requires search { IsSearch search.now }
    requires callable { F.IsCallable finder.now }
    requires rule { (name : Name) × IsFirstRelation search.now.setting.index.now relation name
        × (slice_get (rules_of search.now.setting.index.now name) number ≡ Some rule.now) }
    ensures short { IfOk result (λ found. IsShort search.now.setting.index.now
        search.now.setting.depth (F.answers finder.now) found.longest) }
    ensures found { IfOk result (λ found. (left : ℕ) (g : Goal)
        → AnswersGoals search.now.setting.index.now search.now.setting.depth left
        (F.answers finder.now) → CanBeSearched search.now.setting.index.now g.relation
        → g.inputs ≡ inputs.now → IsRelation search.now.setting.index.now relation g.relation
        → Finds search.now.setting.index.now search.now.setting.depth found.longest
        (numbered_seeks search.now.setting.index.now search.now.setting.depth g number rule.now)
        found.items) }
    ensures ends { IfErr result (λ fault. (left : ℕ) (g : Goal)
        → AnswersGoals search.now.setting.index.now search.now.setting.depth left
        (F.answers finder.now) → CanBeSearched search.now.setting.index.now g.relation
        → g.inputs ≡ inputs.now → IsRelation search.now.setting.index.now relation g.relation
        → EndsBehind search.now.setting.index.now search.now.setting.depth left g fault) }
{
    match algorithm_at(search.algos, relation, number) {
        None => Ok(nothing(alloc)),
        Some(algorithm) => {
            let relation = relation as u32;
            let number = number as u32;
            let found = run_rule(
                alloc, search, finder, relation, number, rule, algorithm, inputs,
            )?;
            Ok(found)
        }
    }
}

/// What the rules of a relation derive.
fn run_all<F: Finder>(
    alloc: Global,
    search: &Search<'_>,
    finder: &F,
    relation: usize,
    rules: &[&RuleDef],
    inputs: &[Value],
) -> Result<Found<Output>, SearchFault>
    requires search { IsSearch search.now }
    requires callable { F.IsCallable finder.now }
    requires rules { (name : Name) × IsFirstRelation search.now.setting.index.now relation name
        × (all_now rules.now ≡ rules_of search.now.setting.index.now name) }
    ensures short { IfOk result (λ found. IsShort search.now.setting.index.now
        search.now.setting.depth (F.answers finder.now) found.longest) }
    ensures sorted { IfOk result (λ found. AreSorted found.items) }
    ensures found { IfOk result (λ found. (left : ℕ) (g : Goal)
        → AnswersGoals search.now.setting.index.now search.now.setting.depth left
        (F.answers finder.now) → CanBeSearched search.now.setting.index.now g.relation
        → g.inputs ≡ inputs.now → IsRelation search.now.setting.index.now relation g.relation
        → Finds search.now.setting.index.now search.now.setting.depth found.longest
        (goal_seeks search.now.setting.index.now search.now.setting.depth g) found.items) }
    ensures ends { IfErr result (λ fault. (left : ℕ) (g : Goal)
        → AnswersGoals search.now.setting.index.now search.now.setting.depth left
        (F.answers finder.now) → CanBeSearched search.now.setting.index.now g.relation
        → g.inputs ≡ inputs.now → IsRelation search.now.setting.index.now relation g.relation
        → EndsBehind search.now.setting.index.now search.now.setting.depth left g fault) }
{
    let mut items = Row::new(alloc);
    let mut longest = 0;
    for i in 0..rules.len() {
        let found = run_numbered(alloc, search, finder, relation, i, rules[i], inputs)?;
        items = with_outputs(found.items, items)?;
        longest = greater(longest, found.longest);
    }
    Ok(Found { items, longest })
}

/// All that a relation derives from these inputs, where a finder answers the goals of its premises.
pub(crate) fn run_relation<F: Finder>(
    alloc: Global,
    search: &Search<'_>,
    finder: &F,
    relation: &Name,
    inputs: &[Value],
) -> Result<Found<Output>, SearchFault>
    requires search { IsSearch search.now }
    requires callable { F.IsCallable finder.now }
    ensures short { IfOk result (λ found. IsShort search.now.setting.index.now
        search.now.setting.depth (F.answers finder.now) found.longest) }
    ensures sorted { IfOk result (λ found. AreSorted found.items) }
    ensures found { IfOk result (λ found. (left : ℕ)
        → AnswersGoals search.now.setting.index.now search.now.setting.depth left
        (F.answers finder.now) → CanBeSearched search.now.setting.index.now relation.now
        → Finds search.now.setting.index.now search.now.setting.depth found.longest
        (goal_seeks search.now.setting.index.now search.now.setting.depth
        (goal_of relation.now inputs.now)) found.items) }
    ensures ends { IfErr result (λ fault. (left : ℕ)
        → AnswersGoals search.now.setting.index.now search.now.setting.depth left
        (F.answers finder.now) → CanBeSearched search.now.setting.index.now relation.now
        → EndsBehind search.now.setting.index.now search.now.setting.depth left
        (goal_of relation.now inputs.now) fault) }
{
    let index = search.setting.index;
    match index.number_of_relation(relation) {
        None => Ok(nothing(alloc)),
        Some(number) => {
            let rules = index.rules_of(relation);
            let found = run_all(alloc, search, finder, number, rules, inputs)?;
            Ok(found)
        }
    }
}
