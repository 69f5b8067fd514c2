//! Goals of premises: their inputs are evaluated, all that is derivable from these is found, and
//! what stands at the outputs is matched with it.

ghost use Rattle.std.specs.Prelude.{◌≡◌, ◌++◌, ◌∷◌, [], true, List, map, IfOk, IfErr};
ghost use Rattle.std.specs.List.{list_all};
ghost use Rattle.st_il.specs.declared.expression.IlExp.{IlExp};
ghost use Rattle.st_il.specs.declared.expression.IlPrem.{IlPrem};
ghost use Rattle.st_il.specs.declared.tree.Child.TheVariants as child;
ghost use Rattle.st_semantics.specs.declared.outcome.Outcome.TheVariants as variant;
ghost use Rattle.st_il.specs.Names.{Name, all_known, flattened};
ghost use Rattle.st_il.specs.Definitions.{syntaxes};
ghost use Rattle.st_semantics.specs.Environments.{names_of};
ghost use Rattle.st_semantics.specs.Formed.{AreFormed};
ghost use Rattle.st_semantics.specs.Patterns.{is_pattern, binds};
ghost use Rattle.st_semantics.specs.Variables.{vars_of};
ghost use Rattle.st_match.specs.inner.Scope.{scope_env};
ghost use Rattle.st_eval.specs.Steps.{HasOnly};
ghost use Rattle.st_search.specs.declared.stop.Stop.TheVariants as end;
ghost use Rattle.st_search.specs.inner.Contracts.{IsShort, FindsWhere, StopsWhere, BindsWhere, IsGoalOf};
ghost use Rattle.st_search.specs.inner.Meeting.{AreMeetings, AllMeetings, IsAskedWith};
ghost use Rattle.st_search.specs.inner.Search.{IsSearch};

use crate::answer::Output;
use crate::condition::with_children;
use crate::finder::Finder;
use crate::found::{Found, Solution, joined, nothing};
use crate::holes::{Evaluated, Hole, extended, fitting, holes_of, patterns_of, values_of};
use crate::setting::Search;
use crate::stop::Stop;
use st_il::{Child, IlExp, Listed, Tree, Value, copy_tree};
use st_match::Bound;
use st_num::{Boxed, Name, NoMemory, Row};
use st_semantics::{Outcome, Outcomes};
use std::alloc::Global;

/// The child that a tree is, as the only one.
fn only_child(alloc: Global, tree: &Tree) -> Result<Row<Child>, NoMemory>
    ensures { IfOk result (λ children. children ≡ child.One tree.now ∷ []) }
{
    let mut children = Row::new(alloc);
    let tree = copy_tree(alloc, tree)?;
    children.push(Child::One(Boxed::new(alloc, tree)?))?;
    Ok(children)
}

/// The solutions by which what stands at the outputs of a goal has the values of an answer.
fn met_by(
    alloc: Global,
    search: &Search<'_>,
    variables: &[Listed],
    scope: &[Bound],
    holes: &[Hole],
    patterns: &[IlExp],
    answer: &Output,
) -> Result<Row<Solution>, NoMemory>
    requires search { IsSearch search.now }
    requires patterns { list_all is_pattern patterns.now ≡ true }
    requires formed { AreFormed (syntaxes search.now.setting.index.now) patterns.now }
    requires bound { all_known (names_of (scope_env scope.now)
        ++ flattened (map binds patterns.now)) (vars_of patterns.now) ≡ true }
    ensures { IfOk result (λ found. AreMeetings (syntaxes search.now.setting.index.now) variables.now
        (scope_env scope.now) holes.now patterns.now answer.now found) }
{
    let values = fitting(alloc, holes, answer.values.as_slice())?;
    match values {
        None => Ok(Row::new(alloc)),
        Some(values) => {
            let values = values.as_slice();
            let envs = extended(alloc, search, variables, scope, patterns, values)?;
            let children = only_child(alloc, &answer.tree)?;
            let found = with_children(alloc, envs.as_slice(), children.as_slice())?;
            Ok(found)
        }
    }
}

/// The solutions by which what stands at the outputs of a goal has the values of one of the answers.
fn met_by_all(
    alloc: Global,
    search: &Search<'_>,
    variables: &[Listed],
    scope: &[Bound],
    holes: &[Hole],
    patterns: &[IlExp],
    answers: &[Output],
) -> Result<Row<Solution>, NoMemory>
    requires search { IsSearch search.now }
    requires patterns { list_all is_pattern patterns.now ≡ true }
    requires formed { AreFormed (syntaxes search.now.setting.index.now) patterns.now }
    requires bound { all_known (names_of (scope_env scope.now)
        ++ flattened (map binds patterns.now)) (vars_of patterns.now) ≡ true }
    ensures { IfOk result (λ found. AllMeetings (syntaxes search.now.setting.index.now) variables.now
        (scope_env scope.now) holes.now patterns.now answers.now found) }
{
    let mut found = Row::new(alloc);
    for answer in answers {
        let more = met_by(alloc, search, variables, scope, holes, patterns, answer)?;
        found = joined(found, more)?;
    }
    Ok(found)
}

/// What a goal leads to whose inputs have these values.
fn answered<F: Finder>(
    alloc: Global,
    search: &Search<'_>,
    finder: &F,
    variables: &[Listed],
    scope: &[Bound],
    relation: &Name,
    inputs: Row<Value>,
    outs: &[IlExp],
) -> Result<Found<Solution>, Stop>
    requires search { IsSearch search.now }
    requires callable { F.IsCallable finder.now }
    requires can { (bound : List Name) × (p : IlPrem) × (ins : List IlExp)
        × HasOnly search.now.setting.index.now variables.now bound (scope_env scope.now)
        × IsGoalOf search.now.setting.index.now bound variables.now p relation.now ins outs.now }
    ensures short { IfOk result (λ found. IsShort search.now.setting.index.now
        search.now.setting.depth (F.answers finder.now) found.longest) }
    ensures found { IfOk result (λ found. FindsWhere search.now.setting.index.now
        search.now.setting.depth (F.answers finder.now) variables.now (scope_env scope.now)
        (λ bound p. IsAskedWith search.now.setting.index.now search.now.setting.depth bound
        variables.now (scope_env scope.now) p relation.now inputs outs.now) found) }
    ensures binds { IfOk result (λ found. BindsWhere search.now.setting.index.now variables.now
        (scope_env scope.now) (λ bound p. (ins : List IlExp) × IsGoalOf search.now.setting.index.now
        bound variables.now p relation.now ins outs.now) found.items) }
    ensures stops { IfErr result (λ stop. StopsWhere search.now.setting.index.now
        search.now.setting.depth (F.answers finder.now) variables.now (scope_env scope.now)
        (λ bound p. IsAskedWith search.now.setting.index.now search.now.setting.depth bound
        variables.now (scope_env scope.now) p relation.now inputs outs.now) stop) }
{
    let holes = holes_of(alloc, search, Evaluated::Computed, scope, outs)?;
    let holes = holes.as_slice();
    let patterns = patterns_of(alloc, outs, holes)?;
    let answers = finder.find(relation, inputs)?;
    let items = met_by_all(
        alloc,
        search,
        variables,
        scope,
        holes,
        patterns.as_slice(),
        answers.items.as_slice(),
    )?;
    let longest = answers.longest;
    Ok(Found { items, longest })
}

/// What a premise leads to that needs a value, and comes to this outcome, which is none.
pub(crate) fn stopped(alloc: Global, outcome: &Outcome) -> Result<Found<Solution>, Stop>
    ensures found { IfOk result (λ found.
        (outcome.now ≡ variant.Deep → ⊥) × (found.items ≡ []) × (found.longest ≡ 0)) }
    ensures stops { IfErr result (λ stop. (outcome.now ≡ variant.Deep) × (stop ≡ end.Meets)) }
{
    match outcome {
        Outcome::Deep => Err(Stop::Meets),
        Outcome::NoValue | Outcome::Val(_) => Ok(nothing(alloc)),
    }
}

/// What a goal leads to.
pub(crate) fn ask<F: Finder>(
    alloc: Global,
    search: &Search<'_>,
    finder: &F,
    variables: &[Listed],
    scope: &[Bound],
    relation: &Name,
    ins: &[IlExp],
    outs: &[IlExp],
) -> Result<Found<Solution>, Stop>
    requires search { IsSearch search.now }
    requires callable { F.IsCallable finder.now }
    requires can { (bound : List Name) × (p : IlPrem)
        × HasOnly search.now.setting.index.now variables.now bound (scope_env scope.now)
        × IsGoalOf search.now.setting.index.now bound variables.now p relation.now ins.now outs.now }
    ensures short { IfOk result (λ found. IsShort search.now.setting.index.now
        search.now.setting.depth (F.answers finder.now) found.longest) }
    ensures found { IfOk result (λ found. FindsWhere search.now.setting.index.now
        search.now.setting.depth (F.answers finder.now) variables.now (scope_env scope.now)
        (λ bound p. IsGoalOf search.now.setting.index.now bound variables.now p relation.now ins.now
        outs.now) found) }
    ensures binds { IfOk result (λ found. BindsWhere search.now.setting.index.now variables.now
        (scope_env scope.now) (λ bound p. IsGoalOf search.now.setting.index.now bound variables.now p
        relation.now ins.now outs.now) found.items) }
    ensures stops { IfErr result (λ stop. StopsWhere search.now.setting.index.now
        search.now.setting.depth (F.answers finder.now) variables.now (scope_env scope.now)
        (λ bound p. IsGoalOf search.now.setting.index.now bound variables.now p relation.now ins.now
        outs.now) stop) }
{
    let inputs = values_of(alloc, search, scope, ins)?;
    match inputs {
        Outcomes::Values(inputs) => {
            let found = answered(
                alloc, search, finder, variables, scope, relation, inputs, outs,
            )?;
            Ok(found)
        }
        Outcomes::Stopped(outcome) => {
            let found = stopped(alloc, &outcome)?;
            Ok(found)
        }
    }
}
