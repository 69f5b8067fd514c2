//! Ends of runs that are made longer by what a premise leads to.

ghost use Rattle.std.specs.Prelude.{◌≡◌, ◌++◌, ℕ, List, IfOk, IfErr};
ghost use Rattle.st_il.specs.declared.expression.IlPrem.{IlPrem};
ghost use Rattle.st_il.specs.Names.{Name};
ghost use Rattle.st_semantics.specs.Variables.{prem_vars};
ghost use Rattle.st_semantics.specs.Derivation.{Root};
ghost use Rattle.st_eval.specs.Steps.{HasOnly};
ghost use Rattle.st_eval.specs.inner.Beside.{beside};
ghost use Rattle.st_search.specs.inner.RunBy.{IsRunBy};
ghost use Rattle.st_search.specs.inner.Sought.{Finds, Stops, sought_from};
ghost use Rattle.st_search.specs.inner.Rules.{IsSearchedIn, lengthened};
ghost use Rattle.st_search.specs.inner.Running.{next_seeks, AllEndWith};
ghost use Rattle.st_search.specs.inner.Contracts.{IsShort};
ghost use Rattle.st_search.specs.inner.Search.{IsSearch, AnswersGoals};

use crate::copy::copy_lists;
use crate::finder::Finder;
use crate::found::{Found, Partial, Solution, greater, joined};
use crate::setting::Search;
use crate::step::run_step;
use crate::stop::Stop;
use st_algo::AlgoStep;
use st_il::{Env, Listed, copy_children, copy_fields};
use st_match::scope_of;
use st_num::{NoMemory, Row};
use std::alloc::Global;

/// The entries of an environment before those of another one.
fn beside(alloc: Global, env: &Env, more: &Env) -> Result<Env, NoMemory>
    ensures { IfOk result (λ both. both ≡ beside env.now more.now) }
{
    let first = copy_fields(alloc, more.entries.as_slice())?;
    let entries = joined(first, copy_fields(alloc, env.entries.as_slice())?)?;
    Ok(Env { entries })
}

/// An end that is one premise longer, by each of these solutions.
fn lengthened(
    alloc: Global,
    end: &Partial,
    solutions: &[Solution],
) -> Result<Row<Partial>, NoMemory>
    ensures { IfOk result (λ ends. ends ≡ lengthened end.now solutions.now) }
{
    let mut ends = Row::new(alloc);
    for solution in solutions {
        let env = beside(alloc, &end.env, &solution.env)?;
        let mut children = copy_lists(alloc, end.children.as_slice())?;
        children.push(copy_children(alloc, solution.children.as_slice())?)?;
        ends.push(Partial { env, children })?;
    }
    Ok(ends)
}

/// What a step leads to from one end of a run.
fn run_from<F: Finder>(
    alloc: Global,
    search: &Search<'_>,
    finder: &F,
    variables: &[Listed],
    step: &AlgoStep,
    end: &Partial,
) -> Result<Found<Partial>, Stop>
    requires search { IsSearch search.now }
    requires callable { F.IsCallable finder.now }
    requires can { (bound : List Name) × (p : IlPrem)
        × HasOnly search.now.setting.index.now variables.now bound end.now.env
        × IsRunBy search.now.setting.index.now bound variables.now p step.now }
    ensures short { IfOk result (λ found. IsShort search.now.setting.index.now
        search.now.setting.depth (F.answers finder.now) found.longest) }
    ensures found { IfOk result (λ found. (left : ℕ) (root : Root) (bound : List Name)
        (p : IlPrem) → AnswersGoals search.now.setting.index.now search.now.setting.depth left
        (F.answers finder.now)
        → HasOnly search.now.setting.index.now variables.now bound end.now.env
        → IsRunBy search.now.setting.index.now bound variables.now p step.now
        → IsSearchedIn search.now.setting.index.now p
        → Finds search.now.setting.index.now search.now.setting.depth found.longest
        (next_seeks search.now.setting.index.now search.now.setting.depth root bound variables.now p
        end.now) found.items) }
    ensures binds { IfOk result (λ found. (bound : List Name) (p : IlPrem)
        → HasOnly search.now.setting.index.now variables.now bound end.now.env
        → IsRunBy search.now.setting.index.now bound variables.now p step.now
        → AllEndWith search.now.setting.index.now variables.now (bound ++ prem_vars p)
        found.items) }
    ensures stops { IfErr result (λ stop. (left : ℕ) (root : Root) (bound : List Name)
        (p : IlPrem) → AnswersGoals search.now.setting.index.now search.now.setting.depth left
        (F.answers finder.now)
        → HasOnly search.now.setting.index.now variables.now bound end.now.env
        → IsRunBy search.now.setting.index.now bound variables.now p step.now
        → IsSearchedIn search.now.setting.index.now p
        → Stops search.now.setting.index.now search.now.setting.depth left
        (next_seeks search.now.setting.index.now search.now.setting.depth root bound variables.now p
        end.now) stop) }
{
    let scope = scope_of(alloc, &end.env)?;
    let found = run_step(alloc, search, finder, variables, scope.as_slice(), step)?;
    let items = lengthened(alloc, end, found.items.as_slice())?;
    let longest = found.longest;
    Ok(Found { items, longest })
}

/// What a step leads to from each of some ends of runs.
pub(crate) fn run_from_all<F: Finder>(
    alloc: Global,
    search: &Search<'_>,
    finder: &F,
    variables: &[Listed],
    step: &AlgoStep,
    ends: &[Partial],
) -> Result<Found<Partial>, Stop>
    requires search { IsSearch search.now }
    requires callable { F.IsCallable finder.now }
    requires can { (bound : List Name) × (p : IlPrem)
        × AllEndWith search.now.setting.index.now variables.now bound ends.now
        × IsRunBy search.now.setting.index.now bound variables.now p step.now }
    ensures short { IfOk result (λ found. IsShort search.now.setting.index.now
        search.now.setting.depth (F.answers finder.now) found.longest) }
    ensures found { IfOk result (λ found. (left : ℕ) (root : Root) (bound : List Name)
        (p : IlPrem) → AnswersGoals search.now.setting.index.now search.now.setting.depth left
        (F.answers finder.now)
        → AllEndWith search.now.setting.index.now variables.now bound ends.now
        → IsRunBy search.now.setting.index.now bound variables.now p step.now
        → IsSearchedIn search.now.setting.index.now p
        → Finds search.now.setting.index.now search.now.setting.depth found.longest
        (sought_from (next_seeks search.now.setting.index.now search.now.setting.depth root bound
        variables.now p) ends.now) found.items) }
    ensures binds { IfOk result (λ found. (bound : List Name) (p : IlPrem)
        → AllEndWith search.now.setting.index.now variables.now bound ends.now
        → IsRunBy search.now.setting.index.now bound variables.now p step.now
        → AllEndWith search.now.setting.index.now variables.now (bound ++ prem_vars p)
        found.items) }
    ensures stops { IfErr result (λ stop. (left : ℕ) (root : Root) (bound : List Name)
        (p : IlPrem) → AnswersGoals search.now.setting.index.now search.now.setting.depth left
        (F.answers finder.now)
        → AllEndWith search.now.setting.index.now variables.now bound ends.now
        → IsRunBy search.now.setting.index.now bound variables.now p step.now
        → IsSearchedIn search.now.setting.index.now p
        → Stops search.now.setting.index.now search.now.setting.depth left
        (sought_from (next_seeks search.now.setting.index.now search.now.setting.depth root bound
        variables.now p) ends.now) stop) }
{
    let mut items = Row::new(alloc);
    let mut longest = 0;
    for end in ends {
        let found = run_from(alloc, search, finder, variables, step, end)?;
        items = joined(items, found.items)?;
        longest = greater(longest, found.longest);
    }
    Ok(Found { items, longest })
}
