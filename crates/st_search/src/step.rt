//! Steps that are run with some variables bound: what they lead to, each way in which their premise
//! holds.
//!
//! What is bound is told by references, as where clauses are tried: an iterated step goes over the
//! elements of its lists and copies none of them but where it evaluates or matches.

ghost use Rattle.std.specs.Prelude.{◌≡◌, ◌++◌, ◌∷◌, [], ◌<◌, ◌^◌, List, IfOk, IfErr};
ghost use Rattle.st_il.specs.declared.expression.IlPrem.{IlPrem};
ghost use Rattle.st_il.specs.Names.{Name};
ghost use Rattle.st_semantics.specs.Iterations.{index_of, rows};
ghost use Rattle.st_match.specs.inner.Scope.{scope_env, entries_of, columns_now};
ghost use Rattle.st_eval.specs.Steps.{HasOnly};
ghost use Rattle.st_eval.specs.inner.Known.{names_now};
ghost use Rattle.st_eval.specs.inner.AtElements.{AllHaveOnly};
ghost use Rattle.st_search.specs.inner.Sought.{StopsIf};
ghost use Rattle.st_search.specs.inner.Gathering.{AreGatheredTo, SomeTooHigh};
ghost use Rattle.st_search.specs.inner.RunBy.{IsRunBy, IsLoopOf};
ghost use Rattle.st_search.specs.inner.Walks.{step_asks, stretched, multiplied};
ghost use Rattle.st_search.specs.inner.Contracts.{IsShort, FindsWhere, StopsWhere, BindsWhere};
ghost use Rattle.st_search.specs.inner.Contracts.{FindsAtAll, StopsAtAll, BindsAtAll};
ghost use Rattle.st_search.specs.inner.Search.{IsSearch};

use crate::condition::{bind, test};
use crate::finder::Finder;
use crate::found::{Found, Solution, Walk, greater, joined, nothing};
use crate::gather::all_gathered;
use crate::goal::{ask, stopped};
use crate::setting::{Functions, Search};
use crate::stop::Stop;
use st_algo::AlgoStep;
use st_eval::each::{count_values, names_known};
use st_eval::element::{bound_inside, bound_names};
use st_eval::listed_inside;
use st_eval::meet::table_over;
use st_il::{Env, Iteration, Listed, copy_children, copy_env};
use st_match::{Bound, Elements};
use st_num::{Name, NoMemory, Row};
use st_semantics::Outcomes;
use std::alloc::Global;

/// Whether a step asks goals.
fn asks(step: &AlgoStep) -> bool
    ensures { result ≡ step_asks step.now }
{
    match step {
        AlgoStep::Goal(_, _, _) => true,
        AlgoStep::Loop(_, _, body) => asks(body.get()),
        AlgoStep::Match(_) | AlgoStep::Test(_) | AlgoStep::Let(_, _) => false,
        AlgoStep::Otherwise | AlgoStep::Give(_) => false,
    }
}

/// Copies of environments, and one more behind them.
fn envs_with(alloc: Global, envs: &[Env], last: &Env) -> Result<Row<Env>, NoMemory>
    ensures { IfOk result (λ more. more ≡ envs.now ++ last.now ∷ []) }
{
    let mut more = Row::new(alloc);
    for env in envs {
        more.push(copy_env(alloc, env)?)?;
    }
    more.push(copy_env(alloc, last)?)?;
    Ok(more)
}

/// A walk with each solution of the next element.
fn stretched(alloc: Global, walk: &Walk, solutions: &[Solution]) -> Result<Row<Walk>, NoMemory>
    ensures { IfOk result (λ walks. walks ≡ stretched walk.now solutions.now) }
{
    let mut walks = Row::new(alloc);
    for solution in solutions {
        let envs = envs_with(alloc, walk.envs.as_slice(), &solution.env)?;
        let before = copy_children(alloc, walk.children.as_slice())?;
        let children = joined(before, copy_children(alloc, solution.children.as_slice())?)?;
        walks.push(Walk { envs, children })?;
    }
    Ok(walks)
}

/// Each walk with each solution of the next element.
fn multiplied(alloc: Global, walks: &[Walk], solutions: &[Solution]) -> Result<Row<Walk>, NoMemory>
    ensures { IfOk result (λ more. more ≡ multiplied walks.now solutions.now) }
{
    let mut more = Row::new(alloc);
    for walk in walks {
        more = joined(more, stretched(alloc, walk, solutions)?)?;
    }
    Ok(more)
}

/// The walk over no element.
fn no_element(alloc: Global) -> Result<Row<Walk>, NoMemory>
    ensures { IfOk result (λ walks. walks ≡ record { envs = []; children = [] } ∷ []) }
{
    let mut walks = Row::new(alloc);
    let envs = Row::new(alloc);
    let children = Row::new(alloc);
    walks.push(Walk { envs, children })?;
    Ok(walks)
}

/// What the walks over all elements of an iterated step come to.
fn gathered(
    alloc: Global,
    search: &Search<'_>,
    variables: &[Listed],
    known: &[&Name],
    how: &Iteration,
    names: &[Name],
    body: &AlgoStep,
    walks: Found<Walk>,
) -> Result<Found<Solution>, Stop>
    ensures longest { IfOk result (λ found. found.longest ≡ walks.longest) }
    ensures found { IfOk result (λ found. AreGatheredTo search.now.setting.types.now variables.now
        (names_now known.now) how.now names.now (step_asks body.now) walks.items found.items) }
    ensures stops { IfErr result (λ stop. StopsIf (SomeTooHigh search.now.setting.types.now
        variables.now (names_now known.now) how.now names.now walks.items) stop) }
{
    let types = search.setting.types;
    let asks = asks(body);
    let longest = walks.longest;
    let walks = walks.items.as_slice();
    let items = all_gathered(alloc, types, variables, known, how, names, asks, walks)?;
    Ok(Found { items, longest })
}

/// What a step leads to where these variables are bound.
#[cycle(step)]
pub(crate) fn run_step<'a, F: Finder>(
    alloc: Global,
    search: &Search<'_>,
    finder: &F,
    variables: &[Listed],
    scope: &[Bound<'a>],
    step: &'a AlgoStep,
) -> Result<Found<Solution>, Stop>
    requires search { IsSearch search.now }
    requires callable { F.IsCallable finder.now }
    requires can { (bound : List Name) × (p : IlPrem)
        × HasOnly search.now.setting.index.now variables.now bound (scope_env scope.now)
        × IsRunBy search.now.setting.index.now bound variables.now p step.now }
    ensures short { IfOk result (λ found. IsShort search.now.setting.index.now
        search.now.setting.depth (F.answers finder.now) found.longest) }
    ensures found { IfOk result (λ found. FindsWhere search.now.setting.index.now
        search.now.setting.depth (F.answers finder.now) variables.now (scope_env scope.now)
        (λ bound p. IsRunBy search.now.setting.index.now bound variables.now p step.now) found) }
    ensures binds { IfOk result (λ found. BindsWhere search.now.setting.index.now variables.now
        (scope_env scope.now)
        (λ bound p. IsRunBy search.now.setting.index.now bound variables.now p step.now)
        found.items) }
    ensures stops { IfErr result (λ stop. StopsWhere search.now.setting.index.now
        search.now.setting.depth (F.answers finder.now) variables.now (scope_env scope.now)
        (λ bound p. IsRunBy search.now.setting.index.now bound variables.now p step.now) stop) }
{
    match step {
        AlgoStep::Test(exp) => {
            let items = test(alloc, search, scope, exp)?;
            Ok(Found { items, longest: 0 })
        }
        AlgoStep::Let(pattern, side) => {
            let items = bind(alloc, search, variables, scope, pattern, side)?;
            Ok(Found { items, longest: 0 })
        }
        AlgoStep::Goal(relation, ins, outs) => {
            let ins = ins.as_slice();
            let outs = outs.as_slice();
            let found = ask(alloc, search, finder, variables, scope, relation, ins, outs)?;
            Ok(found)
        }
        AlgoStep::Loop(how, names, body) => {
            let names = names.as_slice();
            let body = body.get();
            let found = run_loop(alloc, search, finder, variables, scope, how, names, body)?;
            Ok(found)
        }
        AlgoStep::Match(_) | AlgoStep::Otherwise | AlgoStep::Give(_) => Ok(nothing(alloc)),
    }
}

/// What an iterated step leads to where these variables are bound.
#[cycle(step)]
fn run_loop<'a, F: Finder>(
    alloc: Global,
    search: &Search<'_>,
    finder: &F,
    variables: &[Listed],
    scope: &[Bound<'a>],
    how: &'a Iteration,
    names: &'a [Name],
    body: &'a AlgoStep,
) -> Result<Found<Solution>, Stop>
    requires search { IsSearch search.now }
    requires callable { F.IsCallable finder.now }
    requires can { (bound : List Name) × (p : IlPrem) × (inner : IlPrem)
        × HasOnly search.now.setting.index.now variables.now bound (scope_env scope.now)
        × IsLoopOf search.now.setting.index.now bound variables.now p how.now names.now inner
        body.now }
    ensures short { IfOk result (λ found. IsShort search.now.setting.index.now
        search.now.setting.depth (F.answers finder.now) found.longest) }
    ensures found { IfOk result (λ found. FindsWhere search.now.setting.index.now
        search.now.setting.depth (F.answers finder.now) variables.now (scope_env scope.now)
        (λ bound p. (inner : IlPrem) × IsLoopOf search.now.setting.index.now bound variables.now p
        how.now names.now inner body.now) found) }
    ensures binds { IfOk result (λ found. BindsWhere search.now.setting.index.now variables.now
        (scope_env scope.now) (λ bound p. (inner : IlPrem) × IsLoopOf search.now.setting.index.now
        bound variables.now p how.now names.now inner body.now) found.items) }
    ensures stops { IfErr result (λ stop. StopsWhere search.now.setting.index.now
        search.now.setting.depth (F.answers finder.now) variables.now (scope_env scope.now)
        (λ bound p. (inner : IlPrem) × IsLoopOf search.now.setting.index.now bound variables.now p
        how.now names.now inner body.now) stop) }
{
    let setting = search.setting;
    let functions = Functions { alloc, setting };
    let known = bound_names(alloc, scope)?;
    let known = known.as_slice();
    let count = count_values(alloc, &setting, &functions, scope, known, how)?;
    match count {
        Outcomes::Stopped(outcome) => {
            let found = stopped(alloc, &outcome)?;
            Ok(found)
        }
        Outcomes::Values(count) => {
            let bound = names_known(alloc, names, known)?;
            let bound = bound.as_slice();
            let table = table_over(alloc, how, bound, scope, count.as_slice())?;
            match table {
                None => Ok(nothing(alloc)),
                Some(elements) => {
                    let inside = listed_inside(alloc, how, names, variables)?;
                    let walks = walk(
                        alloc,
                        search,
                        finder,
                        inside.as_slice(),
                        scope,
                        how,
                        bound,
                        elements.columns.as_slice(),
                        elements.size,
                        body,
                    )?;
                    let found = gathered(alloc, search, variables, known, how, names, body, walks)?;
                    Ok(found)
                }
            }
        }
    }
}

/// What the elements of an iterated step lead to, one after another. An element is not come to where
/// nothing is found at those before it.
#[cycle(step)]
fn walk<'a, F: Finder>(
    alloc: Global,
    search: &Search<'_>,
    finder: &F,
    variables: &[Listed],
    scope: &[Bound<'a>],
    how: &'a Iteration,
    names: &[&'a Name],
    columns: &[Elements<'a>],
    size: u128,
    body: &'a AlgoStep,
) -> Result<Found<Walk>, Stop>
    requires search { IsSearch search.now }
    requires callable { F.IsCallable finder.now }
    requires can { (bound : List Name) × (p : IlPrem)
        × (size < 2 ^ 128 → AllHaveOnly search.now.setting.index.now variables.now bound
        (rows (index_of how.now) (names_now names.now) (entries_of scope.now) size 0
        (columns_now columns.now)))
        × IsRunBy search.now.setting.index.now bound variables.now p body.now }
    ensures small { size < 2 ^ 128 }
    ensures short { IfOk result (λ found. IsShort search.now.setting.index.now
        search.now.setting.depth (F.answers finder.now) found.longest) }
    ensures found { IfOk result (λ found. FindsAtAll search.now.setting.index.now
        search.now.setting.depth (F.answers finder.now) variables.now
        (rows (index_of how.now) (names_now names.now) (entries_of scope.now) size 0
        (columns_now columns.now))
        (λ bound p. IsRunBy search.now.setting.index.now bound variables.now p body.now) found) }
    ensures binds { IfOk result (λ found. BindsAtAll search.now.setting.index.now variables.now
        (rows (index_of how.now) (names_now names.now) (entries_of scope.now) size 0
        (columns_now columns.now))
        (λ bound p. IsRunBy search.now.setting.index.now bound variables.now p body.now)
        found.items) }
    ensures stops { IfErr result (λ stop. StopsAtAll search.now.setting.index.now
        search.now.setting.depth (F.answers finder.now) variables.now
        (rows (index_of how.now) (names_now names.now) (entries_of scope.now) size 0
        (columns_now columns.now))
        (λ bound p. IsRunBy search.now.setting.index.now bound variables.now p body.now) stop) }
{
    let mut walks = no_element(alloc)?;
    let mut longest = 0;
    for at in 0..size {
        if walks.is_empty() {
            return Ok(Found {
                items: walks,
                longest,
            });
        }
        let inner = bound_inside(alloc, how, names, columns, at, scope)?;
        let found = run_step(alloc, search, finder, variables, inner.as_slice(), body)?;
        walks = multiplied(alloc, walks.as_slice(), found.items.as_slice())?;
        longest = greater(longest, found.longest);
    }
    Ok(Found {
        items: walks,
        longest,
    })
}
