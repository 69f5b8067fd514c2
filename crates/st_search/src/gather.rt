//! What walks over elements bind: the lists or options of what they bind at each.

ghost use Rattle.std.specs.Prelude.{◌≡◌, IfOk, IfErr};
ghost use Rattle.st_eval.specs.declared.condition.Met.TheVariants as met;
ghost use Rattle.st_eval.specs.inner.Known.{names_now};
ghost use Rattle.st_eval.specs.inner.Gathered.{IsGathered};
ghost use Rattle.st_search.specs.inner.Sought.{StopsIf};
ghost use Rattle.st_search.specs.inner.Walks.{many};
ghost use Rattle.st_search.specs.inner.Gathering.{IsGatheredTo, AreGatheredTo, SomeTooHigh};

use crate::found::{Solution, Walk, joined};
use crate::stop::Stop;
use st_eval::Met;
use st_eval::each::gathered_met;
use st_il::{Child, Iteration, Listed, copy_children};
use st_num::{Name, NoMemory, Row};
use st_types::TypeTable;
use std::alloc::Global;

/// What stands for an iterated premise: a child with those of its elements, if it asks goals.
fn many(alloc: Global, asks: bool, children: &[Child]) -> Result<Row<Child>, NoMemory>
    ensures { IfOk result (λ found. found ≡ many asks children.now) }
{
    let mut found = Row::new(alloc);
    if asks {
        let children = copy_children(alloc, children)?;
        found.push(Child::Many(children))?;
    }
    Ok(found)
}

/// The solution that a walk over all elements comes to, if there is one.
fn gathered(
    alloc: Global,
    types: &TypeTable,
    variables: &[Listed],
    known: &[&Name],
    how: &Iteration,
    names: &[Name],
    asks: bool,
    walk: &Walk,
) -> Result<Row<Solution>, Stop>
    ensures found { IfOk result (λ found. IsGatheredTo types.now variables.now
        (names_now known.now) how.now names.now asks walk.now found) }
    ensures stops { IfErr result (λ stop. StopsIf (IsGathered types.now variables.now
        (names_now known.now) how.now names.now walk.now.envs met.Deep) stop) }
{
    let envs = walk.envs.as_slice();
    let met = gathered_met(alloc, types, variables, known, how, names, envs)?;
    let mut found = Row::new(alloc);
    match met {
        Met::Holds(env) => {
            let children = many(alloc, asks, walk.children.as_slice())?;
            found.push(Solution { env, children })?;
            Ok(found)
        }
        Met::Fails => Ok(found),
        Met::Deep => Err(Stop::Meets),
    }
}

/// The solutions that walks over all elements come to.
pub(crate) fn all_gathered(
    alloc: Global,
    types: &TypeTable,
    variables: &[Listed],
    known: &[&Name],
    how: &Iteration,
    names: &[Name],
    asks: bool,
    walks: &[Walk],
) -> Result<Row<Solution>, Stop>
    ensures found { IfOk result (λ found. AreGatheredTo types.now variables.now
        (names_now known.now) how.now names.now asks walks.now found) }
    ensures stops { IfErr result (λ stop. StopsIf (SomeTooHigh types.now variables.now
        (names_now known.now) how.now names.now walks.now) stop) }
{
    let mut found = Row::new(alloc);
    for walk in walks {
        let more = gathered(alloc, types, variables, known, how, names, asks, walk)?;
        found = joined(found, more)?;
    }
    Ok(found)
}
