//! Where the run of a rule begins: under the environments in which its inputs have the values of the
//! goal.

ghost use Rattle.std.specs.Prelude.{◌≡◌, [], ℕ, List, Ok, IfOk, IfErr, OnOk};
ghost use Rattle.st_semantics.specs.Orders.{inputs_of_rule};
ghost use Rattle.st_semantics.specs.OrderOf.{order_of};
ghost use Rattle.st_semantics.specs.Goals.{Goal};
ghost use Rattle.st_semantics.specs.RuleDepth.{no_variables};
ghost use Rattle.st_search.specs.declared.holes.Evaluated.TheVariants as evaluated;
ghost use Rattle.st_search.specs.Searchable.{CanBeRun};
ghost use Rattle.st_search.specs.inner.Sought.{Finds, StopsIf};
ghost use Rattle.st_search.specs.inner.Holes.{HasDeepHole};
ghost use Rattle.st_search.specs.inner.Rules.{run_seeks, started};
ghost use Rattle.st_search.specs.inner.Search.{IsSearch};

use crate::found::Partial;
use crate::holes::{Evaluated, extended, fitting, holes_of, patterns_of};
use crate::setting::Search;
use crate::stop::Stop;
use st_il::{Env, IlExp, RuleDef, Value, copy_env};
use st_num::{NoMemory, Row};
use std::alloc::Global;

/// Ends with these environments, before any premise is run.
fn starts_of(alloc: Global, envs: &[Env]) -> Result<Row<Partial>, NoMemory>
    ensures { IfOk result (λ starts. starts ≡ started envs.now) }
{
    let mut starts = Row::new(alloc);
    for env in envs {
        let env = copy_env(alloc, env)?;
        let children = Row::new(alloc);
        starts.push(Partial { env, children })?;
    }
    Ok(starts)
}

/// Where the run of a rule begins: under the environments of what its inputs bind, so that they have
/// the values of the goal. All closed inputs are evaluated.
pub(crate) fn matched(
    alloc: Global,
    search: &Search<'_>,
    rule: &RuleDef,
    ins: &[IlExp],
    inputs: &[Value],
) -> Result<Row<Partial>, Stop>
    requires search { IsSearch search.now }
    requires rule { CanBeRun search.now.setting.index.now rule.now }
    requires inputs { ins.now ≡ inputs_of_rule search.now.setting.index.now rule.now }
    requires ordered { (order : List ℕ)
        × (order_of search.now.setting.index.now rule.now ≡ Ok order) }
    ensures found { IfOk result (λ starts. (g : Goal) (number : ℕ) → g.inputs ≡ inputs.now
        → Finds search.now.setting.index.now search.now.setting.depth 0
        (run_seeks search.now.setting.index.now search.now.setting.depth g number rule.now [])
        starts) }
    ensures quiet { OnOk result (HasDeepHole search.now.setting.index.now search.now.setting.depth
        no_variables evaluated.Closed ins.now → ⊥) }
    ensures stops { IfErr result (λ stop. StopsIf (HasDeepHole search.now.setting.index.now
        search.now.setting.depth no_variables evaluated.Closed ins.now) stop) }
{
    let holes = holes_of(alloc, search, Evaluated::Closed, &[], ins)?;
    let holes = holes.as_slice();
    let values = fitting(alloc, holes, inputs)?;
    match values {
        None => Ok(Row::new(alloc)),
        Some(values) => {
            let patterns = patterns_of(alloc, ins, holes)?;
            let patterns = patterns.as_slice();
            let variables = rule.variables.as_slice();
            let envs = extended(alloc, search, variables, &[], patterns, values.as_slice())?;
            let starts = starts_of(alloc, envs.as_slice())?;
            Ok(starts)
        }
    }
}
