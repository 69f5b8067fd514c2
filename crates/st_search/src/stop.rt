//! Why a premise is not run to its end.

ghost use Rattle.std.specs.Prelude.{◌≡◌, ◌⊎◌, Ok, Err, IfOk, IfErr};
ghost use Rattle.st_semantics.specs.Marks.{full_name};
ghost use Rattle.st_search.specs.declared.answer.SearchFault.TheVariants as fault;
ghost use Rattle.st_search.specs.declared.stop.Stop.{Stop};
ghost use Rattle.st_search.specs.inner.Chains.{fault_by, stop_by};

use crate::answer::{Chain, SearchFault};
use st_il::RuleDef;
use st_num::{NoMemory, Row};
use st_order::full_name;
use std::alloc::Global;

/// Why a premise is not run to its end.
#[derive(Drop)]
pub(crate) enum Stop {
    /// It meets Deep.
    Meets,
    /// A goal that it asks begins this chain.
    Asks(Chain),
    Memory,
}

impl From<NoMemory> for Stop {
    ghost use Rattle.st_search.specs.declared.stop.Stop.TheVariants.{Memory};

    ghost from_gives = { λ _ stop. stop ≡ Memory };

    fn from(_: NoMemory) -> Stop {
        Stop::Memory
    }
}

impl From<SearchFault> for Stop {
    ghost use Rattle.st_search.specs.inner.Chains.{stop_by};

    ghost from_gives = { λ fault stop. stop ≡ stop_by fault };

    fn from(fault: SearchFault) -> Stop {
        match fault {
            SearchFault::Deep(chain) => Stop::Asks(chain),
            SearchFault::Memory => Stop::Memory,
        }
    }
}

/// What is told of a rule that stops at the premise of this number.
pub(crate) fn fault_of(
    alloc: Global,
    rule: &RuleDef,
    premise: u32,
    stop: Stop,
) -> Result<SearchFault, NoMemory>
    ensures { IfOk result (λ fault. fault ≡ fault_by (full_name rule.now) premise stop) }
{
    match stop {
        Stop::Meets => {
            let name = full_name(alloc, rule)?;
            let goals = Row::new(alloc);
            let at = Some((name, premise));
            Ok(SearchFault::Deep(Chain { goals, at }))
        }
        Stop::Asks(chain) => Ok(SearchFault::Deep(chain)),
        Stop::Memory => Ok(SearchFault::Memory),
    }
}

/// What was found, or what is told of a rule that stopped at the premise of this number.
pub(crate) fn at_premise<T>(
    alloc: Global,
    rule: &RuleDef,
    premise: u32,
    found: Result<T, Stop>,
) -> Result<T, SearchFault>
    ensures found { IfOk result (λ value. found ≡ Ok value) }
    ensures stopped { IfErr result (λ error. (error ≡ fault.Memory)
        ⊎ ((stop : Stop) × (found ≡ Err stop)
        × (error ≡ fault_by (full_name rule.now) premise stop))) }
{
    match found {
        Ok(value) => Ok(value),
        Err(stop) => Err(fault_of(alloc, rule, premise, stop)?),
    }
}
