//! What expressions come to where a premise is met.

ghost use Rattle.std.specs.Prelude.{IfOk};
ghost use Rattle.st_il.specs.Definitions.{syntaxes};
ghost use Rattle.st_semantics.specs.Formed.{IsFormed};
ghost use Rattle.st_semantics.specs.Calls.{ValueAt};
ghost use Rattle.st_eval.specs.Setting.{IsSetting, AnswersCalls};

use st_il::{Env, IlExp};
use st_index::Index;
use st_match::{Caller, value};
use st_num::NoMemory;
use st_semantics::Outcome;
use st_types::TypeTable;
use std::alloc::Global;

/// The language by its names, its types, and how many calls may be open at once.
#[derive(Clone, Copy)]
pub struct Setting<'a> {
    pub index: &'a Index<'a>,
    pub types: &'a TypeTable,
    pub depth: u32,
}

/// What an expression comes to, where the caller answers what calls come to.
pub fn value_of<C: Caller>(
    alloc: Global,
    setting: &Setting<'_>,
    caller: &C,
    env: &Env,
    exp: &IlExp,
) -> Result<Outcome, NoMemory>
    requires setting { IsSetting setting.now }
    requires callable { C.IsCallable caller.now }
    requires answers { AnswersCalls setting.now (C.answers caller.now) }
    requires formed { IsFormed (syntaxes setting.now.index.now) exp.now }
    ensures { IfOk result (λ outcome.
        ValueAt setting.now.index.now setting.now.depth env.now exp.now outcome) }
{
    let outcome = value(alloc, setting.types, caller, env, exp)?;
    Ok(outcome)
}
