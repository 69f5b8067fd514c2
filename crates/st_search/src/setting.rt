//! What is known while a relation is searched.

ghost use Rattle.std.specs.Prelude.{IfOk};
ghost use Rattle.st_il.specs.Definitions.{syntaxes};
ghost use Rattle.st_semantics.specs.Formed.{IsFormed};
ghost use Rattle.st_semantics.specs.Calls.{ValueAt};
ghost use Rattle.st_search.specs.inner.Search.{IsSearch};

use st_algo::Algos;
use st_eval::{Setting, call_in, value_in};
use st_il::{Env, IlExp, Value};
use st_match::Caller;
use st_num::{Name, NoMemory, Row};
use st_order::Directions;
use st_semantics::Outcome;
use std::alloc::Global;

/// The language with its algorithms, how many calls may be open at once, and what is kept of the
/// language.
#[derive(Clone, Copy)]
pub(crate) struct Search<'a> {
    pub(crate) setting: Setting<'a>,
    pub(crate) algos: &'a Algos,
    pub(crate) directions: &'a Directions<'a>,
}

/// The functions of a language.
#[derive(Clone, Copy)]
pub(crate) struct Functions<'a> {
    pub(crate) alloc: Global,
    pub(crate) setting: Setting<'a>,
}

impl Caller for Functions<'_> {
    ghost use Rattle.st_semantics.specs.Calls.{CallAt};
    ghost use Rattle.st_eval.specs.Evaluable.{IsEvaluable};

    ghost answers = { λ functions fun args outcome.
        CallAt functions.setting.index.now functions.setting.depth fun args outcome };

    ghost IsCallable = { λ functions.
        IsEvaluable functions.setting.index.now functions.setting.types.now };

    fn call(&self, fun: &Name, args: Row<Value>) -> Result<Outcome, NoMemory> {
        let setting = self.setting;
        call_in(
            self.alloc,
            setting.index,
            setting.types,
            setting.depth,
            fun,
            args.as_slice(),
        )
    }
}

/// What an expression comes to.
pub(crate) fn outcome_of(
    alloc: Global,
    search: &Search<'_>,
    env: &Env,
    exp: &IlExp,
) -> Result<Outcome, NoMemory>
    requires search { IsSearch search.now }
    requires formed { IsFormed (syntaxes search.now.setting.index.now) exp.now }
    ensures { IfOk result (λ outcome.
        ValueAt search.now.setting.index.now search.now.setting.depth env.now exp.now outcome) }
{
    let setting = search.setting;
    let outcome = value_in(alloc, setting.index, setting.types, setting.depth, env, exp)?;
    Ok(outcome)
}
