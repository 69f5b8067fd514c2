//! What calls and expressions come to, where so many calls may be open at once.
//!
//! `call_at` passes itself, one call less, to what tries the clauses of its function; nothing else
//! recurses over calls. It goes by an index of the language, which `call` and `value` make.

ghost use Rattle.std.specs.Prelude.{IfOk};
ghost use Rattle.st_il.specs.Definitions.{syntaxes};
ghost use Rattle.st_semantics.specs.Formed.{IsFormed};
ghost use Rattle.st_semantics.specs.Calls.{CallAt, ValueAt};
ghost use Rattle.st_eval.specs.Evaluable.{IsEvaluable};

use crate::clause::decide;
use crate::reading::{Setting, value_of};
use st_il::{Env, Il, IlExp, Value};
use st_index::{Index, index_of};
use st_num::{Name, NoMemory, Row};
use st_semantics::Outcome;
use st_types::TypeTable;
use std::alloc::Global;

/// What a call comes to with these arguments, where all that is known has one lifetime.
fn call_at<'a>(
    alloc: Global,
    index: &'a Index<'a>,
    types: &'a TypeTable,
    depth: u32,
    fun: &Name,
    args: &[Value],
) -> Result<Outcome, NoMemory>
    requires { IsEvaluable index.now types.now }
    ensures { IfOk result (CallAt index.now depth fun.now args.now) }
{
    let Some(less) = depth.checked_sub(1) else {
        return Ok(Outcome::Deep);
    };
    let setting = Setting {
        index,
        types,
        depth: less,
    };
    let outcome = decide(
        alloc,
        &setting,
        &|inner: &Name, values: Row<Value>|
            requires { IsEvaluable index.now types.now }
            ensures { IfOk result (CallAt index.entry.now less inner.now values) }
        { call_at(alloc, index, types, less, inner, values.as_slice()) },
        fun,
        args,
    )?;
    Ok(outcome)
}

/// What an expression comes to in an environment, where all that is known has one lifetime.
fn value_at<'a>(
    alloc: Global,
    index: &'a Index<'a>,
    types: &'a TypeTable,
    depth: u32,
    env: &Env,
    exp: &IlExp,
) -> Result<Outcome, NoMemory>
    requires language { IsEvaluable index.now types.now }
    requires formed { IsFormed (syntaxes index.now) exp.now }
    ensures { IfOk result (ValueAt index.now depth env.now exp.now) }
{
    let setting = Setting {
        index,
        types,
        depth,
    };
    let outcome = value_of(
        alloc,
        &setting,
        &|inner: &Name, values: Row<Value>|
            requires { IsEvaluable index.now types.now }
            ensures { IfOk result (CallAt index.entry.now depth inner.now values) }
        { call_at(alloc, index, types, depth, inner, values.as_slice()) },
        env,
        exp,
    )?;
    Ok(outcome)
}

/// What a call comes to with these arguments, over a language that is known. Where no call may be
/// open, it is Deep; else the first clause of its function that is chosen or meets Deep decides it,
/// with one call less for those in it.
pub fn call_in(
    alloc: Global,
    index: &Index<'_>,
    types: &TypeTable,
    depth: u32,
    fun: &Name,
    args: &[Value],
) -> Result<Outcome, NoMemory>
    requires { IsEvaluable index.now types.now }
    ensures { IfOk result (CallAt index.now depth fun.now args.now) }
{
    call_at(alloc, index, types, depth, fun, args)
}

/// What an expression comes to in an environment, over a language that is known. Each record in it
/// has the fields of its type, and each absent part is of a list or an option, as in every
/// expression that has a type.
pub fn value_in(
    alloc: Global,
    index: &Index<'_>,
    types: &TypeTable,
    depth: u32,
    env: &Env,
    exp: &IlExp,
) -> Result<Outcome, NoMemory>
    requires language { IsEvaluable index.now types.now }
    requires formed { IsFormed (syntaxes index.now) exp.now }
    ensures { IfOk result (ValueAt index.now depth env.now exp.now) }
{
    value_at(alloc, index, types, depth, env, exp)
}

/// What a call comes to with these arguments. Where no call may be open, it is Deep; else the first
/// clause of its function that is chosen or meets Deep decides it, with one call less for those in
/// it.
pub fn call(
    alloc: Global,
    il: &Il,
    types: &TypeTable,
    depth: u32,
    fun: &Name,
    args: &[Value],
) -> Result<Outcome, NoMemory>
    requires { IsEvaluable il.now types.now }
    ensures { IfOk result (CallAt il.now depth fun.now args.now) }
{
    let index = index_of(alloc, il)?;
    let outcome = call_in(alloc, &index, types, depth, fun, args)?;
    Ok(outcome)
}

/// What an expression comes to in an environment. Each record in it has the fields of its type, and
/// each absent part is of a list or an option, as in every expression that has a type.
pub fn value(
    alloc: Global,
    il: &Il,
    types: &TypeTable,
    depth: u32,
    env: &Env,
    exp: &IlExp,
) -> Result<Outcome, NoMemory>
    requires language { IsEvaluable il.now types.now }
    requires formed { IsFormed (syntaxes il.now) exp.now }
    ensures { IfOk result (ValueAt il.now depth env.now exp.now) }
{
    let index = index_of(alloc, il)?;
    let outcome = value_in(alloc, &index, types, depth, env, exp)?;
    Ok(outcome)
}
