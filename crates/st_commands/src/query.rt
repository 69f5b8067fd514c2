//! A query over an internal language.
//!
//! Each function owns one large structure alone, the declarations, the query or the outcome: the
//! proof that a function uses nothing that it moved or dropped grows with all that it owns.

ghost use Rattle.std.specs.Prelude.{◌≡◌, ◌<◌, ◌^◌, length, IfOk, IfErr};
ghost use Rattle.st_num.specs.declared.fault.Fault.TheVariants as fault;
ghost use Rattle.st_semantics.specs.Breaches.{KeepModes};
ghost use Rattle.st_semantics.specs.Calls.{ValueAt};
ghost use Rattle.st_il.specs.Definitions.{syntaxes};
ghost use Rattle.st_semantics.specs.Formed.{IsFormed};
ghost use Rattle.st_ilcheck.specs.Typed.{Typed};
ghost use Rattle.st_elab_law.specs.Agreement.{decls_in};
ghost use Rattle.st_elab_rows.specs.Told.{Told};
ghost use Rattle.st_term.specs.Reading.{IsQueryBreach};
ghost use Rattle.st_term.specs.TermValue.{nothing};
ghost use Rattle.st_commands.specs.QueryOutcome.{ComesTo};

use st_elab_def::decls;
use st_elab_table::Decls;
use st_eval::{typed_languages_are_evaluable, value};
use st_il::{Env, Il, IlExp};
use st_num::{Fault, NoMemory, Row};
use st_semantics::Outcome;
use st_term::read_query;
use st_type_table::TypeTable;
use std::alloc::Global;

/// What an expression comes to where no variable has a value, and so many calls may be open at once.
fn closed_value(
    alloc: Global,
    il: &Il,
    types: &TypeTable,
    depth: u32,
    query: &IlExp,
) -> Result<Outcome, NoMemory>
    requires typed { Typed il.now }
    requires modes { KeepModes il.now }
    requires types { types.now ≡ syntaxes il.now }
    requires formed { IsFormed (syntaxes il.now) query.now }
    ensures { IfOk result (ValueAt il.now depth nothing query.now) }
{
    typed_languages_are_evaluable();
    let env = Env {
        entries: Row::new(alloc),
    };
    value(alloc, il, types, depth, &env, query)
}

/// What an expression comes to where no variable has a value, over a language with these
/// declarations.
fn value_with(
    alloc: Global,
    il: &Il,
    decls: &Decls,
    depth: u32,
    query: &IlExp,
) -> Result<Outcome, Fault>
    requires typed { Typed il.now }
    requires modes { KeepModes il.now }
    requires decls { decls.now ≡ decls_in il.now.defs }
    requires formed { IsFormed decls.now.types query.now }
    ensures value { IfOk result (ValueAt il.now depth nothing query.now) }
    ensures memory { IfErr result (λ reason. reason ≡ fault.Memory) }
{
    let outcome = closed_value(alloc, il, &decls.types, depth, query)?;
    Ok(outcome)
}

/// What a query comes to over a language with these declarations.
fn eval_with(
    alloc: Global,
    il: &Il,
    decls: &Decls,
    depth: u32,
    bytes: &[u8],
) -> Result<Outcome, Fault>
    requires typed { Typed il.now }
    requires modes { KeepModes il.now }
    requires decls { decls.now ≡ decls_in il.now.defs }
    requires few { length bytes.now < 2 ^ 32 }
    ensures { Told (ComesTo il.now depth bytes.now)
        (IsQueryBreach (decls_in il.now.defs) bytes.now) result }
{
    match read_query(alloc, decls, bytes) {
        Ok(query) => value_with(alloc, il, decls, depth, &query),
        Err(fault) => Err(fault),
    }
}

/// What a query comes to over a language that breaks no rule on types or modes, where so many calls
/// may be open at once, from its text; or the first rule that the text breaks, and where.
pub fn eval(alloc: Global, il: &Il, depth: u32, bytes: &[u8]) -> Result<Outcome, Fault>
    requires typed { Typed il.now }
    requires modes { KeepModes il.now }
    requires few { length bytes.now < 2 ^ 32 }
    ensures { Told (ComesTo il.now depth bytes.now)
        (IsQueryBreach (decls_in il.now.defs) bytes.now) result }
{
    let decls = decls(alloc, il)?;
    eval_with(alloc, il, &decls, depth, bytes)
}
