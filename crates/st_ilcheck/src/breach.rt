//! Whether a language is typed.

ghost use Rattle.std.specs.Prelude.{◌≡◌, ◌<◌, ◌^◌, ℕ, IfOk, OnOk, Err, Some, length, take, slice_get};
ghost use Rattle.st_il.specs.declared.definition.IlDef.{IlDef};
ghost use Rattle.st_il.specs.declared.type_rule.TypeRule.{TypeRule};
ghost use Rattle.st_il.specs.Definitions.{syntaxes};
ghost use Rattle.st_ilcheck.specs.Typed.{Breaks, BreaksByTypes, Typed, IsTypeBreach};
ghost use Rattle.st_ilcheck.specs.inner.Declared.{AreDeclared};

use crate::declarations::{declarations_kept, syntaxes_in};
use crate::declaring::{Declared, declared_by, declaring, nothing_declared};
use crate::definitions::{broken_in_clause, broken_in_rule};
use crate::language::Language;
use crate::least::least;
use crate::premise_contents::{indices_kept, variables_kept};
use crate::rows::append;
use crate::typing::told;
use st_any_table::AnyTable;
use st_il::{Il, IlDef, TypeRule};
use st_num::{NoMemory, Row};
use st_type_table::Bodies;
use std::alloc::Global;
use thiserror::Error;

/// How many definitions 32 bits can tell: a language that is answered has fewer.
const LIMIT: usize = 4_294_967_296;

/// Why a language is not typed.
#[derive(Clone, Copy, Debug, PartialEq, Eq, Error)]
pub enum IlFault {
    #[error("definition {definition} breaks {rule:?}")]
    Refused { definition: u32, rule: TypeRule },
    #[error("out of memory")]
    Memory,
}

impl From<NoMemory> for IlFault {
    ghost use Rattle.std.specs.Prelude.{◌≡◌};
    ghost use Rattle.st_ilcheck.specs.declared.breach.IlFault.TheVariants.{Memory};

    ghost from_gives = { λ _ fault. fault ≡ Memory };

    fn from(_: NoMemory) -> IlFault {
        IlFault::Memory
    }
}

/// The rules that a definition breaks by the types of its expressions.
fn broken_by_types(
    alloc: Global,
    language: &Language,
    def: &IlDef,
) -> Result<Row<TypeRule>, NoMemory>
    ensures { IfOk result (λ broken. BreaksByTypes language.now def.now broken) }
{
    match def {
        IlDef::Rule(rule) => {
            let broken = broken_in_rule(alloc, language, rule)?;
            Ok(broken)
        }
        IlDef::Clause(clause) => {
            let broken = broken_in_clause(alloc, language, clause)?;
            Ok(broken)
        }
        IlDef::Syntax(_) | IlDef::Var(_, _) => Ok(Row::new(alloc)),
        IlDef::Relation(_) | IlDef::Fun(_) => Ok(Row::new(alloc)),
    }
}

/// All the rules that the definition at this place breaks. What the language declares is given, and
/// what the definitions before this one do.
fn broken_at(
    alloc: Global,
    il: &Il,
    language: &Language,
    bodies: &Bodies,
    whole: &Declared,
    before: &Declared,
    at: usize,
) -> Result<Row<TypeRule>, NoMemory>
    requires within { at < length il.now.defs }
    requires language { language.now ≡ il.now }
    requires bodies { bodies.now ≡ syntaxes il.now }
    requires whole { AreDeclared il.now.defs whole.now }
    requires before { AreDeclared (take at il.now.defs) before.now }
    ensures { IfOk result (λ broken. (d : IlDef) → slice_get il.now.defs at ≡ Some d
        → Breaks il.now (take at il.now.defs) d broken) }
{
    let defs = il.defs.as_slice();
    let def = &defs[at];
    let names = declarations_kept(alloc, il, bodies, whole, before, at)?;
    let first = told(Row::new(alloc), TypeRule::T1, names)?;
    let variables = variables_kept(alloc, def)?;
    let second = told(first, TypeRule::T2, variables)?;
    let indices = indices_kept(alloc, def)?;
    let third = told(second, TypeRule::T14, indices)?;
    let by_types = broken_by_types(alloc, language, def)?;
    let all = append(third, by_types)?;
    Ok(all)
}

/// The first definition that breaks a rule, with the least rule that it breaks, if there is one.
fn first_breach(
    alloc: Global,
    il: &Il,
    language: &Language,
    bodies: &Bodies,
    whole: &Declared,
) -> Result<(), IlFault>
    requires few { length il.now.defs < 2 ^ 32 }
    requires language { language.now ≡ il.now }
    requires bodies { bodies.now ≡ syntaxes il.now }
    requires whole { AreDeclared il.now.defs whole.now }
    ensures ok { OnOk result (Typed il.now) }
    ensures refused { (place : ℕ) (rule : TypeRule) → result ≡ Err (IlFault.Refused place rule)
        → IsTypeBreach il.now place rule }
{
    let defs = il.defs.as_slice();
    let mut before = nothing_declared(alloc);
    for at in 0..defs.len() {
        let broken = broken_at(alloc, il, language, bodies, whole, &before, at)?;
        match least(broken) {
            Some(rule) => {
                let definition = at as u32;
                return Err(IlFault::Refused { definition, rule });
            }
            None => {}
        }
        let longer = declaring(before, &defs[at])?;
        before = longer;
    }
    Ok(())
}

/// The same, with what the language declares gathered once.
fn typed_by(alloc: Global, il: &Il, table: &AnyTable) -> Result<(), IlFault>
    requires few { length il.now.defs < 2 ^ 32 }
    requires table { table.now ≡ syntaxes il.now }
    ensures ok { OnOk result (Typed il.now) }
    ensures refused { (place : ℕ) (rule : TypeRule) → result ≡ Err (IlFault.Refused place rule)
        → IsTypeBreach il.now place rule }
{
    let language = Language::of(alloc, il, table)?;
    let defs = il.defs.as_slice();
    let found = syntaxes_in(alloc, defs)?;
    let bodies = Bodies::of(alloc, &found)?;
    let whole = declared_by(alloc, defs)?;
    first_breach(alloc, il, &language, &bodies, &whole)
}

/// Whether a language is typed; or the first definition that breaks a rule, and the least rule that
/// it breaks. A language of 2^32 definitions or more is answered by want of memory.
pub fn typed(alloc: Global, il: &Il) -> Result<(), IlFault>
    ensures ok { OnOk result (Typed il.now) }
    ensures refused { (place : ℕ) (rule : TypeRule) → result ≡ Err (IlFault.Refused place rule)
        → IsTypeBreach il.now place rule }
{
    let defs = il.defs.as_slice();
    if defs.len() >= LIMIT {
        return Err(IlFault::Memory);
    }
    let found = syntaxes_in(alloc, defs)?;
    let table = AnyTable::of(alloc, found)?;
    typed_by(alloc, il, &table)
}
