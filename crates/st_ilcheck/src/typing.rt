//! The type of an expression, and the rules that are broken in it.

ghost use Rattle.std.specs.Prelude.{◌≡◌, ◌++◌, [], ◌∷◌, if◌then◌else◌, IfOk};
ghost use Rattle.st_il.specs.declared.expression.IlExp.{out-IlExp};
ghost use Rattle.st_semantics.specs.Iterations.{count_of};
ghost use Rattle.st_semantics.specs.Scopes.{listed_inside};
ghost use Rattle.st_ilcheck.specs.Parts.{parts_of, standing};
ghost use Rattle.st_ilcheck.specs.Typings.{HasTyping, HaveTypings, BreaksHere};
ghost use Rattle.st_semantics.specs.References.{exps_now};

use crate::found::found_type;
use crate::keeping::{keeps_form, keeps_path, rule_of};
use crate::language::Language;
use crate::naming::names_kept;
use crate::rows::append;
use crate::scope::listed_inside;
use st_il::{IlExp, Iteration, Listed, Ty, TypeRule};
use st_num::{Name, NoMemory, Row};
use st_semantics::operands::{count_of, operands};
use std::alloc::Global;

/// The type that was found of an expression, if it has one, and the rules that are broken in it,
/// first in its parts and then by itself.
#[derive(Drop)]
pub(crate) struct Typing {
    pub(crate) ty: Option<Ty>,
    pub(crate) broken: Row<TypeRule>,
}

/// The types that were found of expressions, and the rules that are broken in them.
#[derive(Drop)]
pub(crate) struct Typings {
    pub(crate) types: Row<Option<Ty>>,
    pub(crate) broken: Row<TypeRule>,
}

/// The rules with one more behind them, unless it is kept.
pub(crate) fn told(
    broken: Row<TypeRule>,
    rule: TypeRule,
    kept: bool,
) -> Result<Row<TypeRule>, NoMemory>
    ensures { IfOk result (λ all. all ≡ broken ++ (if kept then [] else rule ∷ [])) }
{
    if kept {
        return Ok(broken);
    }
    let mut all = broken;
    all.push(rule)?;
    Ok(all)
}

/// The rules that are broken by an expression itself, by the types of its parts.
fn broken_here(
    alloc: Global,
    language: &Language,
    listed: &[Listed],
    exp: &IlExp,
    types: &[Option<Ty>],
) -> Result<Row<TypeRule>, NoMemory>
    ensures { IfOk result (λ broken.
        BreaksHere language.now listed.now (out-IlExp exp.now) types.now broken) }
{
    let form = keeps_form(alloc, language, exp, types)?;
    let first = told(Row::new(alloc), rule_of(exp), form)?;
    let path = keeps_path(alloc, language, exp, types)?;
    let second = told(first, TypeRule::T11, path)?;
    let third = told(second, TypeRule::T14, names_kept(listed, exp))?;
    Ok(third)
}

/// The typing of an expression, from those of its parts.
fn typing_from(
    alloc: Global,
    language: &Language,
    listed: &[Listed],
    exp: &IlExp,
    parts: Typings,
) -> Result<Typing, NoMemory>
    requires { HaveTypings language.now (parts_of listed.now exp.now) parts.types parts.broken }
    ensures { IfOk result (λ found.
        HasTyping language.now listed.now exp.now found.ty found.broken) }
{
    let Typings { types, broken } = parts;
    let ty = found_type(alloc, language, listed, exp, types.as_slice())?;
    let here = broken_here(alloc, language, listed, exp, types.as_slice())?;
    let broken = append(broken, here)?;
    Ok(Typing { ty, broken })
}

/// The type of an expression, where the variables are listed so, and the rules that are broken.
#[cycle(typing)]
pub(crate) fn typing_of(
    alloc: Global,
    language: &Language,
    listed: &[Listed],
    exp: &IlExp,
) -> Result<Typing, NoMemory>
    ensures { IfOk result (λ found.
        HasTyping language.now listed.now exp.now found.ty found.broken) }
{
    match exp {
        IlExp::Iter(how, names, body) => {
            let parts = iterated(alloc, language, listed, how, names.as_slice(), body.get())?;
            let found = typing_from(alloc, language, listed, exp, parts)?;
            Ok(found)
        }
        _ => {
            let exps = operands(alloc, exp)?;
            let parts = typings_of(alloc, language, listed, exps.as_slice())?;
            let found = typing_from(alloc, language, listed, exp, parts)?;
            Ok(found)
        }
    }
}

/// The typings of several expressions where the variables are listed so.
#[cycle(typing)]
pub(crate) fn typings_of(
    alloc: Global,
    language: &Language,
    listed: &[Listed],
    exps: &[&IlExp],
) -> Result<Typings, NoMemory>
    ensures { IfOk result (λ found. HaveTypings language.now
        (standing listed.now (exps_now exps.now)) found.types found.broken) }
{
    let mut types = Row::new(alloc);
    let mut broken = Row::new(alloc);
    for i in 0..exps.len() {
        let found = typing_of(alloc, language, listed, exps[i])?;
        types.push(found.ty)?;
        let longer = append(broken, found.broken)?;
        broken = longer;
    }
    Ok(Typings { types, broken })
}

/// The typings of the count of an iteration and of its body.
#[cycle(typing)]
fn iterated(
    alloc: Global,
    language: &Language,
    listed: &[Listed],
    how: &Iteration,
    names: &[Name],
    body: &IlExp,
) -> Result<Typings, NoMemory>
    ensures { IfOk result (λ found. HaveTypings language.now
        (standing listed.now (count_of how.now)
        ++ (listed_inside how.now names.now listed.now, body.now) ∷ [])
        found.types found.broken) }
{
    let exps = count_of(alloc, how)?;
    let counted = typings_of(alloc, language, listed, exps.as_slice())?;
    let inner = listed_inside(alloc, how, names, listed)?;
    let found = typing_of(alloc, language, inner.as_slice(), body)?;
    let mut types = counted.types;
    types.push(found.ty)?;
    let broken = append(counted.broken, found.broken)?;
    Ok(Typings { types, broken })
}
