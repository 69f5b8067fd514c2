//! The rules on types that are broken in a premise.

ghost use Rattle.std.specs.Prelude.{◌≡◌, ◌↔◌, IsTrue, IfOk};
ghost use Rattle.st_il.specs.declared.expression.IlPrem.{IlPrem, out-IlPrem};
ghost use Rattle.st_il.specs.declared.expression.IlPrem.TheOpen.{IlPrem-F};
ghost use Rattle.st_ilcheck.specs.Parts.{standing};
ghost use Rattle.st_ilcheck.specs.Premises.{IsJudgementOf, PremBreaks, PremsBreak};
ghost use Rattle.st_ilcheck.specs.Typings.{HaveTypings};
ghost use Rattle.st_ilcheck.specs.inner.Counts.{CountBreaks};

use crate::language::Language;
use crate::naming::each_kept;
use crate::rows::append;
use crate::scope::listed_inside;
use crate::shape::{all_are, are, has};
use crate::typing::{Typing, Typings, told, typing_of, typings_of};
use st_il::{IlExp, IlPrem, Iteration, Listed, Ty, TypeRule};
use st_num::{Name, NoMemory, Row};
use st_semantics::operands::{count_of, each};
use std::alloc::Global;

/// Whether the parts have the types of the holes of the relation.
pub(crate) fn is_judgement(
    alloc: Global,
    language: &Language,
    relation: &Name,
    types: &[Option<Ty>],
) -> Result<bool, NoMemory>
    ensures { IfOk result
        (λ kept. IsTrue kept ↔ IsJudgementOf language.now relation.now types.now) }
{
    match language.relation(relation) {
        None => Ok(false),
        Some(declared) => {
            let kept = are(alloc, language, declared.holes.as_slice(), types)?;
            Ok(kept)
        }
    }
}

/// The typings of several expressions where the variables are listed so.
pub(crate) fn typings_in(
    alloc: Global,
    language: &Language,
    listed: &[Listed],
    exps: &[IlExp],
) -> Result<Typings, NoMemory>
    ensures { IfOk result (λ found.
        HaveTypings language.now (standing listed.now exps.now) found.types found.broken) }
{
    let exps = each(alloc, exps)?;
    let found = typings_of(alloc, language, listed, exps.as_slice())?;
    Ok(found)
}

/// The rules that are broken in a condition.
fn broken_in_condition(
    alloc: Global,
    language: &Language,
    listed: &[Listed],
    exp: &IlExp,
) -> Result<Row<TypeRule>, NoMemory>
    ensures { IfOk result (λ broken. (p : IlPrem) → out-IlPrem p ≡ IlPrem-F.If exp.now
        → PremBreaks language.now listed.now p broken) }
{
    let found = typing_of(alloc, language, listed, exp)?;
    let Typing { ty, broken } = found;
    let kept = has(alloc, language, &ty, &Ty::Bool)?;
    let all = told(broken, TypeRule::T4, kept)?;
    Ok(all)
}

/// The rules that are broken in a judgement of a relation.
fn broken_in_goal(
    alloc: Global,
    language: &Language,
    listed: &[Listed],
    relation: &Name,
    exps: &[IlExp],
) -> Result<Row<TypeRule>, NoMemory>
    ensures { IfOk result (λ broken. (p : IlPrem)
        → out-IlPrem p ≡ IlPrem-F.Goal relation.now exps.now
        → PremBreaks language.now listed.now p broken) }
{
    let found = typings_in(alloc, language, listed, exps)?;
    let Typings { types, broken } = found;
    let kept = is_judgement(alloc, language, relation, types.as_slice())?;
    let all = told(broken, TypeRule::T12, kept)?;
    Ok(all)
}

/// The rules that are broken by the count of an iterated premise.
fn broken_by_count(
    alloc: Global,
    language: &Language,
    listed: &[Listed],
    how: &Iteration,
) -> Result<Row<TypeRule>, NoMemory>
    ensures { IfOk result (λ broken. CountBreaks language.now listed.now how.now broken) }
{
    let exps = count_of(alloc, how)?;
    let found = typings_of(alloc, language, listed, exps.as_slice())?;
    let Typings { types, broken } = found;
    let kept = all_are(alloc, language, &Ty::Nat, types.as_slice())?;
    let all = told(broken, TypeRule::T14, kept)?;
    Ok(all)
}

/// The rules that are broken in a premise, where the variables are listed so.
fn broken_in_premise(
    alloc: Global,
    language: &Language,
    listed: &[Listed],
    premise: &IlPrem,
) -> Result<Row<TypeRule>, NoMemory>
    ensures { IfOk result (λ broken.
        PremBreaks language.now listed.now premise.now broken) }
{
    match premise {
        IlPrem::If(exp) => {
            let broken = broken_in_condition(alloc, language, listed, exp)?;
            Ok(broken)
        }
        IlPrem::Goal(relation, exps) => {
            let broken = broken_in_goal(alloc, language, listed, relation, exps.as_slice())?;
            Ok(broken)
        }
        IlPrem::Otherwise => Ok(Row::new(alloc)),
        IlPrem::Each(how, names, body) => {
            let names = names.as_slice();
            let body = body.get();
            let counted = broken_by_count(alloc, language, listed, how)?;
            let kept = each_kept(how, names, listed, body);
            let named = told(counted, TypeRule::T14, kept)?;
            let inside = listed_inside(alloc, how, names, listed)?;
            let inner = inside.as_slice();
            let more = broken_in_premise(alloc, language, inner, body)?;
            let all = append(named, more)?;
            Ok(all)
        }
    }
}

/// The rules that are broken in some premises.
pub(crate) fn broken_in_premises(
    alloc: Global,
    language: &Language,
    listed: &[Listed],
    premises: &[IlPrem],
) -> Result<Row<TypeRule>, NoMemory>
    ensures { IfOk result (λ broken.
        PremsBreak language.now listed.now premises.now broken) }
{
    let mut broken = Row::new(alloc);
    for premise in premises {
        let more = broken_in_premise(alloc, language, listed, premise)?;
        let longer = append(broken, more)?;
        broken = longer;
    }
    Ok(broken)
}
