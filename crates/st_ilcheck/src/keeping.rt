//! Which rule an expression is asked by, and whether its parts keep it.

ghost use Rattle.std.specs.Prelude.{◌≡◌, ◌↔◌, [], ◌∷◌, IsTrue, IfOk};
ghost use Rattle.std.specs.Option.{option_copied};
ghost use Rattle.st_il.specs.declared.expression.IlExp.{out-IlExp};
ghost use Rattle.st_il.specs.declared.ty.Ty.{Ty};
ghost use Rattle.st_il.specs.Definitions.{syntaxes};
ghost use Rattle.st_semantics.specs.OperationTypes.{number_type};
ghost use Rattle.st_ilcheck.specs.FoundTypes.{first_type};
ghost use Rattle.st_ilcheck.specs.Rules.{behind_first, before_last, Asks, AsksOfPath, rule_of, Are, AllAre, AreEqual, IsList, IsCaseOf, IsRecordOf, IsCallOf};
ghost use Rattle.st_ilcheck.specs.inner.Operators.{AsksParts, AsksOperator, operator_rule};

use crate::found::{first_type, last_type, number_type, syntax_type};
use crate::language::Language;
use crate::shape::{
    all_are, all_typed, are, are_equal, are_fields, are_items, are_joined, are_ordered, has_field,
    is, is_below, is_extended, is_list, is_member, is_set,
};
use st_il::{IlExp, NumTy, Ty, TypeRule};
use st_num::{Name, NoMemory};
use std::alloc::Global;

/// The parts but for the first.
pub(crate) fn behind_first(types: &[Option<Ty>]) -> &[Option<Ty>]
    ensures { result.now ≡ behind_first types.now }
{
    match types {
        [] => types,
        [_, rest @ ..] => rest,
    }
}

/// The parts but for the last.
pub(crate) fn before_last(types: &[Option<Ty>]) -> &[Option<Ty>]
    ensures { result.now ≡ before_last types.now }
{
    let count = types.len();
    if count == 0 {
        return types;
    }
    let end = count - 1;
    &types[..end]
}

/// Whether the base is a number of this type, and the exponent is natural.
fn is_power(
    alloc: Global,
    language: &Language,
    numbers: NumTy,
    types: &[Option<Ty>],
) -> Result<bool, NoMemory>
    ensures { IfOk result (λ kept. IsTrue kept ↔ Are (syntaxes language.now)
        (number_type numbers ∷ Ty.Nat ∷ []) types.now) }
{
    match types {
        [base, exponent] => {
            let first = is(alloc, language, base.as_ref(), &number_type(numbers))?;
            if !first {
                return Ok(false);
            }
            let second = is(alloc, language, exponent.as_ref(), &Ty::Nat)?;
            Ok(second)
        }
        _ => Ok(false),
    }
}

/// Whether the parts of an operator keep its rule. Every other expression does.
fn keeps_operator(
    alloc: Global,
    language: &Language,
    exp: &IlExp,
    types: &[Option<Ty>],
) -> Result<bool, NoMemory>
    ensures { IfOk result (λ kept. IsTrue kept ↔ AsksOperator language.now (out-IlExp exp.now) types.now) }
{
    match exp {
        IlExp::Not(_) => Ok(all_are(alloc, language, &Ty::Bool, types)?),
        IlExp::And(_, _) | IlExp::Or(_, _) => Ok(all_are(alloc, language, &Ty::Bool, types)?),
        IlExp::Imp(_, _) | IlExp::Iff(_, _) => Ok(all_are(alloc, language, &Ty::Bool, types)?),
        IlExp::Neg(_) => Ok(all_are(alloc, language, &Ty::Int, types)?),
        IlExp::Add(numbers, _, _) | IlExp::Sub(numbers, _, _) => {
            Ok(all_are(alloc, language, &number_type(*numbers), types)?)
        }
        IlExp::Mul(numbers, _, _) | IlExp::Div(numbers, _, _) | IlExp::Rem(numbers, _, _) => {
            Ok(all_are(alloc, language, &number_type(*numbers), types)?)
        }
        IlExp::Pow(numbers, _, _) => Ok(is_power(alloc, language, *numbers, types)?),
        IlExp::Lt(_, _) | IlExp::Gt(_, _) => Ok(are_ordered(alloc, language, types)?),
        IlExp::Le(_, _) | IlExp::Ge(_, _) => Ok(are_ordered(alloc, language, types)?),
        IlExp::Eq(_, _) | IlExp::Ne(_, _) => {
            Ok(are_equal(alloc, language, first_type(types), last_type(types))?)
        }
        IlExp::Member(_, _) => {
            Ok(is_member(alloc, language, first_type(types), last_type(types))?)
        }
        _ => Ok(true),
    }
}

/// Whether both are lists of one type.
fn are_equal_lists(
    alloc: Global,
    language: &Language,
    left: Option<&Ty>,
    right: Option<&Ty>,
) -> Result<bool, NoMemory>
    ensures { IfOk result (λ kept. IsTrue kept
        ↔ (IsList (syntaxes language.now) (option_copied left.entry)
        × AreEqual (syntaxes language.now)
        (option_copied left.entry) (option_copied right.entry))) }
{
    if !is_list(language, left) {
        return Ok(false);
    }
    let kept = are_equal(alloc, language, left, right)?;
    Ok(kept)
}

/// Whether the first part is a list, and the others are natural numbers.
fn is_list_at(alloc: Global, language: &Language, types: &[Option<Ty>]) -> Result<bool, NoMemory>
    ensures { IfOk result (λ kept. IsTrue kept
        ↔ (IsList (syntaxes language.now) (first_type types.now)
        × AllAre (syntaxes language.now) Ty.Nat (behind_first types.now))) }
{
    if !is_list(language, first_type(types)) {
        return Ok(false);
    }
    let kept = all_are(alloc, language, &Ty::Nat, behind_first(types))?;
    Ok(kept)
}

/// Whether the parts of an expression that names no syntax or function keep its rule. Every other
/// expression does.
fn keeps_parts(
    alloc: Global,
    language: &Language,
    exp: &IlExp,
    types: &[Option<Ty>],
) -> Result<bool, NoMemory>
    ensures { IfOk result (λ kept. IsTrue kept ↔ AsksParts language.now (out-IlExp exp.now) types.now) }
{
    let first = first_type(types);
    let last = last_type(types);
    match exp {
        IlExp::Dot(_, name) => Ok(has_field(language, name, first)),
        IlExp::Set(_, path, _) => Ok(is_set(alloc, language, path.as_slice(), first, last)?),
        IlExp::Extend(_, path, _) => {
            Ok(is_extended(alloc, language, path.as_slice(), first, last)?)
        }
        IlExp::Join(_, _) => Ok(are_joined(alloc, language, first, last)?),
        IlExp::Tuple(_) | IlExp::Present(_) => Ok(all_typed(language, types)),
        IlExp::List(ty, items) => Ok(are_items(alloc, language, ty, items.as_slice(), types)?),
        IlExp::Cat(_, _) => Ok(are_equal_lists(alloc, language, first, last)?),
        IlExp::Absent(ty) => Ok(language.is_list_or_option(ty)),
        IlExp::Len(_) => Ok(is_list(language, first)),
        IlExp::At(_, _) | IlExp::Slice(_, _, _) => Ok(is_list_at(alloc, language, types)?),
        IlExp::Up(ty, _) => Ok(is_below(alloc, language, first, ty)?),
        IlExp::Iter(_, _, _) => { Ok(all_are(alloc, language, &Ty::Nat, before_last(types))?) }
        _ => {
            let kept = keeps_operator(alloc, language, exp, types)?;
            Ok(kept)
        }
    }
}

/// Whether a variant has a case of this tag, whose operands have the types of the parts.
fn is_case(
    alloc: Global,
    language: &Language,
    name: &Name,
    tag: &Name,
    types: &[Option<Ty>],
) -> Result<bool, NoMemory>
    ensures { IfOk result (λ kept. IsTrue kept
        ↔ IsCaseOf (syntaxes language.now) (Ty.Name name.now) tag.now types.now) }
{
    let ty = syntax_type(alloc, name)?;
    match language.operands(&ty, tag) {
        None => Ok(false),
        Some(operands) => {
            let kept = are(alloc, language, operands.as_slice(), types)?;
            Ok(kept)
        }
    }
}

/// Whether a record type has fields of the types of the parts.
fn is_record(
    alloc: Global,
    language: &Language,
    name: &Name,
    types: &[Option<Ty>],
) -> Result<bool, NoMemory>
    ensures { IfOk result (λ kept. IsTrue kept
        ↔ IsRecordOf (syntaxes language.now) (Ty.Name name.now) types.now) }
{
    let ty = syntax_type(alloc, name)?;
    match language.fields(&ty) {
        None => Ok(false),
        Some(declared) => {
            let kept = are_fields(alloc, language, declared, types)?;
            Ok(kept)
        }
    }
}

/// Whether the parts have the types of the parameters of the function.
pub(crate) fn is_call(
    alloc: Global,
    language: &Language,
    fun: &Name,
    types: &[Option<Ty>],
) -> Result<bool, NoMemory>
    ensures { IfOk result (λ kept. IsTrue kept ↔ IsCallOf language.now fun.now types.now) }
{
    match language.function(fun) {
        None => Ok(false),
        Some(declared) => {
            let kept = are(alloc, language, declared.params.as_slice(), types)?;
            Ok(kept)
        }
    }
}

/// Whether the parts of an expression keep its rule.
pub(crate) fn keeps_form(
    alloc: Global,
    language: &Language,
    exp: &IlExp,
    types: &[Option<Ty>],
) -> Result<bool, NoMemory>
    ensures { IfOk result
        (λ kept. IsTrue kept ↔ Asks language.now (out-IlExp exp.now) types.now) }
{
    match exp {
        IlExp::Case(name, tag, _) => Ok(is_case(alloc, language, name, tag, types)?),
        IlExp::Fields(name, _) => Ok(is_record(alloc, language, name, types)?),
        IlExp::Call(fun, _) => Ok(is_call(alloc, language, fun, types)?),
        _ => Ok(keeps_parts(alloc, language, exp, types)?),
    }
}

/// Whether the positions and lengths in a path are natural numbers.
pub(crate) fn keeps_path(
    alloc: Global,
    language: &Language,
    exp: &IlExp,
    types: &[Option<Ty>],
) -> Result<bool, NoMemory>
    ensures { IfOk result (λ kept. IsTrue kept
        ↔ AsksOfPath (syntaxes language.now) (out-IlExp exp.now) types.now) }
{
    match exp {
        IlExp::Set(_, _, _) | IlExp::Extend(_, _, _) => {
            let rest = before_last(behind_first(types));
            Ok(all_are(alloc, language, &Ty::Nat, rest)?)
        }
        _ => Ok(true),
    }
}

/// The rule of an operator. That of a literal is the third.
fn operator_rule(exp: &IlExp) -> TypeRule
    ensures { result ≡ operator_rule (out-IlExp exp.now) }
{
    match exp {
        IlExp::Not(_) | IlExp::And(_, _) | IlExp::Or(_, _) => TypeRule::T4,
        IlExp::Imp(_, _) | IlExp::Iff(_, _) => TypeRule::T4,
        IlExp::Neg(_) | IlExp::Add(_, _, _) | IlExp::Sub(_, _, _) => TypeRule::T5,
        IlExp::Mul(_, _, _) | IlExp::Div(_, _, _) | IlExp::Rem(_, _, _) => TypeRule::T5,
        IlExp::Pow(_, _, _) | IlExp::Lt(_, _) | IlExp::Gt(_, _) => TypeRule::T5,
        IlExp::Le(_, _) | IlExp::Ge(_, _) => TypeRule::T5,
        IlExp::Eq(_, _) | IlExp::Ne(_, _) | IlExp::Member(_, _) => TypeRule::T6,
        _ => TypeRule::T3,
    }
}

/// The rule of an expression.
pub(crate) fn rule_of(exp: &IlExp) -> TypeRule
    ensures { result ≡ rule_of (out-IlExp exp.now) }
{
    match exp {
        IlExp::Case(_, _, _) => TypeRule::T7,
        IlExp::Fields(_, _) | IlExp::Dot(_, _) => TypeRule::T8,
        IlExp::Set(_, _, _) | IlExp::Extend(_, _, _) | IlExp::Join(_, _) => TypeRule::T9,
        IlExp::Tuple(_) | IlExp::List(_, _) | IlExp::Cat(_, _) => TypeRule::T10,
        IlExp::Empty(_) | IlExp::Present(_) | IlExp::Absent(_) => TypeRule::T10,
        IlExp::Len(_) | IlExp::At(_, _) | IlExp::Slice(_, _, _) => TypeRule::T11,
        IlExp::Call(_, _) => TypeRule::T12,
        IlExp::Up(_, _) => TypeRule::T13,
        IlExp::Iter(_, _, _) => TypeRule::T14,
        IlExp::Var(_) => TypeRule::T2,
        _ => operator_rule(exp),
    }
}
