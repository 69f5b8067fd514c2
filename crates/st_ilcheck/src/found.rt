//! Types that are found by themselves, or from those of the parts.

ghost use Rattle.std.specs.Prelude.{◌≡◌, [], ◌∷◌, Some, IfOk, MatchOption, option_map};
ghost use Rattle.std.specs.Option.{option_copied};
ghost use Rattle.st_il.specs.declared.definition.FunDef.{FunDef};
ghost use Rattle.st_il.specs.declared.ty.Ty.{Ty};
ghost use Rattle.st_il.specs.declared.expression.IlExp.{out-IlExp};
ghost use Rattle.st_il.specs.Definitions.{syntaxes};
ghost use Rattle.st_semantics.specs.Environments.{wrapped, type_of, listed_as};
ghost use Rattle.st_semantics.specs.Iterations.{kind_of};
ghost use Rattle.st_semantics.specs.OperationTypes.{number_type, field_type};
ghost use Rattle.st_semantics.specs.Typing.{function_named};
ghost use Rattle.st_ilcheck.specs.FoundTypes.{first_type, last_type, all_types, IsFieldOf, IsElementOf, ChosenFrom, number_origin, origin, TypeFrom, Named};

use crate::language::Language;
use crate::listed::listed_as;
use st_il::{IlExp, Iteration, Listed, NumTy, Ty, copy_ty};
use st_num::{Boxed, Kind, Name, NoMemory, Row};
use std::alloc::Global;

/// The type of the first field of this name.
fn type_of_field<'a>(fields: &'a [(Name, Ty)], name: &Name) -> Option<&'a Ty>
    ensures { option_copied result ≡ field_type name.now fields.now }
{
    for field in fields {
        if name.as_slice() == field.0.as_slice() {
            return Some(&field.1);
        }
    }
    None
}

/// The type of the field of this name of a record type.
pub(crate) fn field_type<'a>(language: &'a Language, name: &Name, ty: &Ty) -> Option<&'a Ty>
    ensures { MatchOption result
        ((u : Ty) → IsFieldOf (syntaxes language.now) name.now ty.now u → ⊥)
        (λ u. IsFieldOf (syntaxes language.now) name.now ty.now u.now) }
{
    match language.fields(ty) {
        None => None,
        Some(fields) => type_of_field(fields, name),
    }
}

/// The type of the numbers of arithmetic at this type.
pub(crate) fn number_type(numbers: NumTy) -> Ty
    ensures { result ≡ number_type numbers }
{
    match numbers {
        NumTy::Nat => Ty::Nat,
        NumTy::Int => Ty::Int,
    }
}

/// The type of the first part.
pub(crate) fn first_type(types: &[Option<Ty>]) -> Option<&Ty>
    ensures { option_copied result ≡ first_type types.now }
{
    match types {
        [] => None,
        [first, ..] => first.as_ref(),
    }
}

/// The type of the last part.
pub(crate) fn last_type(types: &[Option<Ty>]) -> Option<&Ty>
    ensures { option_copied result ≡ last_type types.now }
{
    let count = types.len();
    if count == 0 {
        return None;
    }
    let at = count - 1;
    types[at].as_ref()
}

/// The same type again, where there is one.
fn copied(alloc: Global, ty: Option<&Ty>) -> Result<Option<Ty>, NoMemory>
    ensures { IfOk result (λ copy. copy ≡ option_copied ty.entry) }
{
    match ty {
        None => Ok(None),
        Some(ty) => {
            let ty = copy_ty(alloc, ty)?;
            Ok(Some(ty))
        }
    }
}

/// The list or the option of a type.
fn wrapped_once(alloc: Global, kind: Kind, ty: Ty) -> Result<Ty, NoMemory>
    ensures { IfOk result (λ whole. whole ≡ wrapped (kind ∷ []) ty) }
{
    let element = Boxed::new(alloc, ty)?;
    match kind {
        Kind::List => Ok(Ty::List(element)),
        Kind::Opt => Ok(Ty::Opt(element)),
    }
}

/// A type wrapped in the kinds of a dimension, outermost first.
fn wrapped(alloc: Global, kinds: &[Kind], ty: &Ty) -> Result<Ty, NoMemory>
    ensures { IfOk result (λ whole. whole ≡ wrapped kinds.now ty.now) }
{
    match kinds {
        [] => copy_ty(alloc, ty),
        [Kind::List, inner @ ..] => {
            let element = wrapped(alloc, inner, ty)?;
            Ok(Ty::List(Boxed::new(alloc, element)?))
        }
        [Kind::Opt, inner @ ..] => {
            let element = wrapped(alloc, inner, ty)?;
            Ok(Ty::Opt(Boxed::new(alloc, element)?))
        }
    }
}

/// The type of a variable where it is listed.
fn variable_type(alloc: Global, listed: &[Listed], name: &Name) -> Result<Option<Ty>, NoMemory>
    ensures { IfOk result
        (λ found. found ≡ option_map type_of (listed_as name.now listed.now)) }
{
    match listed_as(listed, name) {
        None => Ok(None),
        Some(variable) => {
            let ty = wrapped(alloc, variable.dim.as_slice(), &variable.ty)?;
            Ok(Some(ty))
        }
    }
}

/// The type that a function declares of its result.
fn result_type(alloc: Global, language: &Language, fun: &Name) -> Result<Option<Ty>, NoMemory>
    ensures { IfOk result (λ found. found
        ≡ option_map (λ (f : FunDef). f.result) (function_named language.now fun.now)) }
{
    match language.function(fun) {
        None => Ok(None),
        Some(declared) => {
            let ty = copy_ty(alloc, &declared.result)?;
            Ok(Some(ty))
        }
    }
}

/// The type of a field of the first part.
fn type_of_dot(
    alloc: Global,
    language: &Language,
    name: &Name,
    first: Option<&Ty>,
) -> Result<Option<Ty>, NoMemory>
    ensures { IfOk result (λ found.
        ChosenFrom (IsFieldOf (syntaxes language.now) name.now) (option_copied first.entry) found) }
{
    match first {
        None => Ok(None),
        Some(ty) => {
            let found = copied(alloc, field_type(language, name, ty))?;
            Ok(found)
        }
    }
}

/// The type of the elements of the first part.
fn type_of_element(
    alloc: Global,
    language: &Language,
    first: Option<&Ty>,
) -> Result<Option<Ty>, NoMemory>
    ensures { IfOk result (λ found.
        ChosenFrom (IsElementOf (syntaxes language.now)) (option_copied first.entry) found) }
{
    match first {
        None => Ok(None),
        Some(ty) => {
            let found = copied(alloc, language.element(ty))?;
            Ok(found)
        }
    }
}

/// The types of all parts, where each has one.
fn all_types(alloc: Global, types: &[Option<Ty>]) -> Result<Option<Row<Ty>>, NoMemory>
    ensures { IfOk result (λ found. found ≡ all_types types.now) }
{
    let mut found = Row::new(alloc);
    for ty in types {
        match ty {
            None => return Ok(None),
            Some(ty) => {
                let ty = copy_ty(alloc, ty)?;
                found.push(ty)?;
            }
        }
    }
    Ok(Some(found))
}

/// The tuple of the types of the parts.
fn type_of_tuple(alloc: Global, types: &[Option<Ty>]) -> Result<Option<Ty>, NoMemory>
    ensures { IfOk result (λ found. found ≡ option_map Ty.Tuple (all_types types.now)) }
{
    match all_types(alloc, types)? {
        None => Ok(None),
        Some(parts) => Ok(Some(Ty::Tuple(parts))),
    }
}

/// The list or the option of a type, where there is one.
fn type_of_body(alloc: Global, kind: Kind, body: Option<&Ty>) -> Result<Option<Ty>, NoMemory>
    ensures { IfOk result (λ found.
        found ≡ option_map (wrapped (kind ∷ [])) (option_copied body.entry)) }
{
    match body {
        None => Ok(None),
        Some(ty) => {
            let ty = copy_ty(alloc, ty)?;
            let whole = wrapped_once(alloc, kind, ty)?;
            Ok(Some(whole))
        }
    }
}

/// What an iteration makes.
pub(crate) fn kind_of(how: &Iteration) -> Kind
    ensures { result ≡ kind_of how.now }
{
    match how {
        Iteration::Quest => Kind::Opt,
        Iteration::Star | Iteration::Plus => Kind::List,
        Iteration::Times(_) | Iteration::Below(_, _) => Kind::List,
    }
}

/// The type of an expression that has numbers or a truth value.
fn number_found(exp: &IlExp) -> Option<Ty>
    ensures { number_origin (out-IlExp exp.now) ≡ Named result }
{
    match exp {
        IlExp::Number(_) | IlExp::Len(_) => Some(Ty::Nat),
        IlExp::Neg(_) => Some(Ty::Int),
        IlExp::Add(numbers, _, _) | IlExp::Sub(numbers, _, _) => Some(number_type(*numbers)),
        IlExp::Mul(numbers, _, _) | IlExp::Div(numbers, _, _) => Some(number_type(*numbers)),
        IlExp::Rem(numbers, _, _) | IlExp::Pow(numbers, _, _) => Some(number_type(*numbers)),
        _ => Some(Ty::Bool),
    }
}

/// The syntax of this name as a type.
pub(crate) fn syntax_type(alloc: Global, name: &Name) -> Result<Ty, NoMemory>
    ensures { IfOk result (λ ty. ty ≡ Ty.Name name.now) }
{
    let name = name.copy(alloc)?;
    Ok(Ty::Name(name))
}

/// The syntax of this name as the type that is found.
fn syntax_found(alloc: Global, name: &Name) -> Result<Option<Ty>, NoMemory>
    ensures { IfOk result (λ found. found ≡ Some (Ty.Name name.now)) }
{
    let ty = syntax_type(alloc, name)?;
    Ok(Some(ty))
}

/// The type of an expression, from those of its parts.
pub(crate) fn found_type(
    alloc: Global,
    language: &Language,
    listed: &[Listed],
    exp: &IlExp,
    types: &[Option<Ty>],
) -> Result<Option<Ty>, NoMemory>
    ensures { IfOk result (λ found. TypeFrom (syntaxes language.now)
        (origin language.now listed.now (out-IlExp exp.now)) types.now found) }
{
    match exp {
        IlExp::Var(name) => variable_type(alloc, listed, name),
        IlExp::Call(fun, _) => result_type(alloc, language, fun),
        IlExp::Text(_) => Ok(Some(Ty::Text)),
        IlExp::Case(name, _, _) | IlExp::Fields(name, _) => syntax_found(alloc, name),
        IlExp::List(element, _) => type_of_body(alloc, Kind::List, Some(element)),
        IlExp::Empty(element) => type_of_body(alloc, Kind::Opt, Some(element)),
        IlExp::Absent(ty) | IlExp::Up(ty, _) => copied(alloc, Some(ty)),
        IlExp::Set(_, _, _) | IlExp::Extend(_, _, _) => copied(alloc, first_type(types)),
        IlExp::Cat(_, _) | IlExp::Join(_, _) => copied(alloc, first_type(types)),
        IlExp::Slice(_, _, _) => copied(alloc, first_type(types)),
        IlExp::Dot(_, name) => type_of_dot(alloc, language, name, first_type(types)),
        IlExp::At(_, _) => type_of_element(alloc, language, first_type(types)),
        IlExp::Tuple(_) => type_of_tuple(alloc, types),
        IlExp::Present(_) => type_of_body(alloc, Kind::Opt, first_type(types)),
        IlExp::Iter(how, _, _) => type_of_body(alloc, kind_of(how), last_type(types)),
        _ => Ok(number_found(exp)),
    }
}
