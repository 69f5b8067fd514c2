//! What follows from the values of the operands of an expression.

ghost use Rattle.std.specs.Prelude.{◌≡◌, ℕ, pos, List, [], Some, None, IfOk};
ghost use Rattle.st_il.specs.declared.expression.IlExp.{IlExp, out-IlExp};
ghost use Rattle.st_il.specs.declared.ty.Ty.{Ty};
ghost use Rattle.st_type_table.specs.Cases.{HasFields};
ghost use Rattle.st_type_table.specs.Meaning.{Means};
ghost use Rattle.st_semantics.specs.Parts.{Operation, unary, unchanged};
ghost use Rattle.st_semantics.specs.Forms.{HasForm, Strict, number_operation, truth_operation, access_operation, operation_at, building};

use crate::arithmetic::{
    Calculation, Comparison, arithmetic, compare_numbers, natural_value, opposite,
};
use crate::joining::join;
use crate::list::{concatenation, count, element, listing, slice};
use crate::made::{limited, only};
use crate::path::{Change, along};
use crate::record::{building, field};
use crate::truth::{Connective, equality, inequality, logic, membership, negation};
use st_il::{IlExp, Ty, Value};
use st_num::{Boxed, Name, NoMemory, Row};
use st_semantics::Outcome;
use st_types::TypeTable;
use std::alloc::Global;

/// What follows from the values of numbers.
fn number_operation(exp: &IlExp, operands: &[Value]) -> Outcome
    ensures { result ≡ number_operation (out-IlExp exp.now) operands.now }
{
    match exp {
        IlExp::Neg(_) => opposite(operands),
        IlExp::Add(ty, _, _) => arithmetic(Calculation::Sum, *ty, operands),
        IlExp::Sub(ty, _, _) => arithmetic(Calculation::Difference, *ty, operands),
        IlExp::Mul(ty, _, _) => arithmetic(Calculation::Product, *ty, operands),
        IlExp::Div(ty, _, _) => arithmetic(Calculation::Quotient, *ty, operands),
        IlExp::Rem(ty, _, _) => arithmetic(Calculation::Remainder, *ty, operands),
        IlExp::Pow(ty, _, _) => arithmetic(Calculation::Power, *ty, operands),
        IlExp::Lt(_, _) => compare_numbers(Comparison::Less, operands),
        IlExp::Gt(_, _) => compare_numbers(Comparison::Greater, operands),
        IlExp::Le(_, _) => compare_numbers(Comparison::LessOrEqual, operands),
        IlExp::Ge(_, _) => compare_numbers(Comparison::GreaterOrEqual, operands),
        _ => Outcome::NoValue,
    }
}

/// What follows from truth values, and whether values are the same.
fn truth_operation(exp: &IlExp, operands: &[Value]) -> Outcome
    ensures { result ≡ truth_operation (out-IlExp exp.now) operands.now }
{
    match exp {
        IlExp::Not(_) => negation(operands),
        IlExp::And(_, _) => logic(Connective::And, operands),
        IlExp::Or(_, _) => logic(Connective::Or, operands),
        IlExp::Imp(_, _) => logic(Connective::Implies, operands),
        IlExp::Iff(_, _) => logic(Connective::Equivalent, operands),
        IlExp::Eq(_, _) => equality(operands),
        IlExp::Ne(_, _) => inequality(operands),
        IlExp::Member(_, _) => membership(operands),
        _ => number_operation(exp, operands),
    }
}

/// What follows from the values of what is read of lists and records, or changed in them.
fn access_operation(alloc: Global, exp: &IlExp, operands: &[Value]) -> Result<Outcome, NoMemory>
    ensures { IfOk result (λ outcome.
        outcome ≡ access_operation (out-IlExp exp.now) operands.now) }
{
    match exp {
        IlExp::Dot(_, name) => field(alloc, name, operands),
        IlExp::Set(_, path, _) => along(alloc, Change::Set, path.as_slice(), operands),
        IlExp::Extend(_, path, _) => along(alloc, Change::Extend, path.as_slice(), operands),
        IlExp::Cat(_, _) => concatenation(alloc, operands),
        IlExp::Join(_, _) => join(alloc, operands),
        IlExp::Len(_) => Ok(count(operands)),
        IlExp::At(_, _) => element(alloc, operands),
        IlExp::Slice(_, _, _) => slice(alloc, operands),
        _ => Ok(truth_operation(exp, operands)),
    }
}

/// The option that has the one operand.
fn present(alloc: Global, operands: Row<Value>) -> Result<Outcome, NoMemory>
    ensures { IfOk result (λ outcome. outcome ≡ unary (λ v. Some (Value.Opt (Some v))) operands) }
{
    match only(operands) {
        None => Ok(Outcome::NoValue),
        Some(part) => {
            let part = Boxed::new(alloc, part)?;
            Ok(limited(Value::Opt(Some(part))))
        }
    }
}

/// The one operand itself.
fn unchanged(operands: Row<Value>) -> Outcome
    ensures { result ≡ unchanged operands }
{
    match only(operands) {
        None => Outcome::NoValue,
        Some(value) => Outcome::Val(value),
    }
}

/// A number as the value of its literal.
fn literal(number: u128) -> Outcome
    ensures { result ≡ Outcome.Val (Value.Num (pos number)) }
{
    match natural_value(number) {
        None => Outcome::NoValue,
        Some(value) => Outcome::Val(value),
    }
}

/// What follows from the values of the operands, but for records and absent parts.
fn plain_operation(alloc: Global, exp: &IlExp, operands: Row<Value>) -> Result<Outcome, NoMemory>
    ensures { IfOk result (λ outcome. outcome ≡ operation_at (out-IlExp exp.now) operands) }
{
    match exp {
        IlExp::Bool(truth) => Ok(Outcome::Val(Value::Bool(*truth))),
        IlExp::Number(number) => Ok(literal(*number)),
        IlExp::Text(text) => Ok(Outcome::Val(Value::Text(text.copy(alloc)?))),
        IlExp::Case(_, tag, _) => {
            let tag = tag.copy(alloc)?;
            Ok(limited(Value::Case(tag, operands)))
        }
        IlExp::Tuple(_) => Ok(limited(Value::Tuple(operands))),
        IlExp::List(_, items) => listing(alloc, items.as_slice(), operands),
        IlExp::Empty(_) => Ok(Outcome::Val(Value::Opt(None))),
        IlExp::Present(_) => present(alloc, operands),
        IlExp::Up(_, _) => Ok(unchanged(operands)),
        _ => access_operation(alloc, exp, operands.as_slice()),
    }
}

/// The record of a type with these values.
fn record_of(
    alloc: Global,
    types: &TypeTable,
    name: &Name,
    operands: Row<Value>,
) -> Result<Outcome, NoMemory>
    ensures { IfOk result (λ outcome. (declared : List (List ℕ × Ty))
        → HasFields types.now (Ty.Name name.now) declared
        → outcome ≡ building declared operands) }
{
    let ty = Ty::Name(name.copy(alloc)?);
    match types.fields(&ty) {
        None => Ok(Outcome::NoValue),
        Some(declared) => {
            let outcome = building(alloc, declared, operands)?;
            Ok(outcome)
        }
    }
}

/// The value of a part that was left out of a list or an option type.
fn absent(alloc: Global, types: &TypeTable, ty: &Ty) -> Outcome
    ensures list { (element : Ty) → Means types.now ty.now (Ty.List element)
        → result ≡ Outcome.Val (Value.List []) }
    ensures option { (element : Ty) → Means types.now ty.now (Ty.Opt element)
        → result ≡ Outcome.Val (Value.Opt None) }
{
    match types.meaning(ty) {
        Ty::List(_) => Outcome::Val(Value::List(Row::new(alloc))),
        Ty::Opt(_) => Outcome::Val(Value::Opt(None)),
        _ => Outcome::NoValue,
    }
}

/// What follows from the values of the operands of an expression, whose operands are evaluated
/// from left to right.
pub fn operation(
    alloc: Global,
    types: &TypeTable,
    exp: &IlExp,
    operands: Row<Value>,
) -> Result<Outcome, NoMemory>
    ensures { IfOk result (λ outcome. (es : List IlExp) (f : Operation)
        → HasForm types.now exp.now (Strict es f) → outcome ≡ f operands) }
{
    match exp {
        IlExp::Fields(name, _) => {
            let outcome = record_of(alloc, types, name, operands)?;
            Ok(outcome)
        }
        IlExp::Absent(ty) => Ok(absent(alloc, types, ty)),
        _ => {
            let outcome = plain_operation(alloc, exp, operands)?;
            Ok(outcome)
        }
    }
}
