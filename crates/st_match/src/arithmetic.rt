//! Operations on numbers.

ghost use Rattle.std.specs.Prelude.{◌≡◌, pos, Some};
ghost use Rattle.st_semantics.specs.Parts.{number, natural, unary, binary};
ghost use Rattle.st_semantics.specs.Operators.{at_type, arithmetic, opposite, comparison};
ghost use Rattle.st_match.specs.inner.Calculations.{calculated, compared};

use crate::made::{made, two};
use st_il::{NumTy, Value};
use st_num::{Num, add, div_exact, mul, pow, rem, sub};
use st_semantics::Outcome;

/// An operation of arithmetic.
#[derive(Clone, Copy)]
pub(crate) enum Calculation {
    Sum,
    Difference,
    Product,
    Quotient,
    Remainder,
    Power,
}

/// How two numbers stand to each other.
#[derive(Clone, Copy)]
pub(crate) enum Comparison {
    Less,
    Greater,
    LessOrEqual,
    GreaterOrEqual,
}

/// The number that a value is, if it is one.
pub(crate) fn number(value: &Value) -> Option<Num>
    ensures { result ≡ number value.now }
{
    match value {
        Value::Num(number) => Some(*number),
        _ => None,
    }
}

/// The number that a value is, if it is one that is not negative.
pub(crate) fn natural(value: &Value) -> Option<u128>
    ensures { result ≡ natural value.now }
{
    let found = number(value)?;
    if found.is_negative() {
        None
    } else {
        Some(found.magnitude())
    }
}

/// A number that is not negative as a value. There always is one.
pub(crate) fn natural_value(number: u128) -> Option<Value>
    ensures { result ≡ Some (Value.Num (pos number)) }
{
    Some(Value::Num(Num::new(false, number)?))
}

/// The exact result, where there is one.
fn calculate(how: Calculation, left: Num, right: Num) -> Option<Num>
    ensures { result ≡ calculated how left right }
{
    match how {
        Calculation::Sum => add(left, right),
        Calculation::Difference => sub(left, right),
        Calculation::Product => mul(left, right),
        Calculation::Quotient => div_exact(left, right),
        Calculation::Remainder => rem(left, right),
        Calculation::Power => pow(left, right),
    }
}

/// A number as the result of arithmetic at a type.
fn at_type(ty: NumTy, number: Num) -> Option<Value>
    ensures { result ≡ at_type ty number }
{
    match ty {
        NumTy::Nat => {
            if number.is_negative() {
                None
            } else {
                Some(Value::Num(number))
            }
        }
        NumTy::Int => Some(Value::Num(number)),
    }
}

/// What two values come to by arithmetic at a type.
fn result_of(how: Calculation, ty: NumTy, left: &Value, right: &Value) -> Option<Value>
    ensures { result ≡ arithmetic (calculated how) ty left.now right.now }
{
    let left = number(left)?;
    let right = number(right)?;
    let number = calculate(how, left, right)?;
    at_type(ty, number)
}

/// Arithmetic at a type on the values of two operands.
pub(crate) fn arithmetic(how: Calculation, ty: NumTy, operands: &[Value]) -> Outcome
    ensures { result ≡ binary (arithmetic (calculated how) ty) operands.now }
{
    match two(operands) {
        None => Outcome::NoValue,
        Some((left, right)) => made(result_of(how, ty, left, right)),
    }
}

/// The number below zero by so much as the operand.
fn opposite_of(value: &Value) -> Option<Value>
    ensures { result ≡ opposite value.now }
{
    let found = number(value)?;
    let zero = Num::new(false, 0)?;
    let number = sub(zero, found)?;
    Some(Value::Num(number))
}

/// The opposite of the one operand.
pub(crate) fn opposite(operands: &[Value]) -> Outcome
    ensures { result ≡ unary opposite operands.now }
{
    match operands {
        [value] => made(opposite_of(value)),
        _ => Outcome::NoValue,
    }
}

/// Whether two numbers stand to each other in this way.
fn compares(how: Comparison, left: Num, right: Num) -> bool
    ensures { result ≡ compared how left right }
{
    match how {
        Comparison::Less => left < right,
        Comparison::Greater => right < left,
        Comparison::LessOrEqual => left <= right,
        Comparison::GreaterOrEqual => right <= left,
    }
}

/// Whether two values are numbers that stand to each other in this way.
fn comparison_of(how: Comparison, left: &Value, right: &Value) -> Option<Value>
    ensures { result ≡ comparison (compared how) left.now right.now }
{
    let left = number(left)?;
    let right = number(right)?;
    Some(Value::Bool(compares(how, left, right)))
}

/// A comparison of the two operands.
pub(crate) fn compare_numbers(how: Comparison, operands: &[Value]) -> Outcome
    ensures { result ≡ binary (comparison (compared how)) operands.now }
{
    match two(operands) {
        None => Outcome::NoValue,
        Some((left, right)) => made(comparison_of(how, left, right)),
    }
}
