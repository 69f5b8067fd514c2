//! Operations on truth values, and equality of values.

ghost use Rattle.std.specs.Prelude.{◌≡◌};
ghost use Rattle.std.specs.List.{list_any};
ghost use Rattle.st_semantics.specs.Parts.{truth, unary, binary};
ghost use Rattle.st_semantics.specs.Operators.{negation, logic, is_same, equality, inequality, membership};
ghost use Rattle.st_match.specs.inner.Calculations.{connected};

use crate::list::elements;
use crate::made::{made, two};
use st_il::{Value, compare};
use st_semantics::Outcome;

/// A connective of two truth values.
#[derive(Clone, Copy)]
pub(crate) enum Connective {
    And,
    Or,
    Implies,
    Equivalent,
}

/// The truth value that a value is, if it is one.
fn truth(value: &Value) -> Option<bool>
    ensures { result ≡ truth value.now }
{
    match value {
        Value::Bool(truth) => Some(*truth),
        _ => None,
    }
}

/// True of what is false, and false of what is true.
fn negation_of(value: &Value) -> Option<Value>
    ensures { result ≡ negation value.now }
{
    let found = truth(value)?;
    Some(Value::Bool(!found))
}

/// The negation of the one operand.
pub(crate) fn negation(operands: &[Value]) -> Outcome
    ensures { result ≡ unary negation operands.now }
{
    match operands {
        [value] => made(negation_of(value)),
        _ => Outcome::NoValue,
    }
}

/// What the connective makes of two truth values.
fn connects(how: Connective, left: bool, right: bool) -> bool
    ensures { result ≡ connected how left right }
{
    match how {
        Connective::And => left && right,
        Connective::Or => left || right,
        Connective::Implies => !left || right,
        Connective::Equivalent => left == right,
    }
}

/// What the connective makes of two values, which are both truth values.
fn logic_of(how: Connective, left: &Value, right: &Value) -> Option<Value>
    ensures { result ≡ logic (connected how) left.now right.now }
{
    let left = truth(left)?;
    let right = truth(right)?;
    Some(Value::Bool(connects(how, left, right)))
}

/// A connective of the two operands.
pub(crate) fn logic(how: Connective, operands: &[Value]) -> Outcome
    ensures { result ≡ binary (logic (connected how)) operands.now }
{
    match two(operands) {
        None => Outcome::NoValue,
        Some((left, right)) => made(logic_of(how, left, right)),
    }
}

/// Whether two values are equal.
fn is_same(left: &Value, right: &Value) -> bool
    ensures { result ≡ is_same left.now right.now }
{
    compare(left, right).is_eq()
}

/// Whether the two operands are equal.
pub(crate) fn equality(operands: &[Value]) -> Outcome
    ensures { result ≡ binary equality operands.now }
{
    match two(operands) {
        None => Outcome::NoValue,
        Some((left, right)) => made(Some(Value::Bool(is_same(left, right)))),
    }
}

/// Whether the two operands differ.
pub(crate) fn inequality(operands: &[Value]) -> Outcome
    ensures { result ≡ binary inequality operands.now }
{
    match two(operands) {
        None => Outcome::NoValue,
        Some((left, right)) => made(Some(Value::Bool(!is_same(left, right)))),
    }
}

/// Whether the value is equal to one of these.
fn is_among(value: &Value, elements: &[Value]) -> bool
    ensures { result ≡ list_any (is_same value.now) elements.now }
{
    for element in elements {
        if is_same(value, element) {
            return true;
        }
    }
    false
}

/// Whether the value is equal to an element of the list.
fn membership_of(value: &Value, list: &Value) -> Option<Value>
    ensures { result ≡ membership value.now list.now }
{
    match elements(list) {
        None => None,
        Some(elements) => Some(Value::Bool(is_among(value, elements))),
    }
}

/// Whether the first operand is equal to an element of the second.
pub(crate) fn membership(operands: &[Value]) -> Outcome
    ensures { result ≡ binary membership operands.now }
{
    match two(operands) {
        None => Outcome::NoValue,
        Some((left, right)) => made(membership_of(left, right)),
    }
}
