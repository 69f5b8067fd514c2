//! Operations on lists.

ghost use Rattle.std.specs.Prelude.{◌≡◌, Some, None, [], ◌∷◌, IfOk, MatchOption, slice_get};
ghost use Rattle.std.specs.Option.{option_copied};
ghost use Rattle.st_semantics.specs.Parts.{elements, unary, binary, ternary};
ghost use Rattle.st_semantics.specs.Operators.{concatenation, count, element, part_of, part};
ghost use Rattle.st_semantics.specs.Forms.{listing, spliced};
ghost use Rattle.st_match.specs.inner.Joined.{list_of};

use crate::arithmetic::{natural, natural_value};
use crate::made::{append, limited, made, three, two};
use st_il::{ListItem, Value, copy_value, copy_values};
use st_num::{NoMemory, Row};
use st_semantics::Outcome;
use std::alloc::Global;
use std::collections::VecDeque;

/// The elements of a value that is a list.
pub(crate) fn elements<'a>(value: &'a Value) -> Option<&'a [Value]>
    ensures { MatchOption result (elements value.now ≡ None)
        (λ found. elements value.now ≡ Some found.now) }
{
    match value {
        Value::List(parts) => Some(parts.as_slice()),
        _ => None,
    }
}

/// The elements of the second list behind those of the first, where both are lists.
pub(crate) fn concatenation_of(
    alloc: Global,
    first: &Value,
    second: &Value,
) -> Result<Option<Value>, NoMemory>
    ensures { IfOk result (λ list. list ≡ concatenation first.now second.now) }
{
    let Some(first) = elements(first) else {
        return Ok(None);
    };
    let Some(second) = elements(second) else {
        return Ok(None);
    };
    let first = copy_values(alloc, first)?;
    let second = copy_values(alloc, second)?;
    let all = append(first, second)?;
    Ok(Some(Value::List(all)))
}

/// The elements of the second operand behind those of the first.
pub(crate) fn concatenation(alloc: Global, operands: &[Value]) -> Result<Outcome, NoMemory>
    ensures { IfOk result (λ outcome. outcome ≡ binary concatenation operands.now) }
{
    match two(operands) {
        None => Ok(Outcome::NoValue),
        Some((first, second)) => {
            let list = concatenation_of(alloc, first, second)?;
            Ok(made(list))
        }
    }
}

/// How many elements a list has.
fn count_of(list: &Value) -> Option<Value>
    ensures { result ≡ count list.now }
{
    match elements(list) {
        None => None,
        Some(elements) => natural_value(elements.len() as u128),
    }
}

/// How many elements the one operand has.
pub(crate) fn count(operands: &[Value]) -> Outcome
    ensures { result ≡ unary count operands.now }
{
    match operands {
        [list] => made(count_of(list)),
        _ => Outcome::NoValue,
    }
}

/// The element at this position from 0.
pub(crate) fn nth<'a>(elements: &'a [Value], at: u128) -> Option<&'a Value>
    ensures { option_copied result ≡ slice_get elements.now at }
{
    match usize::try_from(at) {
        Ok(at) => elements.get(at),
        Err(_) => None,
    }
}

/// The element of a list at this position.
fn element_of(alloc: Global, list: &Value, position: &Value) -> Result<Option<Value>, NoMemory>
    ensures { IfOk result (λ value. value ≡ element list.now position.now) }
{
    let Some(elements) = elements(list) else {
        return Ok(None);
    };
    let Some(at) = natural(position) else {
        return Ok(None);
    };
    match nth(elements, at) {
        None => Ok(None),
        Some(value) => {
            let value = copy_value(alloc, value)?;
            Ok(Some(value))
        }
    }
}

/// The element of the first operand at the position that the second is.
pub(crate) fn element(alloc: Global, operands: &[Value]) -> Result<Outcome, NoMemory>
    ensures { IfOk result (λ outcome. outcome ≡ binary element operands.now) }
{
    match two(operands) {
        None => Ok(Outcome::NoValue),
        Some((list, position)) => {
            let value = element_of(alloc, list, position)?;
            Ok(made(value))
        }
    }
}

/// So many elements from a position on, where they are all there.
pub(crate) fn part_of<'a>(from: u128, size: u128, elements: &'a [Value]) -> Option<&'a [Value]>
    ensures { MatchOption result (part_of from size elements.now ≡ None)
        (λ part. part_of from size elements.now ≡ Some part.now) }
{
    let end = from.checked_add(size)?;
    if end > elements.len() as u128 {
        return None;
    }
    Some(&elements[from as usize..end as usize])
}

/// The slice of a list from a position on, of so many elements.
fn slice_of(
    alloc: Global,
    list: &Value,
    from: &Value,
    size: &Value,
) -> Result<Option<Value>, NoMemory>
    ensures { IfOk result (λ value. value ≡ part list.now from.now size.now) }
{
    let Some(from) = natural(from) else {
        return Ok(None);
    };
    let Some(size) = natural(size) else {
        return Ok(None);
    };
    let Some(elements) = elements(list) else {
        return Ok(None);
    };
    match part_of(from, size, elements) {
        None => Ok(None),
        Some(part) => {
            let copies = copy_values(alloc, part)?;
            Ok(Some(Value::List(copies)))
        }
    }
}

/// The slice of the first operand from the position that the second is, of so many elements as the
/// third.
pub(crate) fn slice(alloc: Global, operands: &[Value]) -> Result<Outcome, NoMemory>
    ensures { IfOk result (λ outcome. outcome ≡ ternary part operands.now) }
{
    match three(operands) {
        None => Ok(Outcome::NoValue),
        Some((list, (from, size))) => {
            let value = slice_of(alloc, list, from, size)?;
            Ok(made(value))
        }
    }
}

/// The elements with those behind them that this part of a list makes of its value, if it can.
fn with_part(
    elements: Row<Value>,
    item: &ListItem,
    value: Value,
) -> Result<Option<Row<Value>>, NoMemory>
    ensures { IfOk result (λ longer. longer ≡ list_of elements (spliced (item.now ∷ []) (value ∷ []))) }
{
    match item {
        ListItem::One(_) => {
            let mut longer = elements;
            longer.push(value)?;
            Ok(Some(longer))
        }
        ListItem::All(_) => match value {
            Value::List(parts) => {
                let longer = append(elements, parts)?;
                Ok(Some(longer))
            }
            _ => Ok(None),
        },
    }
}

/// Takes the first of those that are left.
pub(crate) fn next(left: &mut VecDeque<Value>) -> Option<Value>
    ensures { MatchOption result (left.old.items ≡ [])
        (λ value. left.old.items ≡ value ∷ left.new.items) }
{
    left.pop_front()
}

/// The elements that the parts of a list make of their values.
fn spliced(
    alloc: Global,
    items: &[ListItem],
    values: Row<Value>,
) -> Result<Option<Row<Value>>, NoMemory>
    ensures { IfOk result (λ elements. elements ≡ spliced items.now values) }
{
    let mut left = VecDeque::from_vec(values.into_vec());
    let mut elements = Row::new(alloc);
    for item in items {
        let Some(value) = next(&mut left) else {
            return Ok(None);
        };
        let Some(longer) = with_part(elements, item, value)? else {
            return Ok(None);
        };
        elements = longer;
    }
    if left.is_empty() {
        Ok(Some(elements))
    } else {
        Ok(None)
    }
}

/// The list that its parts make of their values.
pub(crate) fn listing(
    alloc: Global,
    items: &[ListItem],
    values: Row<Value>,
) -> Result<Outcome, NoMemory>
    ensures { IfOk result (λ outcome. outcome ≡ listing items.now values) }
{
    match spliced(alloc, items, values)? {
        None => Ok(Outcome::NoValue),
        Some(elements) => Ok(limited(Value::List(elements))),
    }
}
