//! Values of terms, from what they were elaborated to.

ghost use Rattle.std.specs.Prelude.{◌≡◌, ◌++◌, ◌∷◌, [], pos, map, zip, IfOk, MatchOption};
ghost use Rattle.st_semantics.specs.declared.outcome.Outcome.TheVariants.{Val};
ghost use Rattle.st_semantics.specs.Parts.{limited, made};
ghost use Rattle.st_semantics.specs.Operators.{opposite};
ghost use Rattle.st_term.specs.TermValue.{IsTermValue, AreTermValues};
ghost use Rattle.st_term.specs.inner.TermElements.{StandsFor, AreElements, IsRecordOf, IsLeftOut};

use st_il::{IlExp, ListItem, Ty, Value, is_within_height};
use st_num::{Boxed, HIGHEST_VALUE, Name, NoMemory, Num, Row, sub};
use st_type_table::TypeTable;
use std::alloc::Global;
use std::collections::VecDeque;

/// A value that is made, where it is not too high.
fn low(value: Value) -> Result<Value, NoMemory>
    ensures { IfOk result (λ v. limited value ≡ Val v) }
{
    if is_within_height(&value, HIGHEST_VALUE) {
        Ok(value)
    } else {
        Err(NoMemory)
    }
}

/// The value of a literal.
fn natural(number: u128) -> Result<Value, NoMemory>
    ensures { IfOk result (λ v. v ≡ Value.Num (pos number)) }
{
    match Num::new(false, number) {
        Some(number) => Ok(Value::Num(number)),
        None => Err(NoMemory),
    }
}

/// The number with the other sign, of a value that is a number.
fn opposite_of(value: &Value) -> Option<Value>
    ensures { result ≡ opposite value.now }
{
    let Value::Num(number) = value else {
        return None;
    };
    let zero = Num::new(false, 0)?;
    let number = sub(zero, *number)?;
    Some(Value::Num(number))
}

/// The number behind `-`.
fn negated(value: &Value) -> Result<Value, NoMemory>
    ensures { IfOk result (λ v. made (opposite value.now) ≡ Val v) }
{
    match opposite_of(value) {
        Some(number) => low(number),
        None => Err(NoMemory),
    }
}

/// The value of a part that was left out of a list or an option type.
fn left_out(alloc: Global, types: &TypeTable, ty: &Ty) -> Result<Value, NoMemory>
    ensures { IfOk result (IsLeftOut types.now ty.now) }
{
    match types.meaning(ty) {
        Ty::List(_) => Ok(Value::List(Row::new(alloc))),
        Ty::Opt(_) => Ok(Value::Opt(None)),
        _ => Err(NoMemory),
    }
}

/// Takes the first of those that are left.
fn next(left: &mut VecDeque<Value>) -> Option<Value>
    ensures { MatchOption result (left.old.items ≡ [])
        (λ value. left.old.items ≡ value ∷ left.new.items) }
{
    left.pop_front()
}

/// The fields with these names and values, as long as there are both.
fn named(
    alloc: Global,
    declared: &[(Name, Ty)],
    values: Row<Value>,
) -> Result<Row<(Name, Value)>, NoMemory>
    ensures { IfOk result (λ fields. fields ≡ zip (map (λ d. d.0) declared.now) values) }
{
    let mut left = VecDeque::from_vec(values.into_vec());
    let mut fields = Row::new(alloc);
    for field in declared {
        let Some(value) = next(&mut left) else {
            return Ok(fields);
        };
        let name = field.0.copy(alloc)?;
        fields.push((name, value))?;
    }
    Ok(fields)
}

/// The record of this type with these values in its fields.
fn record_of(
    alloc: Global,
    types: &TypeTable,
    name: &Name,
    values: Row<Value>,
) -> Result<Value, NoMemory>
    ensures { IfOk result (IsRecordOf types.now name.now values) }
{
    let ty = Ty::Name(name.copy(alloc)?);
    let Some(declared) = types.fields(&ty) else {
        return Err(NoMemory);
    };
    if values.len() != declared.len() {
        return Err(NoMemory);
    }
    let fields = named(alloc, declared, values)?;
    let record = low(Value::Fields(fields))?;
    Ok(record)
}

/// The elements with others behind them.
fn joined(elements: Row<Value>, others: Row<Value>) -> Result<Row<Value>, NoMemory>
    ensures { IfOk result (λ all. all ≡ elements ++ others) }
{
    let mut all = elements.into_vec();
    let mut others = others.into_vec();
    all.append(&mut others)?;
    Ok(Row::from_vec(all))
}

/// The value of an expression without parts, where it has one.
fn leaf(alloc: Global, exp: &IlExp, types: &TypeTable) -> Result<Value, NoMemory>
    ensures { IfOk result (IsTermValue types.now exp.now) }
{
    match exp {
        IlExp::Bool(truth) => Ok(Value::Bool(*truth)),
        IlExp::Number(number) => {
            let value = natural(*number)?;
            Ok(value)
        }
        IlExp::Text(text) => {
            let text = text.copy(alloc)?;
            Ok(Value::Text(text))
        }
        IlExp::Empty(_) => Ok(Value::Opt(None)),
        IlExp::Absent(ty) => {
            let value = left_out(alloc, types, ty)?;
            Ok(value)
        }
        _ => Err(NoMemory),
    }
}

/// The value of an expression, where it has one. Where it has none, or is too high, that is
/// answered as want of memory: no part of a term is elaborated to such an expression.
#[cycle(value)]
fn value_of(alloc: Global, exp: &IlExp, types: &TypeTable) -> Result<Value, NoMemory>
    ensures { IfOk result (IsTermValue types.now exp.now) }
{
    match exp {
        IlExp::Up(_, inner) => {
            let value = value_of(alloc, inner.get(), types)?;
            Ok(value)
        }
        IlExp::Neg(inner) => {
            let value = value_of(alloc, inner.get(), types)?;
            let value = negated(&value)?;
            Ok(value)
        }
        IlExp::Present(inner) => {
            let part = value_of(alloc, inner.get(), types)?;
            let part = Boxed::new(alloc, part)?;
            let value = low(Value::Opt(Some(part)))?;
            Ok(value)
        }
        IlExp::Case(_, tag, operands) => {
            let values = values_of(alloc, operands.as_slice(), types)?;
            let tag = tag.copy(alloc)?;
            let value = low(Value::Case(tag, values))?;
            Ok(value)
        }
        IlExp::Tuple(parts) => {
            let values = values_of(alloc, parts.as_slice(), types)?;
            let value = low(Value::Tuple(values))?;
            Ok(value)
        }
        IlExp::Fields(name, parts) => {
            let values = values_of(alloc, parts.as_slice(), types)?;
            let value = record_of(alloc, types, name, values)?;
            Ok(value)
        }
        IlExp::List(_, items) => {
            let elements = elements_of(alloc, items.as_slice(), types)?;
            let value = low(Value::List(elements))?;
            Ok(value)
        }
        _ => leaf(alloc, exp, types),
    }
}

/// The values of expressions, where each has one.
#[cycle(value)]
pub(crate) fn values_of(
    alloc: Global,
    exps: &[IlExp],
    types: &TypeTable,
) -> Result<Row<Value>, NoMemory>
    ensures { IfOk result (AreTermValues types.now exps.now) }
{
    let mut values = Row::new(alloc);
    for exp in exps {
        let value = value_of(alloc, exp, types)?;
        values.push(value)?;
    }
    Ok(values)
}

/// The elements of the list that these items make, where each has a value.
#[cycle(value)]
fn elements_of(alloc: Global, items: &[ListItem], types: &TypeTable) -> Result<Row<Value>, NoMemory>
    ensures { IfOk result (AreElements types.now items.now) }
{
    let mut elements = Row::new(alloc);
    for item in items {
        let more = item_elements(alloc, item, types)?;
        elements = joined(elements, more)?;
    }
    Ok(elements)
}

/// The elements that an item of a list stands for, where it has a value.
#[cycle(value)]
fn item_elements(alloc: Global, item: &ListItem, types: &TypeTable) -> Result<Row<Value>, NoMemory>
    ensures { IfOk result (StandsFor types.now item.now) }
{
    let mut elements = Row::new(alloc);
    match item {
        ListItem::One(exp) => {
            let value = value_of(alloc, exp, types)?;
            elements.push(value)?;
            Ok(elements)
        }
        ListItem::All(exp) => {
            let value = value_of(alloc, exp, types)?;
            match value {
                Value::List(parts) => Ok(parts),
                _ => Err(NoMemory),
            }
        }
    }
}
