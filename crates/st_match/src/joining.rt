//! Records that are joined field by field.

ghost use Rattle.std.specs.Prelude.{◌≡◌, IfOk};
ghost use Rattle.st_il.specs.declared.value.Value.{out-Value};
ghost use Rattle.st_semantics.specs.Parts.{binary};
ghost use Rattle.st_semantics.specs.Operators.{join, joined_options};
ghost use Rattle.st_semantics.specs.Parts.{option_list};
ghost use Rattle.st_match.specs.inner.Joined.{list_joined, option_joined, fields_joined, record_joined};

use crate::made::{append, made, two};
use st_il::{Value, copy_value, copy_values};
use st_num::{Boxed, Name, NoMemory, Row};
use st_semantics::Outcome;
use std::alloc::Global;

/// What two values are joined to: two lists, two options or two records.
#[cycle(join)]
fn join_of(alloc: Global, value: &Value, other: &Value) -> Result<Option<Value>, NoMemory>
    ensures { IfOk result (λ joined. joined ≡ join value.now other.now) }
{
    match value {
        Value::List(parts) => {
            let joined = join_list(alloc, parts.as_slice(), other)?;
            Ok(joined)
        }
        Value::Opt(part) => {
            let joined = join_option(alloc, part, other)?;
            Ok(joined)
        }
        Value::Fields(fields) => {
            let joined = join_record(alloc, fields.as_slice(), other)?;
            Ok(joined)
        }
        Value::Bool(_) | Value::Num(_) | Value::Text(_) => Ok(None),
        Value::Case(_, _) | Value::Tuple(_) => Ok(None),
    }
}

/// A record joined with a value.
#[cycle(join)]
fn join_record(
    alloc: Global,
    fields: &[(Name, Value)],
    other: &Value,
) -> Result<Option<Value>, NoMemory>
    ensures { IfOk result (λ joined. joined ≡ record_joined fields.now (out-Value other.now)) }
{
    match other {
        Value::Fields(others) => {
            let joined = join_fields(alloc, fields, others.as_slice())?;
            match joined {
                None => Ok(None),
                Some(joined) => Ok(Some(Value::Fields(joined))),
            }
        }
        _ => Ok(None),
    }
}

/// The fields of two records, joined in order, where they have as many.
#[cycle(join)]
fn join_fields(
    alloc: Global,
    fields: &[(Name, Value)],
    others: &[(Name, Value)],
) -> Result<Option<Row<(Name, Value)>>, NoMemory>
    ensures { IfOk result (λ joined. joined ≡ fields_joined fields.now others.now) }
{
    if fields.len() != others.len() {
        return Ok(None);
    }
    let mut joined = Row::new(alloc);
    for (i, field) in fields.iter().enumerate() {
        let value = join_of(alloc, &field.1, &others[i].1)?;
        match value {
            None => return Ok(None),
            Some(value) => {
                let name = field.0.copy(alloc)?;
                joined.push((name, value))?;
            }
        }
    }
    Ok(Some(joined))
}

/// A list joined with a value.
fn join_list(alloc: Global, parts: &[Value], other: &Value) -> Result<Option<Value>, NoMemory>
    ensures { IfOk result (λ joined. joined ≡ list_joined parts.now (out-Value other.now)) }
{
    match other {
        Value::List(others) => {
            let first = copy_values(alloc, parts)?;
            let second = copy_values(alloc, others.as_slice())?;
            let all = append(first, second)?;
            Ok(Some(Value::List(all)))
        }
        _ => Ok(None),
    }
}

/// An option joined with a value.
fn join_option(
    alloc: Global,
    part: &Option<Boxed<Value>>,
    other: &Value,
) -> Result<Option<Value>, NoMemory>
    ensures { IfOk result (λ joined. joined ≡ option_joined part.now (out-Value other.now)) }
{
    match other {
        Value::Opt(other) => {
            let joined = join_options(alloc, part, other)?;
            Ok(joined)
        }
        _ => Ok(None),
    }
}

/// Two options joined, where at most one is present.
fn join_options(
    alloc: Global,
    part: &Option<Boxed<Value>>,
    other: &Option<Boxed<Value>>,
) -> Result<Option<Value>, NoMemory>
    ensures { IfOk result
        (λ joined. joined ≡ joined_options (option_list part.now) (option_list other.now)) }
{
    match (part, other) {
        (Some(_), Some(_)) => Ok(None),
        (None, None) => Ok(Some(Value::Opt(None))),
        (Some(value), None) | (None, Some(value)) => {
            let value = copy_value(alloc, value.get())?;
            Ok(Some(Value::Opt(Some(Boxed::new(alloc, value)?))))
        }
    }
}

/// The two operands joined.
pub(crate) fn join(alloc: Global, operands: &[Value]) -> Result<Outcome, NoMemory>
    ensures { IfOk result (λ outcome. outcome ≡ binary join operands.now) }
{
    match two(operands) {
        None => Ok(Outcome::NoValue),
        Some((value, other)) => {
            let joined = join_of(alloc, value, other)?;
            Ok(made(joined))
        }
    }
}
