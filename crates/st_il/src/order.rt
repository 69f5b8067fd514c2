//! The order of values, and that of environments.

ghost use Rattle.std.specs.Prelude.{◌≡◌, ◌↔◌, ℕ, List, []};
ghost use Rattle.st_il.specs.declared.value.Value.{out-Value};
ghost use Rattle.st_il.specs.Order.{value_cmp, values_cmp, fields_cmp, env_cmp, text_cmp, kind_of, IsOrder};

use crate::{Env, Value};
use st_num::Name;
use std::cmp::Ordering;

/// The order of values, which is total. It takes no memory.
pub fn compare(a: &Value, b: &Value) -> Ordering
    ensures order { result ≡ value_cmp a.now b.now }
    ensures law { IsOrder value_cmp }
    ensures atoms { (one other : List ℕ) → a.now ≡ Value.Case one [] → b.now ≡ Value.Case other []
        → result ≡ text_cmp one other }
{
    compare_value(a, b)
}

/// The order of lists of values, which is total. It takes no memory.
pub fn compare_values(a: &[Value], b: &[Value]) -> Ordering
    ensures order { result ≡ values_cmp a.now b.now }
    ensures law { IsOrder values_cmp }
{
    compare_parts(a, b)
}

/// The order of environments, by their entries, which is total. It takes no memory.
pub fn compare_env(a: &Env, b: &Env) -> Ordering
    ensures order { result ≡ env_cmp a.now b.now }
    ensures law { IsOrder env_cmp }
{
    compare_fields(a.entries.as_slice(), b.entries.as_slice())
}

/// How the first value is ordered to the second.
#[cycle(compare)]
fn compare_value(a: &Value, b: &Value) -> Ordering
    ensures { result ≡ value_cmp a.now b.now }
{
    match (a, b) {
        (Value::Bool(truth), Value::Bool(other)) => truth.cmp(other),
        (Value::Num(number), Value::Num(other)) => number.cmp(other),
        (Value::Text(text), Value::Text(other)) => text.cmp(other),
        (Value::Case(tag, parts), Value::Case(other, others)) => match tag.cmp(other) {
            Ordering::Equal => compare_parts(parts.as_slice(), others.as_slice()),
            unequal => unequal,
        },
        (Value::Fields(fields), Value::Fields(others)) => {
            compare_fields(fields.as_slice(), others.as_slice())
        }
        (Value::Tuple(parts), Value::Tuple(others)) => {
            compare_parts(parts.as_slice(), others.as_slice())
        }
        (Value::List(parts), Value::List(others)) => {
            compare_parts(parts.as_slice(), others.as_slice())
        }
        (Value::Opt(None), Value::Opt(None)) => Ordering::Equal,
        (Value::Opt(None), Value::Opt(Some(_))) => Ordering::Less,
        (Value::Opt(Some(_)), Value::Opt(None)) => Ordering::Greater,
        (Value::Opt(Some(part)), Value::Opt(Some(other))) => {
            compare_value(part.get(), other.get())
        }
        _ => kind(a).cmp(&kind(b)),
    }
}

/// How two lists of values are ordered: by the first that differ, or else by their lengths.
#[cycle(compare)]
fn compare_parts(parts: &[Value], others: &[Value]) -> Ordering
    ensures { result ≡ values_cmp parts.now others.now }
{
    for (i, part) in parts.iter().enumerate() {
        let Some(other) = others.get(i) else {
            return Ordering::Greater;
        };
        match compare_value(part, other) {
            Ordering::Equal => {}
            unequal => return unequal,
        }
    }
    parts.len().cmp(&others.len())
}

/// How two lists of fields are ordered: by the first that differ, or else by their lengths.
#[cycle(compare)]
fn compare_fields(fields: &[(Name, Value)], others: &[(Name, Value)]) -> Ordering
    ensures { result ≡ fields_cmp fields.now others.now }
{
    for (i, field) in fields.iter().enumerate() {
        let Some(other) = others.get(i) else {
            return Ordering::Greater;
        };
        match field.0.cmp(&other.0) {
            Ordering::Equal => {}
            unequal => return unequal,
        }
        match compare_value(&field.1, &other.1) {
            Ordering::Equal => {}
            unequal => return unequal,
        }
    }
    fields.len().cmp(&others.len())
}

/// The number of a value's kind, by which kinds are ordered.
fn kind(value: &Value) -> u8
    ensures { result ≡ kind_of (out-Value value.now) }
{
    match value {
        Value::Bool(_) => 0,
        Value::Num(_) => 1,
        Value::Text(_) => 2,
        Value::Case(_, _) => 3,
        Value::Fields(_) => 4,
        Value::Tuple(_) => 5,
        Value::List(_) => 6,
        Value::Opt(_) => 7,
    }
}
