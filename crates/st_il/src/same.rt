//! Equality of values.

ghost use Rattle.std.specs.Prelude.{◌≡◌, ◌↔◌, IsTrue};

use crate::{Env, Value};
use st_num::Name;

/// Whether the values are equal. It takes no memory.
#[cycle(same_value)]
pub fn same_value(a: &Value, b: &Value) -> bool
    ensures { IsTrue result ↔ (a.now ≡ b.now) }
{
    match (a, b) {
        (Value::Bool(one), Value::Bool(other)) => *one == *other,
        (Value::Num(one), Value::Num(other)) => *one == *other,
        (Value::Text(one), Value::Text(other)) => *one == *other,
        (Value::Case(one, parts), Value::Case(other, others)) => *one == *other
            && same_values(parts.as_slice(), others.as_slice()),
        (Value::Fields(fields), Value::Fields(others)) => {
            same_fields(fields.as_slice(), others.as_slice())
        }
        (Value::Tuple(parts), Value::Tuple(others)) => {
            same_values(parts.as_slice(), others.as_slice())
        }
        (Value::List(parts), Value::List(others)) => {
            same_values(parts.as_slice(), others.as_slice())
        }
        (Value::Opt(None), Value::Opt(None)) => true,
        (Value::Opt(Some(part)), Value::Opt(Some(other))) => same_value(part.get(), other.get()),
        _ => false,
    }
}

/// Whether the lists of values are equal. It takes no memory.
#[cycle(same_value)]
pub fn same_values(a: &[Value], b: &[Value]) -> bool
    ensures { IsTrue result ↔ (a.now ≡ b.now) }
{
    if a.len() != b.len() {
        return false;
    }
    for (i, value) in a.iter().enumerate() {
        if !same_value(value, &b[i]) {
            return false;
        }
    }
    true
}

/// Whether the fields are equal, names and values. It takes no memory.
#[cycle(same_value)]
pub fn same_fields(a: &[(Name, Value)], b: &[(Name, Value)]) -> bool
    ensures { IsTrue result ↔ (a.now ≡ b.now) }
{
    if a.len() != b.len() {
        return false;
    }
    for (i, field) in a.iter().enumerate() {
        if field.0 != b[i].0 || !same_value(&field.1, &b[i].1) {
            return false;
        }
    }
    true
}

/// Whether the environments are equal. It takes no memory.
pub fn same_env(a: &Env, b: &Env) -> bool
    ensures { IsTrue result ↔ (a.now ≡ b.now) }
{
    same_fields(a.entries.as_slice(), b.entries.as_slice())
}
