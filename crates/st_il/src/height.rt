//! Heights of values.

ghost use Rattle.std.specs.Prelude.{◌≡◌, ℕ, nat_le, map};
ghost use Rattle.st_il.specs.Height.{height, highest, field_heights};

use crate::Value;
use st_num::Name;

/// Whether the value is at most so high. It takes no memory, and goes no deeper than the limit.
#[cycle(height)]
pub fn is_within_height(value: &Value, limit: u32) -> bool
    ensures { result ≡ nat_le (height value.now) limit }
{
    if limit == 0 {
        return false;
    }
    match value {
        Value::Bool(_) | Value::Num(_) | Value::Text(_) | Value::Opt(None) => true,
        Value::Case(_, parts) => parts_are_within(parts.as_slice(), limit - 1),
        Value::Fields(fields) => fields_are_within(fields.as_slice(), limit - 1),
        Value::Tuple(parts) => parts_are_within(parts.as_slice(), limit - 1),
        Value::List(parts) => parts_are_within(parts.as_slice(), limit - 1),
        Value::Opt(Some(part)) => is_within_height(part.get(), limit - 1),
    }
}

/// Whether no part is higher than this.
#[cycle(height)]
fn parts_are_within(parts: &[Value], limit: u32) -> bool
    ensures { result ≡ nat_le (highest (map height parts.now)) limit }
{
    for part in parts {
        if !is_within_height(part, limit) {
            return false;
        }
    }
    true
}

/// Whether no field has a value higher than this.
#[cycle(height)]
fn fields_are_within(fields: &[(Name, Value)], limit: u32) -> bool
    ensures { result ≡ nat_le (highest (field_heights fields.now)) limit }
{
    for field in fields {
        if !is_within_height(&field.1, limit) {
            return false;
        }
    }
    true
}
