//! Values with all that is in them.

ghost use Rattle.std.specs.Prelude.{◌↔◌, IsTrue, IsUtf8};
ghost use Rattle.std.specs.List.{All};
ghost use Rattle.st_num.specs.Number.{IsNumber};
ghost use Rattle.st_num.specs.Texts.{IsTextByte, IsText};
ghost use Rattle.st_il.specs.declared.value.Value.{out-Value};
ghost use Rattle.st_match.specs.inner.Proper.{IsProper, AreProper, FieldsAreProper, ProperAt};

use st_il::Value;
use st_num::{Name, Num};

/// Whether texts may have this byte.
fn is_text_byte(byte: u8) -> bool
    ensures { IsTrue result ↔ IsTextByte byte }
{
    match byte {
        b'\t' | b'\n' | 32..=255 => true,
        _ => false,
    }
}

/// Whether texts may have each of these bytes.
fn are_text_bytes(bytes: &[u8]) -> bool
    ensures { IsTrue result ↔ All IsTextByte bytes.now }
{
    bytes.iter().all(|byte| is_text_byte(*byte))
}

/// Whether the bytes are UTF-8.
fn is_utf8(bytes: &[u8]) -> bool
    ensures { IsTrue result ↔ IsUtf8 bytes.now }
{
    str::from_utf8(bytes).is_ok()
}

/// Whether the bytes are a text.
fn is_text(bytes: &[u8]) -> bool
    ensures { IsTrue result ↔ IsText bytes.now }
{
    if !is_utf8(bytes) {
        return false;
    }
    are_text_bytes(bytes)
}

/// Whether the name is a text.
fn is_text_name(name: &Name) -> bool
    ensures { IsTrue result ↔ IsText name.now }
{
    is_text(name.as_slice())
}

/// Whether the number is in range, as every number is: its size is a `u128`.
fn is_number(number: &Num) -> bool
    ensures { IsTrue result ↔ IsNumber number.now }
{
    let _size: u128 = number.magnitude();
    true
}

/// Whether all texts in the value are texts, and all its numbers in range.
#[cycle(proper)]
pub(crate) fn is_proper(value: &Value) -> bool
    ensures { IsTrue result ↔ IsProper value.now }
{
    proper_at(value)
}

/// Whether this holds of the value, by its level.
#[cycle(proper)]
fn proper_at(value: &Value) -> bool
    ensures { IsTrue result ↔ ProperAt (out-Value value.now) }
{
    match value {
        Value::Bool(_) => true,
        Value::Num(number) => is_number(number),
        Value::Text(text) => is_text_name(text),
        Value::Case(tag, parts) => {
            if !is_text_name(tag) {
                return false;
            }
            are_proper(parts.as_slice())
        }
        Value::Fields(fields) => fields_are_proper(fields.as_slice()),
        Value::Tuple(parts) => are_proper(parts.as_slice()),
        Value::List(parts) => are_proper(parts.as_slice()),
        Value::Opt(None) => true,
        Value::Opt(Some(part)) => is_proper(part.get()),
    }
}

/// Whether this holds of each value.
#[cycle(proper)]
fn are_proper(values: &[Value]) -> bool
    ensures { IsTrue result ↔ AreProper values.now }
{
    for value in values {
        if !is_proper(value) {
            return false;
        }
    }
    true
}

/// Whether this holds of each field, and its name is a text.
#[cycle(proper)]
fn fields_are_proper(fields: &[(Name, Value)]) -> bool
    ensures { IsTrue result ↔ FieldsAreProper fields.now }
{
    for field in fields {
        if !is_text_name(&field.0) {
            return false;
        }
        if !is_proper(&field.1) {
            return false;
        }
    }
    true
}
