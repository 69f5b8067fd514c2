//! Operations on records.

ghost use Rattle.std.specs.Prelude.{◌≡◌, Some, None, IfOk, MatchOption, map, zip};
ghost use Rattle.std.specs.Option.{option_copied};
ghost use Rattle.st_semantics.specs.Environments.{lookup};
ghost use Rattle.st_semantics.specs.Parts.{fields, unary};
ghost use Rattle.st_semantics.specs.Operators.{field};
ghost use Rattle.st_semantics.specs.Forms.{building};

use crate::list::next;
use crate::made::{limited, made};
use st_il::{Ty, Value, copy_value};
use st_num::{Name, NoMemory, Row};
use st_semantics::Outcome;
use std::alloc::Global;
use std::collections::VecDeque;

/// The fields of a value that is a record.
pub(crate) fn fields<'a>(value: &'a Value) -> Option<&'a [(Name, Value)]>
    ensures { MatchOption result (fields value.now ≡ None)
        (λ found. fields value.now ≡ Some found.now) }
{
    match value {
        Value::Fields(fields) => Some(fields.as_slice()),
        _ => None,
    }
}

/// What stands in the first field of this name.
fn find<'a>(name: &Name, fields: &'a [(Name, Value)]) -> Option<&'a Value>
    ensures { option_copied result ≡ lookup name.now fields.now }
{
    for field in fields {
        if name.as_slice() == field.0.as_slice() {
            return Some(&field.1);
        }
    }
    None
}

/// What stands in the field of this name, if the record has it.
fn field_of(alloc: Global, name: &Name, value: &Value) -> Result<Option<Value>, NoMemory>
    ensures { IfOk result (λ found. found ≡ field name.now value.now) }
{
    let Some(fields) = fields(value) else {
        return Ok(None);
    };
    match find(name, fields) {
        None => Ok(None),
        Some(value) => {
            let value = copy_value(alloc, value)?;
            Ok(Some(value))
        }
    }
}

/// What stands in the field of this name of the one operand.
pub(crate) fn field(alloc: Global, name: &Name, operands: &[Value]) -> Result<Outcome, NoMemory>
    ensures { IfOk result (λ outcome. outcome ≡ unary (field name.now) operands.now) }
{
    match operands {
        [value] => {
            let found = field_of(alloc, name, value)?;
            Ok(made(found))
        }
        _ => Ok(Outcome::NoValue),
    }
}

/// The fields with these names and values, as long as there are both.
fn named(
    alloc: Global,
    declared: &[(Name, Ty)],
    values: Row<Value>,
) -> Result<Row<(Name, Value)>, NoMemory>
    ensures { IfOk result (λ fields. fields ≡ zip (map (λ d. d.0) declared.now) values) }
{
    let mut left = VecDeque::from_vec(values.into_vec());
    let mut fields = Row::new(alloc);
    for field in declared {
        let Some(value) = next(&mut left) else {
            return Ok(fields);
        };
        let name = field.0.copy(alloc)?;
        fields.push((name, value))?;
    }
    Ok(fields)
}

/// The record that has the declared fields with these values.
pub(crate) fn building(
    alloc: Global,
    declared: &[(Name, Ty)],
    values: Row<Value>,
) -> Result<Outcome, NoMemory>
    ensures { IfOk result (λ outcome. outcome ≡ building declared.now values) }
{
    let fields = named(alloc, declared, values)?;
    Ok(limited(Value::Fields(fields)))
}
