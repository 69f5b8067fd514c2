//! Which values have which types.

ghost use Rattle.std.specs.Prelude.{◌≡◌, ◌↔◌, IsTrue, List, MatchOption};
ghost use Rattle.std.specs.Option.{option_copied};
ghost use Rattle.st_type_table.specs.Cases.{operands_of};
ghost use Rattle.st_type_table.specs.HasType.{HasType, HaveTypes, AllHaveType, FieldsHaveTypes};
ghost use Rattle.st_il.specs.declared.ty.Ty.{Ty, out-Ty};
ghost use Rattle.st_il.specs.declared.value.Value.{out-Value};
ghost use Rattle.st_type_table.specs.inner.TypedLevels.{TypedAt, HasOperands};

use st_il::{Ty, Value};
use st_num::{Name, Row};
use st_type_table::{CaseDef, TypeTable};

/// The types of the operands of the case with this tag.
pub(crate) fn operands_of<'a>(cases: &'a [CaseDef], tag: &Name) -> Option<&'a Row<Ty>>
    ensures { option_copied result ≡ operands_of cases.now tag.now }
{
    for case in cases {
        if case.tag == *tag {
            return Some(&case.operands);
        }
    }
    None
}

/// Whether the value has the type.
#[cycle(typing)]
pub fn has_type(table: &TypeTable, value: &Value, ty: &Ty) -> bool
    ensures { IsTrue result ↔ HasType table.now value.now ty.now }
{
    typed_at(table, value, table.meaning(ty), ty)
}

/// Whether the value has the type, which has this meaning.
#[cycle(typing)]
fn typed_at(table: &TypeTable, value: &Value, meaning: &Ty, ty: &Ty) -> bool
    ensures { IsTrue result
        ↔ TypedAt table.now (out-Value value.now) (out-Ty meaning.now) ty.now }
{
    match value {
        Value::Bool(_) => matches!(meaning, Ty::Bool),
        Value::Num(number) => match meaning {
            Ty::Nat => !number.is_negative(),
            Ty::Int => true,
            _ => false,
        },
        Value::Text(_) => matches!(meaning, Ty::Text),
        Value::Case(tag, parts) => match operands(table, tag, ty) {
            Some(operands) => have_types(table, parts.as_slice(), operands.as_slice()),
            None => false,
        },
        Value::Fields(parts) => match table.fields(ty) {
            Some(fields) => fields_have_types(table, parts.as_slice(), fields),
            None => false,
        },
        Value::Tuple(parts) => match meaning {
            Ty::Tuple(types) => have_types(table, parts.as_slice(), types.as_slice()),
            _ => false,
        },
        Value::List(parts) => match meaning {
            Ty::List(element) => all_have_type(table, parts.as_slice(), element.get()),
            _ => false,
        },
        Value::Opt(None) => matches!(meaning, Ty::Opt(_)),
        Value::Opt(Some(part)) => match meaning {
            Ty::Opt(element) => has_type(table, part.get(), element.get()),
            _ => false,
        },
    }
}

/// The types of the operands of the case of this type with this tag.
fn operands<'a>(table: &'a TypeTable, tag: &Name, ty: &Ty) -> Option<&'a Row<Ty>>
    ensures { MatchOption result ((operands : List Ty)
        → HasOperands table.now ty.now tag.now operands → ⊥)
        (λ operands. HasOperands table.now ty.now tag.now operands.now) }
{
    match table.cases(ty) {
        Some(cases) => operands_of(cases.as_slice(), tag),
        None => None,
    }
}

/// Whether each value has the type in its place.
#[cycle(typing)]
fn have_types(table: &TypeTable, values: &[Value], types: &[Ty]) -> bool
    ensures { IsTrue result ↔ HaveTypes table.now values.now types.now }
{
    if values.len() != types.len() {
        return false;
    }
    for i in 0..values.len() {
        if !has_type(table, &values[i], &types[i]) {
            return false;
        }
    }
    true
}

/// Whether each value has the one type.
#[cycle(typing)]
fn all_have_type(table: &TypeTable, values: &[Value], ty: &Ty) -> bool
    ensures { IsTrue result ↔ AllHaveType table.now values.now ty.now }
{
    for value in values {
        if !has_type(table, value, ty) {
            return false;
        }
    }
    true
}

/// Whether the fields are those declared, in their order, each with a value of its type.
#[cycle(typing)]
fn fields_have_types(table: &TypeTable, values: &[(Name, Value)], fields: &[(Name, Ty)]) -> bool
    ensures { IsTrue result ↔ FieldsHaveTypes table.now values.now fields.now }
{
    if values.len() != fields.len() {
        return false;
    }
    for (i, field) in values.iter().enumerate() {
        let declared = &fields[i];
        if field.0 != declared.0 {
            return false;
        }
        if !has_type(table, &field.1, &declared.1) {
            return false;
        }
    }
    true
}
