//! The term from which a relation is searched: a value for each of its inputs.

ghost use Rattle.std.specs.Prelude.{◌≡◌, ◌<◌, ◌^◌, [], ◌∷◌, ◌++◌, true, false, codes, length, slice_get, unwrap_or, if◌then◌else◌, IfOk, OnOk};
ghost use Rattle.st_elab_rows.specs.Told.{Told};
ghost use Rattle.st_il.specs.declared.expression.IlExp.TheVariants as form;
ghost use Rattle.st_semantics.specs.Directions.{inputs_by};
ghost use Rattle.st_semantics.specs.Environments.{IsTypedValue, AreTypedValues};
ghost use Rattle.st_term.specs.Reading.{IsTerm, IsTermBreach};

use crate::read::read_term;
use st_elab_table::Decls;
use st_il::{IlExp, Listed, Ty, Value, copy_ty};
use st_match::all_match;
use st_num::{Dim, Fault, Name, NoMemory, Row};
use st_type_table::TypeTable;
use std::alloc::Global;
use std::slice::from_ref;

/// Whether the hole of a number is an input.
fn is_input(inputs: &[bool], number: usize) -> bool
    ensures { result ≡ unwrap_or (slice_get inputs.now number) false }
{
    match inputs.get(number) {
        Some(input) => *input,
        None => false,
    }
}

/// Adds the type of the hole of a number, if it is an input.
fn push_input(
    alloc: Global,
    inputs: &[bool],
    number: usize,
    hole: &Ty,
    types: &mut Row<Ty>,
) -> Result<(), NoMemory>
    ensures { OnOk result (types.new ≡ types.old
        ++ (if unwrap_or (slice_get inputs.now number) false then hole.now ∷ [] else [])) }
{
    if is_input(inputs, number) {
        types.push(copy_ty(alloc, hole)?)?;
    }
    Ok(())
}

/// The types at the inputs among these holes.
pub fn input_types(alloc: Global, inputs: &[bool], holes: &[Ty]) -> Result<Row<Ty>, NoMemory>
    ensures { IfOk result (λ types. types ≡ inputs_by inputs.now holes.now) }
{
    let mut types = Row::new(alloc);
    for (number, hole) in holes.iter().enumerate() {
        push_input(alloc, inputs, number, hole, &mut types)?;
    }
    Ok(types)
}

/// The name of the variable with which a value is matched.
fn variable_name(alloc: Global) -> Result<Name, NoMemory>
    ensures { IfOk result (λ name. name ≡ codes "x") }
{
    Name::from_slice(alloc, b"x")
}

/// This variable, of a type, without a dimension.
fn variable_of(alloc: Global, ty: &Ty) -> Result<Listed, NoMemory>
    ensures { IfOk result (λ variable. variable
        ≡ record { name = codes "x"; ty = ty.now; dim = [] }) }
{
    let name = variable_name(alloc)?;
    let ty = copy_ty(alloc, ty)?;
    Ok(Listed {
        name,
        ty,
        dim: Dim::new(alloc),
    })
}

/// Whether this pattern matches a value, a variable without a dimension: then the value has its type.
fn is_matched_by(
    alloc: Global,
    types: &TypeTable,
    variable: &Listed,
    pattern: &IlExp,
    value: &Value,
) -> Result<bool, NoMemory>
    requires pattern { pattern.now ≡ form.Var variable.now.name }
    requires dim { variable.now.dim ≡ [] }
    ensures { IfOk result (λ some. some ≡ true
        → IsTypedValue types.now variable.now.ty value.now) }
{
    let variables = from_ref(variable);
    let patterns = from_ref(pattern);
    let found = all_match(alloc, types, variables, patterns, from_ref(value))?;
    Ok(!found.is_empty())
}

/// Whether a variable without a dimension matches a value: then the value has its type.
fn is_matched(
    alloc: Global,
    types: &TypeTable,
    variable: &Listed,
    value: &Value,
) -> Result<bool, NoMemory>
    requires { variable.now.dim ≡ [] }
    ensures { IfOk result (λ some. some ≡ true
        → IsTypedValue types.now variable.now.ty value.now) }
{
    let name = variable.name.copy(alloc)?;
    let pattern = IlExp::Var(name);
    is_matched_by(alloc, types, variable, &pattern, value)
}

/// The value has this type. Those of terms have the types at which they are read; where one had not,
/// that would be answered as want of memory.
fn typed(alloc: Global, types: &TypeTable, ty: &Ty, value: &Value) -> Result<(), NoMemory>
    ensures { OnOk result (IsTypedValue types.now ty.now value.now) }
{
    let variable = variable_of(alloc, ty)?;
    if is_matched(alloc, types, &variable, value)? {
        Ok(())
    } else {
        Err(NoMemory)
    }
}

/// So has each of these values.
fn all_typed(
    alloc: Global,
    types: &TypeTable,
    holes: &[Ty],
    values: &[Value],
) -> Result<(), NoMemory>
    ensures { OnOk result (AreTypedValues types.now holes.now values.now) }
{
    if holes.len() != values.len() {
        return Err(NoMemory);
    }
    for i in 0..holes.len() {
        typed(alloc, types, &holes[i], &values[i])?;
    }
    Ok(())
}

/// The values of a term, of these types, from its text; or the first rule that the text breaks, and
/// where.
pub fn typed_term(
    alloc: Global,
    decls: &Decls,
    holes: &[Ty],
    text: &[u8],
) -> Result<Row<Value>, Fault>
    requires { length text.now < 2 ^ 32 }
    ensures told { Told (IsTerm decls.now holes.now text.now)
        (IsTermBreach decls.now holes.now text.now) result }
    ensures typed { IfOk result (AreTypedValues decls.now.types holes.now) }
{
    let values = read_term(alloc, decls, holes, text)?;
    all_typed(alloc, &decls.types, holes, values.as_slice())?;
    Ok(values)
}
