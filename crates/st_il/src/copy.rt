//! Copies of types and values.

ghost use Rattle.std.specs.Prelude.{◌≡◌, IfOk};

use crate::{Env, Ty, Value};
use st_num::{Boxed, Name, NoMemory, Row};
use std::alloc::Global;

/// The same type again.
#[cycle(copy_ty)]
pub fn copy_ty(alloc: Global, ty: &Ty) -> Result<Ty, NoMemory>
    ensures { IfOk result (λ copy. copy ≡ ty.now) }
{
    match ty {
        Ty::Bool => Ok(Ty::Bool),
        Ty::Nat => Ok(Ty::Nat),
        Ty::Int => Ok(Ty::Int),
        Ty::Text => Ok(Ty::Text),
        Ty::Name(name) => Ok(Ty::Name(name.copy(alloc)?)),
        Ty::List(inner) => Ok(Ty::List(Boxed::new(alloc, copy_ty(alloc, inner.get())?)?)),
        Ty::Opt(inner) => Ok(Ty::Opt(Boxed::new(alloc, copy_ty(alloc, inner.get())?)?)),
        Ty::Tuple(parts) => Ok(Ty::Tuple(copy_tys(alloc, parts.as_slice())?)),
    }
}

/// The same types again.
#[cycle(copy_ty)]
pub fn copy_tys(alloc: Global, tys: &[Ty]) -> Result<Row<Ty>, NoMemory>
    ensures { IfOk result (λ copies. copies ≡ tys.now) }
{
    let mut copies = Row::new(alloc);
    for ty in tys {
        copies.push(copy_ty(alloc, ty)?)?;
    }
    Ok(copies)
}

/// The same value again.
#[cycle(copy_value)]
pub fn copy_value(alloc: Global, value: &Value) -> Result<Value, NoMemory>
    ensures { IfOk result (λ copy. copy ≡ value.now) }
{
    match value {
        Value::Bool(truth) => Ok(Value::Bool(*truth)),
        Value::Num(number) => Ok(Value::Num(*number)),
        Value::Text(text) => Ok(Value::Text(text.copy(alloc)?)),
        Value::Case(tag, parts) => {
            let tag = tag.copy(alloc)?;
            Ok(Value::Case(tag, copy_values(alloc, parts.as_slice())?))
        }
        Value::Fields(fields) => Ok(Value::Fields(copy_fields(alloc, fields.as_slice())?)),
        Value::Tuple(parts) => Ok(Value::Tuple(copy_values(alloc, parts.as_slice())?)),
        Value::List(parts) => Ok(Value::List(copy_values(alloc, parts.as_slice())?)),
        Value::Opt(None) => Ok(Value::Opt(None)),
        Value::Opt(Some(part)) => {
            let part = copy_value(alloc, part.get())?;
            Ok(Value::Opt(Some(Boxed::new(alloc, part)?)))
        }
    }
}

/// The same values again.
#[cycle(copy_value)]
pub fn copy_values(alloc: Global, values: &[Value]) -> Result<Row<Value>, NoMemory>
    ensures { IfOk result (λ copies. copies ≡ values.now) }
{
    let mut copies = Row::new(alloc);
    for value in values {
        copies.push(copy_value(alloc, value)?)?;
    }
    Ok(copies)
}

/// The same fields again.
#[cycle(copy_value)]
pub fn copy_fields(alloc: Global, fields: &[(Name, Value)]) -> Result<Row<(Name, Value)>, NoMemory>
    ensures { IfOk result (λ copies. copies ≡ fields.now) }
{
    let mut copies = Row::new(alloc);
    for field in fields {
        let name = field.0.copy(alloc)?;
        copies.push((name, copy_value(alloc, &field.1)?))?;
    }
    Ok(copies)
}

/// The same environment again.
pub fn copy_env(alloc: Global, env: &Env) -> Result<Env, NoMemory>
    ensures { IfOk result (λ copy. copy ≡ env.now) }
{
    let entries = copy_fields(alloc, env.entries.as_slice())?;
    Ok(Env { entries })
}
