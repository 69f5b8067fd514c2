//! Copies of definitions: of a syntax with its body, of a relation and of a function.

ghost use Rattle.std.specs.Prelude.{◌≡◌, IfOk};

use crate::copy::{copy_ty, copy_tys};
use crate::{Alternative, FunDef, RelationDef, SyntaxBody, SyntaxDef, Ty};
use st_num::{Name, NoMemory, Row};
use std::alloc::Global;

/// The same alternative again.
fn copy_alternative(alloc: Global, part: &Alternative) -> Result<Alternative, NoMemory>
    ensures { IfOk result (λ copy. copy ≡ part.now) }
{
    match part {
        Alternative::Case(tag, operands) => {
            let tag = tag.copy(alloc)?;
            Ok(Alternative::Case(tag, copy_tys(alloc, operands.as_slice())?))
        }
        Alternative::Incl(name) => Ok(Alternative::Incl(name.copy(alloc)?)),
    }
}

/// The same alternatives again.
fn copy_alternatives(alloc: Global, parts: &[Alternative]) -> Result<Row<Alternative>, NoMemory>
    ensures { IfOk result (λ copies. copies ≡ parts.now) }
{
    let mut copies = Row::new(alloc);
    for part in parts {
        copies.push(copy_alternative(alloc, part)?)?;
    }
    Ok(copies)
}

/// The same names with their types again.
fn copy_typed(alloc: Global, named: &[(Name, Ty)]) -> Result<Row<(Name, Ty)>, NoMemory>
    ensures { IfOk result (λ copies. copies ≡ named.now) }
{
    let mut copies = Row::new(alloc);
    for one in named {
        let name = one.0.copy(alloc)?;
        copies.push((name, copy_ty(alloc, &one.1)?))?;
    }
    Ok(copies)
}

/// The same body again.
pub fn copy_body(alloc: Global, body: &SyntaxBody) -> Result<SyntaxBody, NoMemory>
    ensures { IfOk result (λ copy. copy ≡ body.now) }
{
    match body {
        SyntaxBody::Alias(ty) => Ok(SyntaxBody::Alias(copy_ty(alloc, ty)?)),
        SyntaxBody::Variant(parts) => {
            let parts = copy_alternatives(alloc, parts.as_slice())?;
            Ok(SyntaxBody::Variant(parts))
        }
        SyntaxBody::Fields(fields) => {
            Ok(SyntaxBody::Fields(copy_typed(alloc, fields.as_slice())?))
        }
    }
}

/// The same syntax again.
pub fn copy_syntax(alloc: Global, syntax: &SyntaxDef) -> Result<SyntaxDef, NoMemory>
    ensures { IfOk result (λ copy. copy ≡ syntax.now) }
{
    let name = syntax.name.copy(alloc)?;
    let body = copy_body(alloc, &syntax.body)?;
    Ok(SyntaxDef { name, body })
}

/// The same relation again.
pub fn copy_relation(alloc: Global, relation: &RelationDef) -> Result<RelationDef, NoMemory>
    ensures { IfOk result (λ copy. copy ≡ relation.now) }
{
    let name = relation.name.copy(alloc)?;
    let tag = relation.tag.copy(alloc)?;
    let holes = copy_tys(alloc, relation.holes.as_slice())?;
    let mode = relation.mode.copy(alloc)?;
    Ok(RelationDef {
        name,
        tag,
        holes,
        mode,
    })
}

/// The same function again.
pub fn copy_fun(alloc: Global, fun: &FunDef) -> Result<FunDef, NoMemory>
    ensures { IfOk result (λ copy. copy ≡ fun.now) }
{
    let name = fun.name.copy(alloc)?;
    let params = copy_tys(alloc, fun.params.as_slice())?;
    Ok(FunDef {
        name,
        params,
        result: copy_ty(alloc, &fun.result)?,
    })
}
