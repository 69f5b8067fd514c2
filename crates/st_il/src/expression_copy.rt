//! Copies of expressions.

ghost use Rattle.std.specs.Prelude.{◌≡◌, IfOk};

use crate::copy::copy_ty;
use crate::{IlExp, Iteration, ListItem, PathSeg};
use st_num::{Boxed, Name, NoMemory, Row, copy_names};
use std::alloc::Global;

/// The same expression again, in a box of its own.
#[cycle(copy)]
fn copy_box(alloc: Global, exp: &Boxed<IlExp>) -> Result<Boxed<IlExp>, NoMemory>
    ensures { IfOk result (λ copy. copy ≡ exp.now) }
{
    Boxed::new(alloc, copy_exp(alloc, exp.get())?)
}

/// The same expression again.
#[cycle(copy)]
pub fn copy_exp(alloc: Global, exp: &IlExp) -> Result<IlExp, NoMemory>
    ensures { IfOk result (λ copy. copy ≡ exp.now) }
{
    match exp {
        IlExp::Bool(truth) => Ok(IlExp::Bool(*truth)),
        IlExp::Number(number) => Ok(IlExp::Number(*number)),
        IlExp::Text(text) => Ok(IlExp::Text(text.copy(alloc)?)),
        IlExp::Var(name) => Ok(IlExp::Var(name.copy(alloc)?)),
        IlExp::Not(x) => Ok(IlExp::Not(copy_box(alloc, x)?)),
        IlExp::And(x, y) => Ok(IlExp::And(copy_box(alloc, x)?, copy_box(alloc, y)?)),
        IlExp::Or(x, y) => Ok(IlExp::Or(copy_box(alloc, x)?, copy_box(alloc, y)?)),
        IlExp::Imp(x, y) => Ok(IlExp::Imp(copy_box(alloc, x)?, copy_box(alloc, y)?)),
        IlExp::Iff(x, y) => Ok(IlExp::Iff(copy_box(alloc, x)?, copy_box(alloc, y)?)),
        IlExp::Neg(x) => Ok(IlExp::Neg(copy_box(alloc, x)?)),
        IlExp::Add(ty, x, y) => Ok(IlExp::Add(*ty, copy_box(alloc, x)?, copy_box(alloc, y)?)),
        IlExp::Sub(ty, x, y) => Ok(IlExp::Sub(*ty, copy_box(alloc, x)?, copy_box(alloc, y)?)),
        IlExp::Mul(ty, x, y) => Ok(IlExp::Mul(*ty, copy_box(alloc, x)?, copy_box(alloc, y)?)),
        IlExp::Div(ty, x, y) => Ok(IlExp::Div(*ty, copy_box(alloc, x)?, copy_box(alloc, y)?)),
        IlExp::Rem(ty, x, y) => Ok(IlExp::Rem(*ty, copy_box(alloc, x)?, copy_box(alloc, y)?)),
        IlExp::Pow(ty, x, y) => Ok(IlExp::Pow(*ty, copy_box(alloc, x)?, copy_box(alloc, y)?)),
        IlExp::Eq(x, y) => Ok(IlExp::Eq(copy_box(alloc, x)?, copy_box(alloc, y)?)),
        IlExp::Ne(x, y) => Ok(IlExp::Ne(copy_box(alloc, x)?, copy_box(alloc, y)?)),
        IlExp::Lt(x, y) => Ok(IlExp::Lt(copy_box(alloc, x)?, copy_box(alloc, y)?)),
        IlExp::Gt(x, y) => Ok(IlExp::Gt(copy_box(alloc, x)?, copy_box(alloc, y)?)),
        IlExp::Le(x, y) => Ok(IlExp::Le(copy_box(alloc, x)?, copy_box(alloc, y)?)),
        IlExp::Ge(x, y) => Ok(IlExp::Ge(copy_box(alloc, x)?, copy_box(alloc, y)?)),
        IlExp::Member(x, y) => Ok(IlExp::Member(copy_box(alloc, x)?, copy_box(alloc, y)?)),
        IlExp::Case(ty, tag, parts) => {
            let ty = ty.copy(alloc)?;
            let tag = tag.copy(alloc)?;
            Ok(IlExp::Case(ty, tag, copy_exps(alloc, parts.as_slice())?))
        }
        IlExp::Fields(ty, parts) => {
            let ty = ty.copy(alloc)?;
            Ok(IlExp::Fields(ty, copy_exps(alloc, parts.as_slice())?))
        }
        IlExp::Dot(x, field) => Ok(IlExp::Dot(copy_box(alloc, x)?, field.copy(alloc)?)),
        IlExp::Set(x, path, y) => {
            let path = copy_path(alloc, path.as_slice())?;
            Ok(IlExp::Set(copy_box(alloc, x)?, path, copy_box(alloc, y)?))
        }
        IlExp::Extend(x, path, y) => {
            let path = copy_path(alloc, path.as_slice())?;
            Ok(IlExp::Extend(copy_box(alloc, x)?, path, copy_box(alloc, y)?))
        }
        IlExp::Tuple(parts) => Ok(IlExp::Tuple(copy_exps(alloc, parts.as_slice())?)),
        IlExp::List(ty, items) => {
            let ty = copy_ty(alloc, ty)?;
            Ok(IlExp::List(ty, copy_items(alloc, items.as_slice())?))
        }
        IlExp::Cat(x, y) => Ok(IlExp::Cat(copy_box(alloc, x)?, copy_box(alloc, y)?)),
        IlExp::Join(x, y) => Ok(IlExp::Join(copy_box(alloc, x)?, copy_box(alloc, y)?)),
        IlExp::Empty(ty) => Ok(IlExp::Empty(copy_ty(alloc, ty)?)),
        IlExp::Present(x) => Ok(IlExp::Present(copy_box(alloc, x)?)),
        IlExp::Absent(ty) => Ok(IlExp::Absent(copy_ty(alloc, ty)?)),
        IlExp::Len(x) => Ok(IlExp::Len(copy_box(alloc, x)?)),
        IlExp::At(x, y) => Ok(IlExp::At(copy_box(alloc, x)?, copy_box(alloc, y)?)),
        IlExp::Slice(x, y, z) => {
            let x = copy_box(alloc, x)?;
            Ok(IlExp::Slice(x, copy_box(alloc, y)?, copy_box(alloc, z)?))
        }
        IlExp::Call(fun, args) => {
            let fun = fun.copy(alloc)?;
            Ok(IlExp::Call(fun, copy_exps(alloc, args.as_slice())?))
        }
        IlExp::Up(ty, x) => Ok(IlExp::Up(copy_ty(alloc, ty)?, copy_box(alloc, x)?)),
        IlExp::Iter(how, list, body) => {
            let how = copy_iteration(alloc, how)?;
            let list = copy_names(alloc, list.as_slice())?;
            Ok(IlExp::Iter(how, list, copy_box(alloc, body)?))
        }
    }
}

/// The same expressions again.
#[cycle(copy)]
fn copy_exps(alloc: Global, exps: &[IlExp]) -> Result<Row<IlExp>, NoMemory>
    ensures { IfOk result (λ copies. copies ≡ exps.now) }
{
    let mut copies = Row::new(alloc);
    for exp in exps {
        copies.push(copy_exp(alloc, exp)?)?;
    }
    Ok(copies)
}

/// The same parts of a list again.
#[cycle(copy)]
fn copy_items(alloc: Global, items: &[ListItem]) -> Result<Row<ListItem>, NoMemory>
    ensures { IfOk result (λ copies. copies ≡ items.now) }
{
    let mut copies = Row::new(alloc);
    for item in items {
        copies.push(copy_item(alloc, item)?)?;
    }
    Ok(copies)
}

/// The same part of a list again.
#[cycle(copy)]
fn copy_item(alloc: Global, item: &ListItem) -> Result<ListItem, NoMemory>
    ensures { IfOk result (λ copy. copy ≡ item.now) }
{
    match item {
        ListItem::One(exp) => Ok(ListItem::One(copy_exp(alloc, exp)?)),
        ListItem::All(exp) => Ok(ListItem::All(copy_exp(alloc, exp)?)),
    }
}

/// The same path again.
#[cycle(copy)]
fn copy_path(alloc: Global, path: &[PathSeg]) -> Result<Row<PathSeg>, NoMemory>
    ensures { IfOk result (λ copies. copies ≡ path.now) }
{
    let mut copies = Row::new(alloc);
    for segment in path {
        copies.push(copy_segment(alloc, segment)?)?;
    }
    Ok(copies)
}

/// The same step of a path again.
#[cycle(copy)]
fn copy_segment(alloc: Global, segment: &PathSeg) -> Result<PathSeg, NoMemory>
    ensures { IfOk result (λ copy. copy ≡ segment.now) }
{
    match segment {
        PathSeg::Field(name) => Ok(PathSeg::Field(name.copy(alloc)?)),
        PathSeg::At(x) => Ok(PathSeg::At(copy_exp(alloc, x)?)),
        PathSeg::Slice(x, y) => {
            let x = copy_exp(alloc, x)?;
            Ok(PathSeg::Slice(x, copy_exp(alloc, y)?))
        }
    }
}

/// The same iteration again.
#[cycle(copy)]
pub fn copy_iteration(alloc: Global, how: &Iteration) -> Result<Iteration, NoMemory>
    ensures { IfOk result (λ copy. copy ≡ how.now) }
{
    match how {
        Iteration::Star => Ok(Iteration::Star),
        Iteration::Plus => Ok(Iteration::Plus),
        Iteration::Quest => Ok(Iteration::Quest),
        Iteration::Times(count) => Ok(Iteration::Times(copy_box(alloc, count)?)),
        Iteration::Below(index, count) => {
            let index = index.copy(alloc)?;
            Ok(Iteration::Below(index, copy_box(alloc, count)?))
        }
    }
}
