//! The rows of changes at paths.

ghost use Rattle.st_el.specs.declared.expression.Seg.{out-Seg};
ghost use Rattle.st_elab_table.specs.Paths.{step_row, along, update_row, extension_row};
ghost use Rattle.st_elab_rows.specs.Asking.{LeadsTo};
ghost use Rattle.st_elab_rows.specs.inner.Walks.{Steps, Walks};

use crate::ask::{asked, found};
use crate::asking::{Context, Found, give};
use crate::elaborator::Elaborator;
use crate::found::as_list;
use crate::part::as_field;
use st_el::{Exp, Seg};
use st_elab_table::ExpFault;
use st_il::{IlExp, PathSeg, Ty, copy_ty};
use st_num::{Row, Span};

/// A step of a path, and the type of the part to which it leads.
#[derive(Drop)]
pub struct Stepped {
    pub step: PathSeg,
    pub ty: Ty,
}

/// A path, and the type of the part to which it leads.
#[derive(Drop)]
pub struct Walked {
    pub path: Row<PathSeg>,
    pub ty: Ty,
}

/// A step of a path from a part of this type.
fn step<E: Elaborator>(
    context: &Context<'_>,
    elaborator: &E,
    at: Span,
    ty: &Ty,
    seg: &Seg,
) -> Result<Stepped, ExpFault>
    requires answers { E.AnswersByTable elaborator.now }
    ensures { Steps context.now (λ next. step_row context.now.decls.now context.now.within.now at
        ty.now next (out-Seg seg.now)) result }
{
    match seg {
        Seg::Field(name) => {
            let field = as_field(context.decls, at, at, name, ty)?;
            let ty = copy_ty(context.alloc, field)?;
            let name = name.copy(context.alloc)?;
            Ok(Stepped {
                step: PathSeg::Field(name),
                ty,
            })
        }
        Seg::At(from) => {
            let element = as_list(context.decls, at, ty)?;
            let position = asked(context, elaborator, from, &Ty::Nat)?;
            let ty = copy_ty(context.alloc, element)?;
            Ok(Stepped {
                step: PathSeg::At(position.exp.into_inner()),
                ty,
            })
        }
        Seg::Slice(from, length) => {
            as_list(context.decls, at, ty)?;
            let position = asked(context, elaborator, from, &Ty::Nat)?;
            let count = asked(context, elaborator, length, &Ty::Nat)?;
            let ty = copy_ty(context.alloc, ty)?;
            Ok(Stepped {
                step: PathSeg::Slice(position.exp.into_inner(), count.exp.into_inner()),
                ty,
            })
        }
    }
}

/// The path from a part of this type.
fn along<E: Elaborator>(
    context: &Context<'_>,
    elaborator: &E,
    at: Span,
    path: &[Seg],
    ty: &Ty,
) -> Result<Walked, ExpFault>
    requires answers { E.AnswersByTable elaborator.now }
    ensures { Walks context.now (along context.now.decls.now context.now.within.now at path.now
        ty.now) result }
{
    let mut done = Row::new(context.alloc);
    let mut place = copy_ty(context.alloc, ty)?;
    for seg in path {
        let stepped = step(context, elaborator, at, &place, seg)?;
        done.push(stepped.step)?;
        place = stepped.ty;
    }
    Ok(Walked {
        path: done,
        ty: place,
    })
}

/// An update asks the new value at the type of the part at the path.
pub fn update_row<E: Elaborator>(
    context: &Context<'_>,
    elaborator: &E,
    at: Span,
    operand: &Exp,
    path: &[Seg],
    value: &Exp,
) -> Result<Found, ExpFault>
    requires answers { E.AnswersByTable elaborator.now }
    ensures { LeadsTo context.now (update_row context.now.decls.now context.now.within.now at
        operand.now path.now value.now) result }
{
    let whole = found(context, elaborator, operand)?;
    let walked = along(context, elaborator, at, path, &whole.ty)?;
    let part = asked(context, elaborator, value, &walked.ty)?;
    let exp = IlExp::Set(whole.exp, walked.path, part.exp);
    let given = give(context.alloc, exp, whole.ty)?;
    Ok(given)
}

/// An extension asks the list that it adds at the type of the part at the path, a list type.
pub fn extension_row<E: Elaborator>(
    context: &Context<'_>,
    elaborator: &E,
    at: Span,
    operand: &Exp,
    path: &[Seg],
    list: &Exp,
) -> Result<Found, ExpFault>
    requires answers { E.AnswersByTable elaborator.now }
    ensures { LeadsTo context.now (extension_row context.now.decls.now context.now.within.now at
        operand.now path.now list.now) result }
{
    let whole = found(context, elaborator, operand)?;
    let walked = along(context, elaborator, at, path, &whole.ty)?;
    as_list(context.decls, at, &walked.ty)?;
    let part = asked(context, elaborator, list, &walked.ty)?;
    let exp = IlExp::Extend(whole.exp, walked.path, part.exp);
    let given = give(context.alloc, exp, whole.ty)?;
    Ok(given)
}
