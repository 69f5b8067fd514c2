//! The rows of iterations.

ghost use Rattle.std.specs.Prelude.{◌≡◌, IfOk};
ghost use Rattle.st_el.specs.declared.expression.Count.{out-Count};
ghost use Rattle.st_il.specs.declared.ty.Ty.{out-Ty};
ghost use Rattle.st_il.specs.declared.expression.IlExp.TheVariants as il;
ghost use Rattle.st_dims.specs.Around.{inside};
ghost use Rattle.st_elab_table.specs.Iterations.{iterated_type};
ghost use Rattle.st_elab_table.specs.Collections.{counted_at, iteration, body_row, iteration_row};
ghost use Rattle.st_elab_table.specs.Inferred.{inferred_iteration};
ghost use Rattle.st_elab_rows.specs.Asking.{manner, LeadsTo};
ghost use Rattle.st_elab_rows.specs.Told.{Reaches};

use crate::collection::other_row;
use st_dims::{Within, kind_of};
use st_el::{Count, Exp};
use st_elab_rows::ask::{asked, asked_inside, found_inside};
use st_elab_rows::asking::{Context, Found, Part, give};
use st_elab_rows::elaborator::Elaborator;
use st_elab_rows::form::goes_over_list;
use st_elab_rows::iteration::iterated;
use st_elab_table::ExpFault;
use st_il::{IlExp, Iteration, Ty, copy_ty};
use st_num::{Boxed, Kind, NoMemory};
use std::alloc::Global;

/// The type of an iteration whose body has this type.
fn iterated_type(alloc: Global, count: &Count, body: Ty) -> Result<Ty, NoMemory>
    ensures { IfOk result (λ ty. ty ≡ iterated_type count.now body) }
{
    let body = Boxed::new(alloc, body)?;
    match kind_of(count) {
        Kind::List => Ok(Ty::List(body)),
        Kind::Opt => Ok(Ty::Opt(body)),
    }
}

/// How often an iteration goes; the count stands outside of it.
pub fn counted<E: Elaborator>(
    context: &Context<'_>,
    elaborator: &E,
    count: &Count,
) -> Result<Iteration, ExpFault>
    requires answers { E.AnswersByTable elaborator.now }
    ensures { Reaches context.now.decls.now context.now.scope.now
        (counted_at context.now.within.now (out-Count count.now)) (λ times. times) result }
{
    match count {
        Count::Star => Ok(Iteration::Star),
        Count::Plus => Ok(Iteration::Plus),
        Count::Quest => Ok(Iteration::Quest),
        Count::Times(number) => {
            let number = asked(context, elaborator, number.get(), &Ty::Nat)?;
            Ok(Iteration::Times(number.exp))
        }
        Count::Below(index, number) => {
            let number = asked(context, elaborator, number.get(), &Ty::Nat)?;
            Ok(Iteration::Below(index.copy(context.alloc)?, number.exp))
        }
    }
}

/// An iteration with this body, of this type.
fn iteration<E: Elaborator>(
    context: &Context<'_>,
    elaborator: &E,
    inner: &Within,
    count: &Count,
    body: Boxed<IlExp>,
    ty: Ty,
) -> Result<Found, ExpFault>
    requires answers { E.AnswersByTable elaborator.now }
    requires inside { inner.now ≡ inside context.now.within.now count.now }
    ensures { LeadsTo context.now
        (iteration context.now.scope.now context.now.within.now count.now body ty) result }
{
    let times = counted(context, elaborator, count)?;
    let names = iterated(
        context.alloc,
        context.scope,
        context.within,
        inner,
        body.get(),
    )?;
    let given = give(context.alloc, IlExp::Iter(times, names, body), ty)?;
    Ok(given)
}

/// An iteration whose body is asked at a type.
fn body_row<E: Elaborator>(
    context: &Context<'_>,
    elaborator: &E,
    body: &Exp,
    count: &Count,
    element: &Ty,
    ty: &Ty,
) -> Result<Found, ExpFault>
    requires answers { E.AnswersByTable elaborator.now }
    ensures { LeadsTo context.now (body_row context.now.scope.now context.now.within.now body.now
        count.now element.now ty.now) result }
{
    let inner = context.within.inside(context.alloc, count)?;
    let one = asked_inside(context, elaborator, &inner, body, element)?;
    let ty = copy_ty(context.alloc, ty)?;
    iteration(context, elaborator, &inner, count, one.exp, ty)
}

/// An iteration: by `* + ^` at a list, by `?` at an option.
pub fn iteration_row<E: Elaborator>(
    context: &Context<'_>,
    elaborator: &E,
    part: &Part<'_>,
    body: &Exp,
    count: &Count,
    ty: &Ty,
    meaning: &Ty,
) -> Result<Found, ExpFault>
    requires answers { E.AnswersByTable elaborator.now }
    ensures { LeadsTo context.now (iteration_row context.now.scope.now context.now.within.now
        part.now.at (manner part.now) part.now.exp.now body.now count.now ty.now
        (out-Ty meaning.now)) result }
{
    match meaning {
        Ty::List(of) => {
            if goes_over_list(count) {
                return body_row(context, elaborator, body, count, of.get(), ty);
            }
            other_row(context, elaborator, part, ty, meaning)
        }
        Ty::Opt(of) => {
            if goes_over_list(count) {
                return other_row(context, elaborator, part, ty, meaning);
            }
            body_row(context, elaborator, body, count, of.get(), ty)
        }
        _ => other_row(context, elaborator, part, ty, meaning),
    }
}

/// An iteration of an inferable expression.
pub fn inferred_iteration<E: Elaborator>(
    context: &Context<'_>,
    elaborator: &E,
    body: &Exp,
    count: &Count,
) -> Result<Found, ExpFault>
    requires answers { E.AnswersByTable elaborator.now }
    ensures { LeadsTo context.now (inferred_iteration context.now.scope.now
        context.now.within.now body.now count.now) result }
{
    let inner = context.within.inside(context.alloc, count)?;
    let one = found_inside(context, elaborator, &inner, body)?;
    let ty = iterated_type(context.alloc, count, one.ty)?;
    iteration(context, elaborator, &inner, count, one.exp, ty)
}
