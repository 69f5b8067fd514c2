//! The questions that rows ask of the elaborator that is passed.

ghost use Rattle.st_elab_table.specs.Questions.{check, infer, Asks};
ghost use Rattle.st_elab_table.specs.Steps.{asked, found};
ghost use Rattle.st_elab_rows.specs.Asking.{Meets, manner};

use crate::asking::{Asking, Context, Found, Part, by_itself};
use crate::elaborator::Elaborator;
use st_dims::Within;
use st_el::Exp;
use st_elab_table::ExpFault;
use st_il::Ty;
use st_num::Span;

/// Asks what the expression by itself is, and its type.
pub fn found<E: Elaborator>(
    context: &Context<'_>,
    elaborator: &E,
    exp: &Exp,
) -> Result<Found, ExpFault>
    requires answers { E.AnswersByTable elaborator.now }
    ensures { Meets context.now (Asks (found context.now.within.now exp.now)) result }
{
    elaborator.answer(context, &Asking::Infer { at: exp.at, exp })
}

/// Asks what the expression is, and its type; a breach at the part itself is at this place.
pub fn found_at<E: Elaborator>(
    context: &Context<'_>,
    elaborator: &E,
    at: Span,
    exp: &Exp,
) -> Result<Found, ExpFault>
    requires answers { E.AnswersByTable elaborator.now }
    ensures { Meets context.now (Asks (infer context.now.within.now at exp.now)) result }
{
    elaborator.answer(context, &Asking::Infer { at, exp })
}

/// Asks what the body of an iteration is, and its type, inside of that iteration.
pub fn found_inside<E: Elaborator>(
    context: &Context<'_>,
    elaborator: &E,
    inner: &Within,
    exp: &Exp,
) -> Result<Found, ExpFault>
    requires answers { E.AnswersByTable elaborator.now }
    ensures { Meets context.now (Asks (found inner.now exp.now)) result }
{
    let inside = Context {
        alloc: context.alloc,
        decls: context.decls,
        scope: context.scope,
        within: inner,
    };
    elaborator.answer(&inside, &Asking::Infer { at: exp.at, exp })
}

/// Asks what the expression by itself is at a type.
pub fn asked<E: Elaborator>(
    context: &Context<'_>,
    elaborator: &E,
    exp: &Exp,
    ty: &Ty,
) -> Result<Found, ExpFault>
    requires answers { E.AnswersByTable elaborator.now }
    ensures { Meets context.now (Asks (asked context.now.within.now exp.now ty.now)) result }
{
    elaborator.answer(context, &Asking::Check(by_itself(exp), ty))
}

/// Asks what the body of an iteration is at a type, inside of that iteration.
pub fn asked_inside<E: Elaborator>(
    context: &Context<'_>,
    elaborator: &E,
    inner: &Within,
    exp: &Exp,
    ty: &Ty,
) -> Result<Found, ExpFault>
    requires answers { E.AnswersByTable elaborator.now }
    ensures { Meets context.now (Asks (asked inner.now exp.now ty.now)) result }
{
    let inside = Context {
        alloc: context.alloc,
        decls: context.decls,
        scope: context.scope,
        within: inner,
    };
    elaborator.answer(&inside, &Asking::Check(by_itself(exp), ty))
}

/// Asks what a part is at a type.
pub fn asked_at<E: Elaborator>(
    context: &Context<'_>,
    elaborator: &E,
    part: &Part<'_>,
    ty: &Ty,
) -> Result<Found, ExpFault>
    requires answers { E.AnswersByTable elaborator.now }
    ensures { Meets context.now (Asks (check context.now.within.now part.now.at (manner part.now)
        part.now.exp.now ty.now)) result }
{
    elaborator.answer(context, &Asking::Check(*part, ty))
}
