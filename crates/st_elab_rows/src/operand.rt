//! The rows of logic, equations and memberships.

ghost use Rattle.st_il.specs.declared.expression.IlExp.TheVariants as il;
ghost use Rattle.st_il.specs.declared.ty.Ty.TheVariants as typ;
ghost use Rattle.st_elab_table.specs.Operands.{logic_row, equation_row, beside, compared, membership_row};
ghost use Rattle.st_elab_table.specs.Operators.{equated};
ghost use Rattle.st_elab_table.specs.Questions.{Asks};
ghost use Rattle.st_elab_table.specs.Forms.{place};
ghost use Rattle.st_elab_table.specs.Steps.{give, asked, found, as_list};
ghost use Rattle.st_elab_rows.specs.Asking.{LeadsTo, made_by};

use crate::ask::{asked, found};
use crate::asking::{Context, Found, give};
use crate::elaborator::Elaborator;
use crate::form::inferable;
use crate::found::{as_list, larger, raise};
use crate::operator::{connected, equated};
use crate::variable::list_of;
use st_el::Exp;
use st_elab_table::ExpFault;
use st_il::{IlExp, Ty};
use st_num::{Mark, RuleId, Span};

/// The opposite of a truth value.
pub fn not_row<E: Elaborator>(
    context: &Context<'_>,
    elaborator: &E,
    inner: &Exp,
) -> Result<Found, ExpFault>
    requires answers { E.AnswersByTable elaborator.now }
    ensures { LeadsTo context.now (Asks (asked context.now.within.now inner.now typ.Bool)
        (λ m. give (il.Not m.exp) typ.Bool)) result }
{
    let truth = asked(context, elaborator, inner, &Ty::Bool)?;
    let given = give(context.alloc, IlExp::Not(truth.exp), Ty::Bool)?;
    Ok(given)
}

/// Two truth values, joined by a sign of logic.
pub fn logic_row<E: Elaborator>(
    context: &Context<'_>,
    elaborator: &E,
    sign: Mark,
    left: &Exp,
    right: &Exp,
) -> Result<Found, ExpFault>
    requires answers { E.AnswersByTable elaborator.now }
    ensures { LeadsTo context.now (logic_row context.now.within.now sign left.now right.now)
        result }
{
    let one = asked(context, elaborator, left, &Ty::Bool)?;
    let other = asked(context, elaborator, right, &Ty::Bool)?;
    let exp = connected(sign, one.exp, other.exp);
    let given = give(context.alloc, exp, Ty::Bool)?;
    Ok(given)
}

/// An equation by `=` or `=/=`. A side that is not inferable is asked at the type of the other.
pub fn equation_row<E: Elaborator>(
    context: &Context<'_>,
    elaborator: &E,
    at: Span,
    sign: Mark,
    left: &Exp,
    right: &Exp,
) -> Result<Found, ExpFault>
    requires answers { E.AnswersByTable elaborator.now }
    ensures { LeadsTo context.now (equation_row context.now.within.now at sign left.now right.now)
        result }
{
    if inferable(left) {
        return equation_from_left(context, elaborator, at, sign, left, right);
    }
    if inferable(right) {
        return equation_from_right(context, elaborator, sign, left, right);
    }
    Err(ExpFault::Refused {
        at,
        rule: RuleId::Y3,
    })
}

/// An equation whose left side is inferable.
fn equation_from_left<E: Elaborator>(
    context: &Context<'_>,
    elaborator: &E,
    at: Span,
    sign: Mark,
    left: &Exp,
    right: &Exp,
) -> Result<Found, ExpFault>
    requires answers { E.AnswersByTable elaborator.now }
    ensures { LeadsTo context.now (Asks (found context.now.within.now left.now)
        (beside context.now.within.now at sign right.now)) result }
{
    let one = found(context, elaborator, left)?;
    beside(context, elaborator, at, sign, one, right)
}

/// The right side beside an inferable left one.
fn beside<E: Elaborator>(
    context: &Context<'_>,
    elaborator: &E,
    at: Span,
    sign: Mark,
    left: Found,
    right: &Exp,
) -> Result<Found, ExpFault>
    requires answers { E.AnswersByTable elaborator.now }
    ensures { LeadsTo context.now (beside context.now.within.now at sign right.now (made_by left))
        result }
{
    if inferable(right) {
        let other = found(context, elaborator, right)?;
        return compared(context, at, sign, left, other);
    }
    let other = asked(context, elaborator, right, &left.ty)?;
    let exp = equated(sign, left.exp, other.exp);
    let given = give(context.alloc, exp, Ty::Bool)?;
    Ok(given)
}

/// Two sides with types of their own, compared at the larger one.
fn compared(
    context: &Context<'_>,
    at: Span,
    sign: Mark,
    left: Found,
    right: Found,
) -> Result<Found, ExpFault>
    ensures { LeadsTo context.now (compared at sign (made_by left) (made_by right)) result }
{
    let Found {
        exp: x,
        ty: of_left,
    } = left;
    let Found {
        exp: y,
        ty: of_right,
    } = right;
    let Some(ty) = larger(context.decls, &of_left, &of_right) else {
        return Err(ExpFault::Refused {
            at,
            rule: RuleId::Y1,
        });
    };
    let one = raise(context.alloc, context.decls, x, &of_left, ty)?;
    let other = raise(context.alloc, context.decls, y, &of_right, ty)?;
    let given = give(context.alloc, equated(sign, one, other), Ty::Bool)?;
    Ok(given)
}

/// An equation whose right side alone is inferable: the left one is asked at its type.
fn equation_from_right<E: Elaborator>(
    context: &Context<'_>,
    elaborator: &E,
    sign: Mark,
    left: &Exp,
    right: &Exp,
) -> Result<Found, ExpFault>
    requires answers { E.AnswersByTable elaborator.now }
    ensures { LeadsTo context.now (Asks (found context.now.within.now right.now)
        (λ b. Asks (asked context.now.within.now left.now b.ty)
        (λ a. give (equated sign a.exp b.exp) typ.Bool))) result }
{
    let other = found(context, elaborator, right)?;
    let one = asked(context, elaborator, left, &other.ty)?;
    let exp = equated(sign, one.exp, other.exp);
    let given = give(context.alloc, exp, Ty::Bool)?;
    Ok(given)
}

/// A membership. An inferable list says the type of the element, or else the element that of the
/// list.
pub fn membership_row<E: Elaborator>(
    context: &Context<'_>,
    elaborator: &E,
    at: Span,
    element: &Exp,
    list: &Exp,
) -> Result<Found, ExpFault>
    requires answers { E.AnswersByTable elaborator.now }
    ensures { LeadsTo context.now (membership_row context.now.within.now at element.now list.now)
        result }
{
    if inferable(list) {
        return member_of_found(context, elaborator, element, list);
    }
    if inferable(element) {
        return found_member(context, elaborator, element, list);
    }
    Err(ExpFault::Refused {
        at,
        rule: RuleId::Y3,
    })
}

/// A membership in an inferable list, which says the type of the element.
fn member_of_found<E: Elaborator>(
    context: &Context<'_>,
    elaborator: &E,
    element: &Exp,
    list: &Exp,
) -> Result<Found, ExpFault>
    requires answers { E.AnswersByTable elaborator.now }
    ensures { LeadsTo context.now (Asks (found context.now.within.now list.now)
        (λ b. as_list (place list.now) b.ty (λ x. Asks (asked context.now.within.now element.now x)
        (λ a. give (il.Member a.exp b.exp) typ.Bool)))) result }
{
    let all = found(context, elaborator, list)?;
    let ty = as_list(context.decls, list.at, &all.ty)?;
    let one = asked(context, elaborator, element, ty)?;
    let given = give(context.alloc, IlExp::Member(one.exp, all.exp), Ty::Bool)?;
    Ok(given)
}

/// A membership of an inferable element, which says the type of the list.
fn found_member<E: Elaborator>(
    context: &Context<'_>,
    elaborator: &E,
    element: &Exp,
    list: &Exp,
) -> Result<Found, ExpFault>
    requires answers { E.AnswersByTable elaborator.now }
    ensures { LeadsTo context.now (Asks (found context.now.within.now element.now)
        (λ a. Asks (asked context.now.within.now list.now (typ.List a.ty))
        (λ b. give (il.Member a.exp b.exp) typ.Bool))) result }
{
    let one = found(context, elaborator, element)?;
    let ty = list_of(context.alloc, &one.ty)?;
    let all = asked(context, elaborator, list, &ty)?;
    let given = give(context.alloc, IlExp::Member(one.exp, all.exp), Ty::Bool)?;
    Ok(given)
}
