//! The rows of lists and options: one element, sequences, and what fills holes.

ghost use Rattle.std.specs.Prelude.{map};
ghost use Rattle.st_il.specs.declared.ty.Ty.{out-Ty};
ghost use Rattle.st_notation.specs.Fitted.{plain, fillings};
ghost use Rattle.st_elab_table.specs.Questions.{item};
ghost use Rattle.st_il.specs.declared.expression.IlExp.TheVariants as il;
ghost use Rattle.st_elab_table.specs.Steps.{exp_of, give, holes_behind};
ghost use Rattle.st_elab_table.specs.Collections.{element, other_row, eps_row, sequence, item_of, item_row, found_item, run_row, hole_row};
ghost use Rattle.st_elab_rows.specs.Asking.{manner, LeadsTo, made_by};
ghost use Rattle.st_elab_rows.specs.Told.{TellsAll};
ghost use Rattle.st_elab_rows.specs.inner.Continuing.{IsItem, LeadsToItem};
ghost use Rattle.st_elab_rows.specs.inner.Words.{lift_of};

use st_el::Exp;
use st_elab_rows::ask::{asked, asked_at, found};
use st_elab_rows::asking::{Context, Found, Part};
use st_elab_rows::elaborator::Elaborator;
use st_elab_rows::fitting::{Lifting, give_at, lift};
use st_elab_rows::form::{inferable, is_spliced, is_told_by_type};
use st_elab_rows::found::{is_collection, raise};
use st_elab_table::ExpFault;
use st_il::{IlExp, ListItem, Ty, copy_ty};
use st_notation::Filled;
use st_num::{Name, Row, RuleId, Span};
use st_types::is_sub;

/// One element of this type, in a list or an option.
fn element<E: Elaborator>(
    context: &Context<'_>,
    elaborator: &E,
    part: &Part<'_>,
    ty: &Ty,
    inner: &Ty,
    lifting: Lifting,
) -> Result<Found, ExpFault>
    requires answers { E.AnswersByTable elaborator.now }
    ensures { LeadsTo context.now (element context.now.within.now part.now.at
        (manner part.now) part.now.exp.now ty.now inner.now
        (lift_of lifting inner.now)) result }
{
    if is_collection(context.decls.types.meaning(inner)) {
        return Err(ExpFault::Refused {
            at: part.at,
            rule: RuleId::Y1,
        });
    }
    let one = asked_at(context, elaborator, part, inner)?;
    let exp = lift(context.alloc, lifting, inner, one.exp)?;
    let given = give_at(context.alloc, exp, ty)?;
    Ok(given)
}

/// Any other expression, at a type of this meaning: one element of a list or an option, or Y1.
pub fn other_row<E: Elaborator>(
    context: &Context<'_>,
    elaborator: &E,
    part: &Part<'_>,
    ty: &Ty,
    meaning: &Ty,
) -> Result<Found, ExpFault>
    requires answers { E.AnswersByTable elaborator.now }
    ensures { LeadsTo context.now (other_row context.now.within.now part.now.at
        (manner part.now) part.now.exp.now ty.now (out-Ty meaning.now)) result }
{
    match meaning {
        Ty::List(of) => element(context, elaborator, part, ty, of.get(), Lifting::List),
        Ty::Opt(of) => element(context, elaborator, part, ty, of.get(), Lifting::Option),
        _ => Err(ExpFault::Refused {
            at: part.at,
            rule: RuleId::Y1,
        }),
    }
}

/// `eps`, at a type of this meaning.
pub fn eps_row(context: &Context<'_>, at: Span, ty: &Ty, meaning: &Ty) -> Result<Found, ExpFault>
    ensures { LeadsTo context.now (eps_row at ty.now (out-Ty meaning.now)) result }
{
    match meaning {
        Ty::List(of) => {
            let of = copy_ty(context.alloc, of.get())?;
            let exp = IlExp::List(of, Row::new(context.alloc));
            let given = give_at(context.alloc, exp, ty)?;
            Ok(given)
        }
        Ty::Opt(of) => {
            let of = copy_ty(context.alloc, of.get())?;
            let given = give_at(context.alloc, IlExp::Empty(of), ty)?;
            Ok(given)
        }
        _ => Err(ExpFault::Refused {
            at,
            rule: RuleId::Y1,
        }),
    }
}

/// The items of a sequence, at a list type with these elements.
pub fn sequence<E: Elaborator>(
    context: &Context<'_>,
    elaborator: &E,
    at: Span,
    parts: &[Exp],
    ty: &Ty,
    element: &Ty,
) -> Result<Found, ExpFault>
    requires answers { E.AnswersByTable elaborator.now }
    ensures { LeadsTo context.now
        (sequence context.now.within.now at parts.now ty.now element.now) result }
{
    if is_collection(context.decls.types.meaning(element)) {
        return Err(ExpFault::Refused {
            at,
            rule: RuleId::Y2,
        });
    }
    let all = items(context, elaborator, parts, ty, element)?;
    let of = copy_ty(context.alloc, element)?;
    let given = give_at(context.alloc, IlExp::List(of, all), ty)?;
    Ok(given)
}

/// The items of a sequence at a list type with this element type.
fn items<E: Elaborator>(
    context: &Context<'_>,
    elaborator: &E,
    parts: &[Exp],
    ty: &Ty,
    element: &Ty,
) -> Result<Row<ListItem>, ExpFault>
    requires answers { E.AnswersByTable elaborator.now }
    ensures { TellsAll context.now.decls.now context.now.scope.now
        (map (item context.now.within.now ty.now element.now) parts.now) item_of result }
{
    let mut all = Row::new(context.alloc);
    for part in parts {
        all.push(item(context, elaborator, ty, element, part)?)?;
    }
    Ok(all)
}

/// An item: all elements of what is spliced, or one element.
fn item<E: Elaborator>(
    context: &Context<'_>,
    elaborator: &E,
    ty: &Ty,
    element: &Ty,
    part: &Exp,
) -> Result<ListItem, ExpFault>
    requires answers { E.AnswersByTable elaborator.now }
    ensures { LeadsToItem context.now
        (item_row context.now.within.now ty.now element.now part.now) result }
{
    if is_spliced(part) {
        let list = asked(context, elaborator, part, ty)?;
        return Ok(ListItem::All(list.exp.into_inner()));
    }
    if is_told_by_type(part) {
        let given = found(context, elaborator, part)?;
        return found_item(context, part.at, ty, element, given);
    }
    let one = asked(context, elaborator, part, element)?;
    Ok(ListItem::One(one.exp.into_inner()))
}

/// An inferable item: one element, or all elements of a list, as its type says.
fn found_item(
    context: &Context<'_>,
    at: Span,
    ty: &Ty,
    element: &Ty,
    given: Found,
) -> Result<ListItem, ExpFault>
    ensures { LeadsToItem context.now (found_item at ty.now element.now (made_by given)) result }
{
    let Found { exp, ty: has } = given;
    if is_sub(&context.decls.types, &has, element) {
        let one = raise(context.alloc, context.decls, exp, &has, element)?;
        return Ok(ListItem::One(one.into_inner()));
    }
    if is_sub(&context.decls.types, &has, ty) {
        let list = raise(context.alloc, context.decls, exp, &has, ty)?;
        return Ok(ListItem::All(list.into_inner()));
    }
    Err(ExpFault::Refused {
        at,
        rule: RuleId::Y1,
    })
}

/// A run in a hole: of none it is left out, of one it is that element; two and more are a sequence.
fn run_row<E: Elaborator>(
    context: &Context<'_>,
    elaborator: &E,
    at: Span,
    passed: &[Name],
    parts: &[Exp],
    ty: &Ty,
) -> Result<Found, ExpFault>
    requires answers { E.AnswersByTable elaborator.now }
    ensures { LeadsTo context.now (run_row context.now.within.now at passed.now parts.now ty.now)
        result }
{
    match parts {
        [] => absent(context, ty),
        [one] => asked_at(
            context,
            elaborator,
            &Part {
                at: one.at,
                in_parentheses: true,
                passed,
                exp: one,
            },
            ty,
        ),
        _ => match context.decls.types.meaning(ty) {
            Ty::List(of) => sequence(context, elaborator, at, parts, ty, of.get()),
            _ => Err(ExpFault::Refused {
                at,
                rule: RuleId::Y1,
            }),
        },
    }
}

/// What fills a hole of this type that was left out.
fn absent(context: &Context<'_>, ty: &Ty) -> Result<Found, ExpFault>
    ensures { LeadsTo context.now (give (il.Absent ty.now) ty.now) result }
{
    let of = copy_ty(context.alloc, ty)?;
    let given = give_at(context.alloc, IlExp::Absent(of), ty)?;
    Ok(given)
}

/// What fills a hole of this type.
fn hole<E: Elaborator>(
    context: &Context<'_>,
    elaborator: &E,
    at: Span,
    passed: &[Name],
    filling: &Filled<'_>,
    ty: &Ty,
) -> Result<Found, ExpFault>
    requires answers { E.AnswersByTable elaborator.now }
    ensures { LeadsTo context.now
        (hole_row context.now.within.now at passed.now (plain filling.now) ty.now) result }
{
    match filling {
        Filled::One(exp) => asked_at(
            context,
            elaborator,
            &Part {
                at: exp.at,
                in_parentheses: false,
                passed,
                exp,
            },
            ty,
        ),
        Filled::Run(parts) => run_row(context, elaborator, at, passed, parts, ty),
        Filled::Missing => absent(context, ty),
    }
}

/// What fills each hole, at the type of the hole; what is in it is being asked at these variants
/// already.
pub fn all_holes<E: Elaborator>(
    context: &Context<'_>,
    elaborator: &E,
    at: Span,
    passed: &[Name],
    filled: &[Filled<'_>],
    tys: &[Ty],
) -> Result<Row<IlExp>, ExpFault>
    requires answers { E.AnswersByTable elaborator.now }
    ensures { TellsAll context.now.decls.now context.now.scope.now
        (holes_behind context.now.within.now at passed.now (fillings filled.now) tys.now) exp_of
        result }
{
    let mut all = Row::new(context.alloc);
    let mut rest = tys;
    for filling in filled {
        let Some((ty, others)) = rest.split_first() else {
            return Ok(all);
        };
        let one = hole(context, elaborator, at, passed, filling, ty)?;
        all.push(one.exp.into_inner())?;
        rest = others;
    }
    Ok(all)
}
