//! What is found, fitted to a type; and what `++` puts together.

ghost use Rattle.std.specs.Prelude.{◌≡◌, IfOk};
ghost use Rattle.st_elab_table.specs.declared.decls.Scope.{Scope};
ghost use Rattle.st_elab_table.specs.Steps.{made, list_of_one, as_joined, fitted, lifted_to};
ghost use Rattle.st_elab_table.specs.Operands.{concatenated, inferred_concatenation};
ghost use Rattle.st_elab_table.specs.Collections.{concatenation_row};
ghost use Rattle.st_elab_rows.specs.Asking.{LeadsTo, made_by};
ghost use Rattle.st_elab_rows.specs.Told.{Reaches};
ghost use Rattle.st_elab_rows.specs.inner.Words.{join_of, lift_of};

use crate::ask::{asked, found};
use crate::asking::{Context, Found};
use crate::elaborator::Elaborator;
use crate::found::{is_collection, larger, raise, up};
use st_el::Exp;
use st_elab_table::{Decls, ExpFault};
use st_il::{IlExp, ListItem, Ty, copy_ty};
use st_num::{Boxed, NoMemory, Row, RuleId, Span};
use st_types::is_sub;
use std::alloc::Global;

/// What is found: this expression, of the type that was asked.
pub fn give_at(alloc: Global, exp: IlExp, ty: &Ty) -> Result<Found, NoMemory>
    ensures { IfOk result (λ given. made_by given ≡ made exp ty.now) }
{
    let exp = Boxed::new(alloc, exp)?;
    give_boxed(alloc, exp, ty)
}

/// What is found: this expression in its box, of the type that was asked.
fn give_boxed(alloc: Global, exp: Boxed<IlExp>, ty: &Ty) -> Result<Found, NoMemory>
    ensures { IfOk result (λ given. made_by given ≡ made exp ty.now) }
{
    let ty = copy_ty(alloc, ty)?;
    Ok(Found { exp, ty })
}

/// What one element is put in.
#[derive(Clone, Copy, Debug, PartialEq, Eq)]
pub enum Lifting {
    List,
    Option,
}

/// One element, in a list or an option.
pub fn lift(
    alloc: Global,
    lifting: Lifting,
    element: &Ty,
    exp: Boxed<IlExp>,
) -> Result<IlExp, NoMemory>
    ensures { IfOk result (λ x. x ≡ lift_of lifting element.now exp) }
{
    match lifting {
        Lifting::List => list_of_one(alloc, element, exp),
        Lifting::Option => Ok(IlExp::Present(exp)),
    }
}

/// A list of one element.
fn list_of_one(alloc: Global, element: &Ty, exp: Boxed<IlExp>) -> Result<IlExp, NoMemory>
    ensures { IfOk result (λ x. x ≡ list_of_one element.now exp) }
{
    let element = copy_ty(alloc, element)?;
    let mut items = Row::new(alloc);
    items.push(ListItem::One(exp.into_inner()))?;
    Ok(IlExp::List(element, items))
}

/// What is found, at a type: as it is, injected, or as one element of a list or an option.
pub fn fitted(context: &Context<'_>, at: Span, given: Found, ty: &Ty) -> Result<Found, ExpFault>
    ensures { LeadsTo context.now (fitted at ty.now (made_by given)) result }
{
    if context.decls.types.same(&given.ty, ty) {
        let same = give_boxed(context.alloc, given.exp, ty)?;
        return Ok(same);
    }
    if is_sub(&context.decls.types, &given.ty, ty) {
        let exp = up(context.alloc, ty, given.exp)?;
        let injected = give_boxed(context.alloc, exp, ty)?;
        return Ok(injected);
    }
    match context.decls.types.meaning(ty) {
        Ty::List(element) => lifted_to(context, at, given, ty, element.get(), Lifting::List),
        Ty::Opt(element) => lifted_to(context, at, given, ty, element.get(), Lifting::Option),
        _ => Err(ExpFault::Refused {
            at,
            rule: RuleId::Y1,
        }),
    }
}

/// What is found, as one element of a list or an option; Y1 at this place where it is none.
fn lifted_to(
    context: &Context<'_>,
    at: Span,
    given: Found,
    ty: &Ty,
    element: &Ty,
    lifting: Lifting,
) -> Result<Found, ExpFault>
    ensures { LeadsTo context.now
        (lifted_to at (made_by given) ty.now element.now (lift_of lifting element.now)) result }
{
    if is_collection(context.decls.types.meaning(element)) {
        return Err(ExpFault::Refused {
            at,
            rule: RuleId::Y1,
        });
    }
    let Found { exp, ty: has } = given;
    if is_sub(&context.decls.types, &has, element) {
        let one = raise(context.alloc, context.decls, exp, &has, element)?;
        let exp = lift(context.alloc, lifting, element, one)?;
        let lifted = give_at(context.alloc, exp, ty)?;
        return Ok(lifted);
    }
    Err(ExpFault::Refused {
        at,
        rule: RuleId::Y1,
    })
}

/// How `++` puts two expressions together.
#[derive(Clone, Copy, Debug, PartialEq, Eq)]
pub enum Joining {
    Lists,
    Records,
}

/// Two lists behind each other, or two records joined.
fn joined_by(join: Joining, x: Boxed<IlExp>, y: Boxed<IlExp>) -> IlExp
    ensures { result ≡ join_of join x y }
{
    match join {
        Joining::Lists => IlExp::Cat(x, y),
        Joining::Records => IlExp::Join(x, y),
    }
}

/// How `++` puts two expressions of this type together; Y5 at this place where it does not.
pub fn as_joined(decls: &Decls, at: Span, ty: &Ty) -> Result<Joining, ExpFault>
    ensures { (S : Scope) → Reaches decls.now S (as_joined at ty.now) join_of result }
{
    if let Ty::List(_) = decls.types.meaning(ty) {
        return Ok(Joining::Lists);
    }
    if decls.types.joinable(ty) {
        return Ok(Joining::Records);
    }
    Err(ExpFault::Refused {
        at,
        rule: RuleId::Y5,
    })
}

/// Two sides of `++`, both asked at a type.
pub fn concatenation_row<E: Elaborator>(
    context: &Context<'_>,
    elaborator: &E,
    at: Span,
    left: &Exp,
    right: &Exp,
    ty: &Ty,
) -> Result<Found, ExpFault>
    requires answers { E.AnswersByTable elaborator.now }
    ensures { LeadsTo context.now
        (concatenation_row context.now.within.now at left.now right.now ty.now) result }
{
    let join = as_joined(context.decls, at, ty)?;
    let one = asked(context, elaborator, left, ty)?;
    let other = asked(context, elaborator, right, ty)?;
    let given = give_at(context.alloc, joined_by(join, one.exp, other.exp), ty)?;
    Ok(given)
}

/// Two sides of `++` with types of their own.
pub fn inferred_concatenation<E: Elaborator>(
    context: &Context<'_>,
    elaborator: &E,
    at: Span,
    left: &Exp,
    right: &Exp,
) -> Result<Found, ExpFault>
    requires answers { E.AnswersByTable elaborator.now }
    ensures { LeadsTo context.now
        (inferred_concatenation context.now.within.now at left.now right.now) result }
{
    let one = found(context, elaborator, left)?;
    let other = found(context, elaborator, right)?;
    concatenated(context, at, one, other)
}

/// Two lists or records, put together at the larger type.
fn concatenated(
    context: &Context<'_>,
    at: Span,
    left: Found,
    right: Found,
) -> Result<Found, ExpFault>
    ensures { LeadsTo context.now (concatenated at (made_by left) (made_by right)) result }
{
    let Found {
        exp: x,
        ty: of_left,
    } = left;
    let Found {
        exp: y,
        ty: of_right,
    } = right;
    let Some(ty) = larger(context.decls, &of_left, &of_right) else {
        return Err(ExpFault::Refused {
            at,
            rule: RuleId::Y5,
        });
    };
    let join = as_joined(context.decls, at, ty)?;
    let one = raise(context.alloc, context.decls, x, &of_left, ty)?;
    let other = raise(context.alloc, context.decls, y, &of_right, ty)?;
    let given = give_at(context.alloc, joined_by(join, one, other), ty)?;
    Ok(given)
}
