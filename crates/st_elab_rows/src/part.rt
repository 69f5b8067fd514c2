//! The rows of parts of lists and records.

ghost use Rattle.st_elab_table.specs.declared.decls.Scope.{Scope};
ghost use Rattle.st_elab_table.specs.Paths.{length_row, position_row, slice_row, as_field, field_row};
ghost use Rattle.st_elab_rows.specs.Asking.{LeadsTo};
ghost use Rattle.st_elab_rows.specs.Told.{Reaches};

use crate::ask::{asked, found};
use crate::asking::{Context, Found, give};
use crate::elaborator::Elaborator;
use crate::found::as_list;
use crate::record::field_named;
use st_el::Exp;
use st_elab_table::{Decls, ExpFault};
use st_il::{IlExp, Ty, copy_ty};
use st_num::{Name, RuleId, Span};

/// The length of a list.
pub fn length_row<E: Elaborator>(
    context: &Context<'_>,
    elaborator: &E,
    operand: &Exp,
) -> Result<Found, ExpFault>
    requires answers { E.AnswersByTable elaborator.now }
    ensures { LeadsTo context.now (length_row context.now.within.now operand.now) result }
{
    let list = found(context, elaborator, operand)?;
    as_list(context.decls, operand.at, &list.ty)?;
    let given = give(context.alloc, IlExp::Len(list.exp), Ty::Nat)?;
    Ok(given)
}

/// The element at a position of a list.
pub fn position_row<E: Elaborator>(
    context: &Context<'_>,
    elaborator: &E,
    operand: &Exp,
    from: &Exp,
) -> Result<Found, ExpFault>
    requires answers { E.AnswersByTable elaborator.now }
    ensures { LeadsTo context.now (position_row context.now.within.now operand.now from.now)
        result }
{
    let list = found(context, elaborator, operand)?;
    let element = as_list(context.decls, operand.at, &list.ty)?;
    let position = asked(context, elaborator, from, &Ty::Nat)?;
    let ty = copy_ty(context.alloc, element)?;
    let given = give(context.alloc, IlExp::At(list.exp, position.exp), ty)?;
    Ok(given)
}

/// A slice of a list, which has the type of that list.
pub fn slice_row<E: Elaborator>(
    context: &Context<'_>,
    elaborator: &E,
    operand: &Exp,
    from: &Exp,
    length: &Exp,
) -> Result<Found, ExpFault>
    requires answers { E.AnswersByTable elaborator.now }
    ensures { LeadsTo context.now
        (slice_row context.now.within.now operand.now from.now length.now) result }
{
    let list = found(context, elaborator, operand)?;
    as_list(context.decls, operand.at, &list.ty)?;
    let position = asked(context, elaborator, from, &Ty::Nat)?;
    let count = asked(context, elaborator, length, &Ty::Nat)?;
    let exp = IlExp::Slice(list.exp, position.exp, count.exp);
    let given = give(context.alloc, exp, list.ty)?;
    Ok(given)
}

/// The type of a field of a record type: Y5 at the first place where it is no record, Y4 at the
/// other where it has no such field.
pub fn as_field<'a>(
    decls: &'a Decls,
    at: Span,
    whole: Span,
    name: &Name,
    ty: &'a Ty,
) -> Result<&'a Ty, ExpFault>
    ensures { (S : Scope)
        → Reaches decls.now S (as_field decls.now at whole name.now ty.now) (λ t. t.now) result }
{
    let Some(fields) = decls.types.fields(decls.types.meaning(ty)) else {
        return Err(ExpFault::Refused {
            at,
            rule: RuleId::Y5,
        });
    };
    let Some(field) = field_named(fields, name) else {
        return Err(ExpFault::Refused {
            at: whole,
            rule: RuleId::Y4,
        });
    };
    Ok(field)
}

/// A field of a record.
pub fn field_row<E: Elaborator>(
    context: &Context<'_>,
    elaborator: &E,
    at: Span,
    operand: &Exp,
    name: &Name,
) -> Result<Found, ExpFault>
    requires answers { E.AnswersByTable elaborator.now }
    ensures { LeadsTo context.now
        (field_row context.now.decls.now context.now.within.now at operand.now name.now) result }
{
    let whole = found(context, elaborator, operand)?;
    let field = as_field(context.decls, operand.at, at, name, &whole.ty)?;
    let ty = copy_ty(context.alloc, field)?;
    let name = name.copy(context.alloc)?;
    let given = give(context.alloc, IlExp::Dot(whole.exp, name), ty)?;
    Ok(given)
}
