//! The rows of arithmetic and of orders.

ghost use Rattle.st_elab_table.specs.Operands.{order_row, arithmetic_row, power_row, negation_row, numeric, both_numeric};
ghost use Rattle.st_elab_rows.specs.Asking.{LeadsTo};
ghost use Rattle.st_elab_rows.specs.inner.Numbers.{IsNumeric, AreNumeric};

use crate::ask::{asked, found};
use crate::asking::{Context, Found, give};
use crate::elaborator::Elaborator;
use crate::found::{as_number, inject, number_type, wider};
use crate::operator::{ordered, reckoned};
use st_el::Exp;
use st_elab_table::ExpFault;
use st_il::{IlExp, NumTy, Ty};
use st_num::{Boxed, Mark};

/// A number and its type.
#[derive(Drop)]
pub struct Numeric {
    pub exp: Boxed<IlExp>,
    pub number: NumTy,
}

/// Two numbers of one type.
#[derive(Drop)]
pub struct BothNumeric {
    pub left: Boxed<IlExp>,
    pub right: Boxed<IlExp>,
    pub number: NumTy,
}

/// An operand that is a number.
fn number_operand<E: Elaborator>(
    context: &Context<'_>,
    elaborator: &E,
    operand: &Exp,
) -> Result<Numeric, ExpFault>
    requires answers { E.AnswersByTable elaborator.now }
    ensures { IsNumeric context.now (numeric context.now.within.now operand.now) result }
{
    let number = found(context, elaborator, operand)?;
    let ty = as_number(context.decls, operand.at, &number.ty)?;
    Ok(Numeric {
        exp: number.exp,
        number: ty,
    })
}

/// Two numbers, a `nat` beside an `int` injected.
fn both_numeric<E: Elaborator>(
    context: &Context<'_>,
    elaborator: &E,
    left: &Exp,
    right: &Exp,
) -> Result<BothNumeric, ExpFault>
    requires answers { E.AnswersByTable elaborator.now }
    ensures { AreNumeric context.now
        (both_numeric context.now.within.now left.now right.now) result }
{
    let one = number_operand(context, elaborator, left)?;
    let other = number_operand(context, elaborator, right)?;
    let number = wider(one.number, other.number);
    let left = inject(context.alloc, one.number, number, one.exp)?;
    let right = inject(context.alloc, other.number, number, other.exp)?;
    Ok(BothNumeric {
        left,
        right,
        number,
    })
}

/// Two numbers, compared by size.
pub fn order_row<E: Elaborator>(
    context: &Context<'_>,
    elaborator: &E,
    sign: Mark,
    left: &Exp,
    right: &Exp,
) -> Result<Found, ExpFault>
    requires answers { E.AnswersByTable elaborator.now }
    ensures { LeadsTo context.now (order_row context.now.within.now sign left.now right.now)
        result }
{
    let both = both_numeric(context, elaborator, left, right)?;
    let exp = ordered(sign, both.left, both.right);
    let given = give(context.alloc, exp, Ty::Bool)?;
    Ok(given)
}

/// Arithmetic on two numbers, at the wider of their types.
pub fn arithmetic_row<E: Elaborator>(
    context: &Context<'_>,
    elaborator: &E,
    sign: Mark,
    left: &Exp,
    right: &Exp,
) -> Result<Found, ExpFault>
    requires answers { E.AnswersByTable elaborator.now }
    ensures { LeadsTo context.now (arithmetic_row context.now.within.now sign left.now right.now)
        result }
{
    let both = both_numeric(context, elaborator, left, right)?;
    let exp = reckoned(sign, both.number, both.left, both.right);
    let given = give(context.alloc, exp, number_type(both.number))?;
    Ok(given)
}

/// A power. The exponent is asked at `nat` and does not change the type of the other operand.
pub fn power_row<E: Elaborator>(
    context: &Context<'_>,
    elaborator: &E,
    left: &Exp,
    right: &Exp,
) -> Result<Found, ExpFault>
    requires answers { E.AnswersByTable elaborator.now }
    ensures { LeadsTo context.now (power_row context.now.within.now left.now right.now) result }
{
    let base = number_operand(context, elaborator, left)?;
    let exponent = asked(context, elaborator, right, &Ty::Nat)?;
    let exp = IlExp::Pow(base.number, base.exp, exponent.exp);
    let given = give(context.alloc, exp, number_type(base.number))?;
    Ok(given)
}

/// A prefix `-`, whose operand is injected into `int`.
pub fn negation_row<E: Elaborator>(
    context: &Context<'_>,
    elaborator: &E,
    operand: &Exp,
) -> Result<Found, ExpFault>
    requires answers { E.AnswersByTable elaborator.now }
    ensures { LeadsTo context.now (negation_row context.now.within.now operand.now) result }
{
    let number = number_operand(context, elaborator, operand)?;
    let inner = inject(context.alloc, number.number, NumTy::Int, number.exp)?;
    let given = give(context.alloc, IlExp::Neg(inner), Ty::Int)?;
    Ok(given)
}
