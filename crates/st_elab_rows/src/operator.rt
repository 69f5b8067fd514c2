//! What operators make of their operands.

ghost use Rattle.std.specs.Prelude.{◌≡◌};
ghost use Rattle.st_elab_table.specs.Operators.{connected, equated, ordered, reckoned};

use st_il::{IlExp, NumTy};
use st_num::{Boxed, Mark};

/// Two truth values, joined by this sign of logic.
pub fn connected(sign: Mark, x: Boxed<IlExp>, y: Boxed<IlExp>) -> IlExp
    ensures { result ≡ connected sign x y }
{
    match sign {
        Mark::Or => IlExp::Or(x, y),
        Mark::Implies => IlExp::Imp(x, y),
        Mark::Equivalent => IlExp::Iff(x, y),
        _ => IlExp::And(x, y),
    }
}

/// Two values of one type, compared by `=` or `=/=`.
pub fn equated(sign: Mark, x: Boxed<IlExp>, y: Boxed<IlExp>) -> IlExp
    ensures { result ≡ equated sign x y }
{
    match sign {
        Mark::NotEqual => IlExp::Ne(x, y),
        _ => IlExp::Eq(x, y),
    }
}

/// Two numbers, compared by size with this sign.
pub fn ordered(sign: Mark, x: Boxed<IlExp>, y: Boxed<IlExp>) -> IlExp
    ensures { result ≡ ordered sign x y }
{
    match sign {
        Mark::Greater => IlExp::Gt(x, y),
        Mark::LessOrEqual => IlExp::Le(x, y),
        Mark::GreaterOrEqual => IlExp::Ge(x, y),
        _ => IlExp::Lt(x, y),
    }
}

/// Arithmetic on two numbers of this type, by this sign.
pub fn reckoned(sign: Mark, number: NumTy, x: Boxed<IlExp>, y: Boxed<IlExp>) -> IlExp
    ensures { result ≡ reckoned sign number x y }
{
    match sign {
        Mark::Minus => IlExp::Sub(number, x, y),
        Mark::Star => IlExp::Mul(number, x, y),
        Mark::Slash => IlExp::Div(number, x, y),
        Mark::Backslash => IlExp::Rem(number, x, y),
        _ => IlExp::Add(number, x, y),
    }
}
