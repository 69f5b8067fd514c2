//! The signs of the operators of the internal language.

ghost use Rattle.std.specs.Prelude.{◌≡◌};
ghost use Rattle.st_il.specs.declared.expression.IlExp.{out-IlExp};
ghost use Rattle.st_erase.specs.inner.Operators.{sign_at};

use st_il::IlExp;
use st_num::Mark;

/// The sign between the two operands of an expression; it means nothing where there are not two.
pub fn sign_of(exp: &IlExp) -> Mark
    ensures { result ≡ sign_at (out-IlExp exp.now) }
{
    match exp {
        IlExp::And(_, _) => Mark::And,
        IlExp::Or(_, _) => Mark::Or,
        IlExp::Imp(_, _) => Mark::Implies,
        IlExp::Iff(_, _) => Mark::Equivalent,
        IlExp::Add(_, _, _) => Mark::Plus,
        IlExp::Sub(_, _, _) => Mark::Minus,
        IlExp::Mul(_, _, _) => Mark::Star,
        IlExp::Div(_, _, _) => Mark::Slash,
        IlExp::Rem(_, _, _) => Mark::Backslash,
        IlExp::Pow(_, _, _) => Mark::Caret,
        IlExp::Eq(_, _) => Mark::Equal,
        IlExp::Ne(_, _) => Mark::NotEqual,
        IlExp::Lt(_, _) => Mark::Less,
        IlExp::Gt(_, _) => Mark::Greater,
        IlExp::Le(_, _) => Mark::LessOrEqual,
        IlExp::Ge(_, _) => Mark::GreaterOrEqual,
        IlExp::Member(_, _) => Mark::ElementOf,
        _ => Mark::PlusPlus,
    }
}
