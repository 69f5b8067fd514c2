//! The words that begin the texts of expressions.

ghost use Rattle.std.specs.Prelude.{◌≡◌};
ghost use Rattle.st_il.specs.declared.expression.IlExp.{out-IlExp};
ghost use Rattle.st_iltext.specs.inner.Heads.{head_at, operator_head_at};

use st_il::IlExp;

/// The word that begins the text of an expression that stands in parentheses.
pub fn head_of(exp: &IlExp) -> &'static [u8]
    ensures { result.now ≡ head_at (out-IlExp exp.now) }
{
    match exp {
        IlExp::Var(_) => b"v",
        IlExp::Case(_, _, _) => b"case",
        IlExp::Fields(_, _) => b"fields",
        IlExp::Dot(_, _) => b"dot",
        IlExp::Set(_, _, _) => b"set",
        IlExp::Extend(_, _, _) => b"extend",
        IlExp::Tuple(_) => b"tuple",
        IlExp::List(_, _) => b"list",
        IlExp::Empty(_) => b"none",
        IlExp::Present(_) => b"some",
        IlExp::Absent(_) => b"absent",
        IlExp::Len(_) => b"len",
        IlExp::At(_, _) => b"at",
        IlExp::Slice(_, _, _) => b"slice",
        IlExp::Call(_, _) => b"call",
        IlExp::Up(_, _) => b"up",
        IlExp::Iter(_, _, _) => b"iter",
        _ => operator_head(exp),
    }
}

/// The word that begins the text of an operator, and none of any other expression.
fn operator_head(exp: &IlExp) -> &'static [u8]
    ensures { result.now ≡ operator_head_at (out-IlExp exp.now) }
{
    match exp {
        IlExp::Not(_) => b"not",
        IlExp::And(_, _) => b"and",
        IlExp::Or(_, _) => b"or",
        IlExp::Imp(_, _) => b"imp",
        IlExp::Iff(_, _) => b"iff",
        IlExp::Neg(_) => b"neg",
        IlExp::Add(_, _, _) => b"add",
        IlExp::Sub(_, _, _) => b"sub",
        IlExp::Mul(_, _, _) => b"mul",
        IlExp::Div(_, _, _) => b"div",
        IlExp::Rem(_, _, _) => b"rem",
        IlExp::Pow(_, _, _) => b"pow",
        IlExp::Eq(_, _) => b"eq",
        IlExp::Ne(_, _) => b"ne",
        IlExp::Lt(_, _) => b"lt",
        IlExp::Gt(_, _) => b"gt",
        IlExp::Le(_, _) => b"le",
        IlExp::Ge(_, _) => b"ge",
        IlExp::Member(_, _) => b"member",
        IlExp::Cat(_, _) => b"cat",
        IlExp::Join(_, _) => b"join",
        _ => b"",
    }
}
