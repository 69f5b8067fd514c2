//! What a sign between two operands asks of them.

ghost use Rattle.std.specs.Prelude.{◌≡◌};
ghost use Rattle.st_elab_table.specs.Operators.{operator_of};

use st_num::Mark;

/// What a sign between two operands does with them.
#[derive(Clone, Copy, Debug, PartialEq, Eq)]
pub enum Operator {
    /// It joins two truth values.
    Logic,
    /// It compares two values of one type.
    Equation,
    /// It compares two numbers by size.
    Order,
    /// Its left operand may be an element of its right one.
    Membership,
    /// It puts two lists behind each other, or joins two records.
    Concatenation,
    Arithmetic,
    Power,
    /// It is no operator of an expression.
    Other,
}

/// The kind of operator that a sign is between two operands.
pub fn operator_of(sign: Mark) -> Operator
    ensures { result ≡ operator_of sign }
{
    match sign {
        Mark::And | Mark::Or | Mark::Implies | Mark::Equivalent => Operator::Logic,
        Mark::Equal | Mark::NotEqual => Operator::Equation,
        Mark::Less | Mark::Greater | Mark::LessOrEqual | Mark::GreaterOrEqual => Operator::Order,
        Mark::ElementOf => Operator::Membership,
        Mark::PlusPlus => Operator::Concatenation,
        Mark::Plus | Mark::Minus | Mark::Star | Mark::Slash | Mark::Backslash => {
            Operator::Arithmetic
        }
        Mark::Caret => Operator::Power,
        _ => Operator::Other,
    }
}
