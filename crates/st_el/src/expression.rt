//! Expressions as they are written.

use st_num::{Boxed, Mark, Name, Row, Span};

/// An expression with the place of its first character.
#[cycle(expression)]
#[derive(Drop)]
pub struct Exp {
    pub at: Span,
    pub node: Node,
}

/// What an expression is.
#[cycle(expression)]
#[derive(Drop)]
pub enum Node {
    /// A variable.
    Name(Name),
    Atom(Name),
    Bool(bool),
    Number(u128),
    Text(Name),
    Eps,
    /// Two elements or more, or none for the absent left side of `|-`.
    Seq(Row<Exp>),
    /// Two sides of a sign of the notation.
    Infix(Boxed<Exp>, Mark, Boxed<Exp>),
    /// Two operands of a sign of logic, comparison, membership, `++` or arithmetic.
    Binary(Boxed<Exp>, Mark, Boxed<Exp>),
    Not(Boxed<Exp>),
    Neg(Boxed<Exp>),
    /// The expression between `$(` and `)`.
    Arith(Boxed<Exp>),
    /// The expression in parentheses.
    Paren(Boxed<Exp>),
    /// The expression in backquoted brackets, which are named by their opening sign.
    Bracket(Mark, Boxed<Exp>),
    /// Two parts or more, in parentheses.
    Tuple(Row<Exp>),
    /// A record: its fields in the order in which they are written.
    Fields(Row<(Name, Exp)>),
    /// A field of a record.
    Dot(Boxed<Exp>, Name),
    /// The element at a position.
    At(Boxed<Exp>, Boxed<Exp>),
    /// The elements from a position on, this many.
    Slice(Boxed<Exp>, Boxed<Exp>, Boxed<Exp>),
    /// The first with the place at the path replaced by the last.
    Update(Boxed<Exp>, Row<Seg>, Boxed<Exp>),
    /// The first with the last behind the list at the path.
    Extend(Boxed<Exp>, Row<Seg>, Boxed<Exp>),
    /// The length of a list: the expression between bars.
    Len(Boxed<Exp>),
    /// A call of the function of this name, which is kept without `$`.
    Call(Name, Row<Exp>),
    Iter(Boxed<Exp>, Count),
}

/// A step of a path into a value.
#[cycle(expression)]
#[derive(Drop)]
pub enum Seg {
    Field(Name),
    At(Exp),
    Slice(Exp, Exp),
}

/// How often an iteration goes.
#[cycle(expression)]
#[derive(Drop)]
pub enum Count {
    Star,
    Plus,
    Quest,
    /// This many times.
    Times(Boxed<Exp>),
    /// This many times, over an index that counts from 0.
    Below(Name, Boxed<Exp>),
}
