//! Expressions and premises of the internal language (the tables of `docs/internal-language.md`).

use crate::{NumTy, Ty};
use st_num::{Boxed, Name, Row};

/// A premise of a rule or a clause.
#[derive(Drop)]
pub enum IlPrem {
    If(IlExp),
    /// A judgement of the named relation.
    Goal(Name, Row<IlExp>),
    Otherwise,
    /// A premise for each element of the named lists.
    Each(Iteration, Row<Name>, Boxed<IlPrem>),
}

/// How often an iteration goes.
#[cycle(expression)]
#[derive(Drop)]
pub enum Iteration {
    Star,
    Plus,
    Quest,
    /// This many times.
    Times(Boxed<IlExp>),
    /// This many times, over an index that counts from 0.
    Below(Name, Boxed<IlExp>),
}

/// An expression, with each conversion between types written out.
#[cycle(expression)]
#[derive(Drop)]
pub enum IlExp {
    Bool(bool),
    Number(u128),
    Text(Name),
    Var(Name),
    Not(Boxed<IlExp>),
    And(Boxed<IlExp>, Boxed<IlExp>),
    Or(Boxed<IlExp>, Boxed<IlExp>),
    Imp(Boxed<IlExp>, Boxed<IlExp>),
    Iff(Boxed<IlExp>, Boxed<IlExp>),
    Neg(Boxed<IlExp>),
    Add(NumTy, Boxed<IlExp>, Boxed<IlExp>),
    Sub(NumTy, Boxed<IlExp>, Boxed<IlExp>),
    Mul(NumTy, Boxed<IlExp>, Boxed<IlExp>),
    Div(NumTy, Boxed<IlExp>, Boxed<IlExp>),
    Rem(NumTy, Boxed<IlExp>, Boxed<IlExp>),
    Pow(NumTy, Boxed<IlExp>, Boxed<IlExp>),
    Eq(Boxed<IlExp>, Boxed<IlExp>),
    Ne(Boxed<IlExp>, Boxed<IlExp>),
    Lt(Boxed<IlExp>, Boxed<IlExp>),
    Gt(Boxed<IlExp>, Boxed<IlExp>),
    Le(Boxed<IlExp>, Boxed<IlExp>),
    Ge(Boxed<IlExp>, Boxed<IlExp>),
    Member(Boxed<IlExp>, Boxed<IlExp>),
    /// A case of the named type: its tag and its operands.
    Case(Name, Name, Row<IlExp>),
    /// A record of the named type, its parts in declared order.
    Fields(Name, Row<IlExp>),
    Dot(Boxed<IlExp>, Name),
    /// The first with the place at the path replaced by the last.
    Set(Boxed<IlExp>, Row<PathSeg>, Boxed<IlExp>),
    /// The first with the last behind the list at the path.
    Extend(Boxed<IlExp>, Row<PathSeg>, Boxed<IlExp>),
    Tuple(Row<IlExp>),
    /// A list of this element type.
    List(Ty, Row<ListItem>),
    /// Two lists, one behind the other.
    Cat(Boxed<IlExp>, Boxed<IlExp>),
    /// Two records, joined field by field.
    Join(Boxed<IlExp>, Boxed<IlExp>),
    /// An empty option of this element type.
    Empty(Ty),
    Present(Boxed<IlExp>),
    /// A part of this list or option type that was left out.
    Absent(Ty),
    Len(Boxed<IlExp>),
    At(Boxed<IlExp>, Boxed<IlExp>),
    /// The elements from a position on, this many.
    Slice(Boxed<IlExp>, Boxed<IlExp>, Boxed<IlExp>),
    Call(Name, Row<IlExp>),
    /// The injection into a larger type.
    Up(Ty, Boxed<IlExp>),
    /// The body for each element of the named lists.
    Iter(Iteration, Row<Name>, Boxed<IlExp>),
}

/// A step of a path into a value.
#[cycle(expression)]
#[derive(Drop)]
pub enum PathSeg {
    Field(Name),
    At(IlExp),
    Slice(IlExp, IlExp),
}

/// A part of a list: one element, or all elements of another list.
#[cycle(expression)]
#[derive(Drop)]
pub enum ListItem {
    One(IlExp),
    All(IlExp),
}
