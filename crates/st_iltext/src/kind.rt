//! The kinds of expressions that stand in parentheses, and the words that begin their texts.

ghost use Rattle.std.specs.Prelude.{◌≡◌, ◌≢◌, MatchOption};
ghost use Rattle.st_iltext.specs.declared.kind.Kind.{Kind as Kinds};
ghost use Rattle.st_iltext.specs.inner.KindWords.{unary_exp, binary_exp, arithmetic_exp, kind_word};
ghost use Rattle.st_text.specs.Text.{word};
ghost use Rattle.st_text.specs.Trees.{tree_of};

use crate::shape::is_word;
use st_il::{IlExp, NumTy};
use st_num::Boxed;
use st_text::TextTree;

/// An operator of one operand.
#[derive(Clone, Copy)]
pub enum Unary {
    Not,
    Neg,
    Present,
    Len,
}

impl Unary {
    /// The operator on this operand.
    pub fn of(self, x: Boxed<IlExp>) -> IlExp
        ensures { result ≡ unary_exp self x }
    {
        match self {
            Unary::Not => IlExp::Not(x),
            Unary::Neg => IlExp::Neg(x),
            Unary::Present => IlExp::Present(x),
            Unary::Len => IlExp::Len(x),
        }
    }
}

/// An operator of two operands.
#[derive(Clone, Copy)]
pub enum Binary {
    And,
    Or,
    Imp,
    Iff,
    Eq,
    Ne,
    Lt,
    Gt,
    Le,
    Ge,
    Member,
    Cat,
    Join,
    At,
}

impl Binary {
    /// The operator on these operands.
    pub fn of(self, x: Boxed<IlExp>, y: Boxed<IlExp>) -> IlExp
        ensures { result ≡ binary_exp self x y }
    {
        match self {
            Binary::And => IlExp::And(x, y),
            Binary::Or => IlExp::Or(x, y),
            Binary::Imp => IlExp::Imp(x, y),
            Binary::Iff => IlExp::Iff(x, y),
            Binary::Eq => IlExp::Eq(x, y),
            Binary::Ne => IlExp::Ne(x, y),
            Binary::Lt => IlExp::Lt(x, y),
            Binary::Gt => IlExp::Gt(x, y),
            Binary::Le => IlExp::Le(x, y),
            Binary::Ge => IlExp::Ge(x, y),
            Binary::Member => IlExp::Member(x, y),
            Binary::Cat => IlExp::Cat(x, y),
            Binary::Join => IlExp::Join(x, y),
            Binary::At => IlExp::At(x, y),
        }
    }
}

/// An operator of arithmetic, at a type of numbers.
#[derive(Clone, Copy)]
pub enum Arithmetic {
    Add,
    Sub,
    Mul,
    Div,
    Rem,
    Pow,
}

impl Arithmetic {
    /// The operator on these operands, at this type.
    pub fn of(self, ty: NumTy, x: Boxed<IlExp>, y: Boxed<IlExp>) -> IlExp
        ensures { result ≡ arithmetic_exp self ty x y }
    {
        match self {
            Arithmetic::Add => IlExp::Add(ty, x, y),
            Arithmetic::Sub => IlExp::Sub(ty, x, y),
            Arithmetic::Mul => IlExp::Mul(ty, x, y),
            Arithmetic::Div => IlExp::Div(ty, x, y),
            Arithmetic::Rem => IlExp::Rem(ty, x, y),
            Arithmetic::Pow => IlExp::Pow(ty, x, y),
        }
    }
}

/// What an expression in parentheses is.
#[derive(Clone, Copy)]
pub enum Kind {
    Var,
    Unary(Unary),
    Binary(Binary),
    Arithmetic(Arithmetic),
    Case,
    Fields,
    Call,
    Dot,
    Set,
    Extend,
    Tuple,
    List,
    Empty,
    Absent,
    Slice,
    Up,
    Iter,
}

impl Kind {
    /// All kinds.
    const ALL: [Kind; 38] = [
        Kind::Unary(Unary::Not),
        Kind::Unary(Unary::Neg),
        Kind::Unary(Unary::Present),
        Kind::Unary(Unary::Len),
        Kind::Binary(Binary::And),
        Kind::Binary(Binary::Or),
        Kind::Binary(Binary::Imp),
        Kind::Binary(Binary::Iff),
        Kind::Binary(Binary::Eq),
        Kind::Binary(Binary::Ne),
        Kind::Binary(Binary::Lt),
        Kind::Binary(Binary::Gt),
        Kind::Binary(Binary::Le),
        Kind::Binary(Binary::Ge),
        Kind::Binary(Binary::Member),
        Kind::Binary(Binary::Cat),
        Kind::Binary(Binary::Join),
        Kind::Binary(Binary::At),
        Kind::Arithmetic(Arithmetic::Add),
        Kind::Arithmetic(Arithmetic::Sub),
        Kind::Arithmetic(Arithmetic::Mul),
        Kind::Arithmetic(Arithmetic::Div),
        Kind::Arithmetic(Arithmetic::Rem),
        Kind::Arithmetic(Arithmetic::Pow),
        Kind::Var,
        Kind::Case,
        Kind::Fields,
        Kind::Call,
        Kind::Dot,
        Kind::Set,
        Kind::Extend,
        Kind::Tuple,
        Kind::List,
        Kind::Empty,
        Kind::Absent,
        Kind::Slice,
        Kind::Up,
        Kind::Iter,
    ];

    /// The word that begins an expression of this kind.
    fn word(self) -> &'static [u8]
        ensures { result.now ≡ kind_word self }
    {
        match self {
            Kind::Var => b"v",
            Kind::Unary(Unary::Not) => b"not",
            Kind::Unary(Unary::Neg) => b"neg",
            Kind::Unary(Unary::Present) => b"some",
            Kind::Unary(Unary::Len) => b"len",
            Kind::Binary(Binary::And) => b"and",
            Kind::Binary(Binary::Or) => b"or",
            Kind::Binary(Binary::Imp) => b"imp",
            Kind::Binary(Binary::Iff) => b"iff",
            Kind::Binary(Binary::Eq) => b"eq",
            Kind::Binary(Binary::Ne) => b"ne",
            Kind::Binary(Binary::Lt) => b"lt",
            Kind::Binary(Binary::Gt) => b"gt",
            Kind::Binary(Binary::Le) => b"le",
            Kind::Binary(Binary::Ge) => b"ge",
            Kind::Binary(Binary::Member) => b"member",
            Kind::Binary(Binary::Cat) => b"cat",
            Kind::Binary(Binary::Join) => b"join",
            Kind::Binary(Binary::At) => b"at",
            Kind::Arithmetic(Arithmetic::Add) => b"add",
            Kind::Arithmetic(Arithmetic::Sub) => b"sub",
            Kind::Arithmetic(Arithmetic::Mul) => b"mul",
            Kind::Arithmetic(Arithmetic::Div) => b"div",
            Kind::Arithmetic(Arithmetic::Rem) => b"rem",
            Kind::Arithmetic(Arithmetic::Pow) => b"pow",
            Kind::Case => b"case",
            Kind::Fields => b"fields",
            Kind::Call => b"call",
            Kind::Dot => b"dot",
            Kind::Set => b"set",
            Kind::Extend => b"extend",
            Kind::Tuple => b"tuple",
            Kind::List => b"list",
            Kind::Empty => b"none",
            Kind::Absent => b"absent",
            Kind::Slice => b"slice",
            Kind::Up => b"up",
            Kind::Iter => b"iter",
        }
    }
}

/// The kind whose word the tree is.
pub fn kind_of(tree: &TextTree) -> Option<Kind>
    ensures { MatchOption result ((k : Kinds) → tree_of tree.now ≢ word (kind_word k))
        (λ k. tree_of tree.now ≡ word (kind_word k)) }
{
    for kind in &Kind::ALL {
        if is_word(tree, kind.word()) {
            return Some(*kind);
        }
    }
    None
}
