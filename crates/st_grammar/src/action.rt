//! The actions that put a part together again, one node after another: operands come before their
//! sign.

ghost use Rattle.std.specs.Prelude.{◌≡◌};

use crate::{Bracket, Leaf};
use st_num::{Mark, Span, Token};
use std::marker::Model;

/// A token that is kept elsewhere.
#[derive(Drop)]
pub struct TokenRef<'a> {
    token: &'a Token,
}

impl<'a> Model for TokenRef<'a> {
    ghost use Rattle.st_num.specs.declared.token.Token.{Token};

    ghost Value = { Token };

    ghost view = { λ r. r.token.now };
}

impl<'a> TokenRef<'a> {
    pub fn new(token: &'a Token) -> TokenRef<'a>
        ensures { result ≡ token.now }
    {
        TokenRef { token }
    }

    pub fn get(&self) -> &'a Token
        ensures { result.now ≡ self.now }
    {
        self.token
    }
}

/// One step of building. What is finished stands on a stack, the last part on top.
#[derive(Drop)]
pub enum Action<'a> {
    /// A part of one token.
    Operand(Leaf, TokenRef<'a>),
    /// A dot with a name, behind the part on top.
    Dot(TokenRef<'a>),
    /// An iteration sign behind the part on top.
    Mark(Mark),
    /// The part on top is the count of the one below.
    Times,
    /// The same, with an index whose name stands between them.
    Below,
    /// The name of a field or an index.
    Label(TokenRef<'a>),
    /// What encloses one part, or has it on its right alone, begins at this place.
    Here(Span),
    /// A sign that has only the part on top.
    Prefix(Mark),
    /// The end of a bracket round one part.
    Enclose(Bracket),
    /// The end of a length.
    Length,
    /// A sign between the two parts on top.
    Join(Mark),
    /// Parts in parentheses begin at this place.
    Open(Span),
    /// The part on top is the first of a sequence.
    First,
    /// The part on top is the next of several.
    Part,
    EndParens,
    EndCall,
    EndSequence,
    /// A record begins at this place.
    OpenFields(Span),
    /// The part on top is the next field.
    Field,
    EndFields,
    /// A path or a position begins behind the part on top.
    OpenPath,
    StepField(TokenRef<'a>),
    StepAt,
    StepSlice,
    /// The part on top is a position in the one below.
    At,
    /// The two parts on top are a position and how many elements.
    Slice,
    /// The part on top is new at the path below.
    Change(Mark),
}
