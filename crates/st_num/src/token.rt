//! Tokens with their places: what a scan gives, and what a hint of a source tree keeps.

ghost use Rattle.std.specs.Prelude.{◌≡◌, IfOk};

use crate::mark::Mark;
use crate::memory::NoMemory;
use crate::row::Name;
use crate::span::Span;
use crate::word::Word;
use std::alloc::Global;

/// A token with the place of its first character.
///
/// It touches what stands before it where no blank and no comment stands between. The first token
/// of a file touches where it stands at the very start.
#[derive(Debug, Drop, PartialEq, Eq)]
pub struct Token {
    pub at: Span,
    pub touching: bool,
    pub kind: TokenKind,
}

/// What a token is.
///
/// A name that begins with a lower-case letter and is not reserved is `Low`, one without a
/// lower-case letter `Up`, and one that begins upper-case and has one `Mix`. `Dot` is a name right
/// behind a dot, `Fun` a name right behind a dollar sign, and `Text` holds the characters that its
/// escapes stand for.
#[derive(Debug, Drop, PartialEq, Eq)]
pub enum TokenKind {
    Low(Name),
    Up(Name),
    Mix(Name),
    Reserved(Word),
    Number(u128),
    Text(Name),
    Dot(Name),
    Fun(Name),
    Sign(Mark),
}

impl TokenKind {
    /// The same kind of token, with a name or text of its own.
    pub fn copy(&self, alloc: Global) -> Result<TokenKind, NoMemory>
        ensures { IfOk result (λ copy. copy ≡ self.now) }
    {
        match self {
            TokenKind::Low(name) => Ok(TokenKind::Low(name.copy(alloc)?)),
            TokenKind::Up(name) => Ok(TokenKind::Up(name.copy(alloc)?)),
            TokenKind::Mix(name) => Ok(TokenKind::Mix(name.copy(alloc)?)),
            TokenKind::Reserved(word) => Ok(TokenKind::Reserved(*word)),
            TokenKind::Number(number) => Ok(TokenKind::Number(*number)),
            TokenKind::Text(text) => Ok(TokenKind::Text(text.copy(alloc)?)),
            TokenKind::Dot(name) => Ok(TokenKind::Dot(name.copy(alloc)?)),
            TokenKind::Fun(name) => Ok(TokenKind::Fun(name.copy(alloc)?)),
            TokenKind::Sign(sign) => Ok(TokenKind::Sign(*sign)),
        }
    }
}

impl Token {
    /// The same token at the same place.
    pub fn copy(&self, alloc: Global) -> Result<Token, NoMemory>
        ensures { IfOk result (λ copy. copy ≡ self.now) }
    {
        let kind = self.kind.copy(alloc)?;
        Ok(Token {
            at: self.at,
            touching: self.touching,
            kind,
        })
    }
}
