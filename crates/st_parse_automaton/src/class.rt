//! What the parser takes a token for.

ghost use Rattle.std.specs.Prelude.{◌≡◌, ◌++◌, IfOk};
ghost use Rattle.st_grammar.specs.Terminals as terminals;
ghost use Rattle.st_grammar.specs.Terminals.{drop_primes, is_variable, is_var, name_in, declared_names};
ghost use Rattle.st_scan.specs.Bytes as bytes;
ghost use Rattle.st_scan.specs.Spelling as spelling;
ghost use Rattle.std.specs.Prelude as Prelude;
ghost use Rattle.st_num.specs.declared.token.TokenKind.TheVariants as kind;
ghost use Rattle.st_grammar.specs.declared.keyword.Keyword.TheVariants as key;
ghost use Rattle.st_grammar.specs.Definitions as definitions;
ghost use Rattle.st_parse_automaton.specs.inner.Shapes as shapes;
ghost use Rattle.st_parse_automaton.specs.inner.Shapes.{class_of};

use crate::name_index::NameIndex;
use crate::part_automaton::Shape;
use crate::position::TokenClass;
use st_grammar::{Bracket, Closing, Keyword, Leaf};
use st_num::{Mark, Name, NoMemory, Row, Token, TokenKind, Word};
use std::alloc::Global;

/// The name without its trailing primes.
#[tactic(auto, using(crate::proofs::Names::primes_end, crate::proofs::Names::other_end, crate::proofs::Names::no_primes))]
fn drop_primes(name: &[u8]) -> &[u8]
    ensures { result.now ≡ drop_primes name.now }
{
    let mut rest = name;
    'primes: while let Some((last, front)) = rest.split_last() {
        if *last != b'\'' {
            return rest;
        }
        rest = front;
    }
    rest
}

/// Whether the name without its trailing primes is one of these.
fn is_named(names: &NameIndex<'_>, name: &[u8]) -> bool
    ensures { result ≡ terminals.is_named names.now name.now }
{
    names.contains(drop_primes(name))
}

/// Whether the name stands for a variable, where these are declared by `var`.
fn is_variable(names: &NameIndex<'_>, name: &[u8]) -> bool
    ensures { result ≡ is_variable names.now name.now }
{
    'parts: for (at, byte) in name.iter().enumerate() {
        if *byte == b'_' && is_named(names, &name[..at]) {
            return true;
        }
    }
    is_named(names, name)
}

/// Whether it is a lower-case letter.
fn is_lower(byte: u8) -> bool
    ensures { result ≡ bytes.is_lower byte }
{
    byte.is_ascii_lowercase()
}

/// Whether a lower-case letter stands anywhere.
fn has_lower(name: &[u8]) -> bool
    ensures { result ≡ spelling.has_lower name.now }
{
    name.iter().any(|byte| is_lower(*byte))
}

/// What the parser takes a reserved word for in a part.
fn word_shape(word: Word) -> Shape
    ensures { result ≡ shapes.word_shape word }
{
    match word {
        Word::Bool | Word::Nat | Word::Int | Word::Text => Shape::Single(Leaf::Basic),
        Word::True | Word::False | Word::Eps => Shape::Single(Leaf::Literal),
        Word::Syntax
        | Word::Relation
        | Word::Rule
        | Word::Var
        | Word::Def
        | Word::Grammar
        | Word::Hint
        | Word::If
        | Word::Otherwise
        | Word::Rat
        | Word::Real => Shape::Other,
    }
}

/// What a reserved word begins: a definition, a hint, a premise, or none of these.
fn word_keyword(word: Word) -> Keyword
    ensures { result ≡ definitions.kind_keyword (kind.Reserved word) }
{
    match word {
        Word::Syntax => Keyword::SyntaxWord,
        Word::Relation => Keyword::RelationWord,
        Word::Rule => Keyword::RuleWord,
        Word::Var => Keyword::VarWord,
        Word::Def => Keyword::DefWord,
        Word::Hint => Keyword::HintWord,
        Word::If => Keyword::IfWord,
        Word::Otherwise => Keyword::OtherwiseWord,
        Word::Grammar
        | Word::Eps
        | Word::True
        | Word::False
        | Word::Bool
        | Word::Nat
        | Word::Int
        | Word::Text
        | Word::Rat
        | Word::Real => Keyword::NoWord,
    }
}

/// What the parser takes a sign for in a part, which touches what stands before it or not.
fn sign_shape(mark: Mark, touching: bool) -> Shape
    ensures { result ≡ shapes.sign_shape mark touching }
{
    match mark {
        Mark::OpenParen => Shape::Open(Bracket::Round, touching),
        Mark::OpenBracket => Shape::Open(Bracket::Square, touching),
        Mark::OpenBrace => Shape::Open(Bracket::Brace, touching),
        Mark::TickParen => Shape::Open(Bracket::TickRound, touching),
        Mark::TickBracket => Shape::Open(Bracket::TickSquare, touching),
        Mark::TickBrace => Shape::Open(Bracket::TickBrace, touching),
        Mark::OpenArith => Shape::Open(Bracket::Dollar, touching),
        Mark::CloseParen => Shape::Close(Closing::ByRound),
        Mark::CloseBracket => Shape::Close(Closing::BySquare),
        Mark::CloseBrace => Shape::Close(Closing::ByBrace),
        Mark::Bar => Shape::Close(Closing::ByBar),
        _ => Shape::Sign(mark),
    }
}

/// What a sign begins: `--` a premise, and others nothing.
fn mark_keyword(mark: Mark) -> Keyword
    ensures { result ≡ definitions.mark_keyword mark }
{
    match mark {
        Mark::DashDash => Keyword::Dashes,
        _ => Keyword::NoWord,
    }
}

/// A token that begins nothing by itself.
fn plain(shape: Shape, touching: bool, piece: bool) -> TokenClass
    ensures { result ≡ shapes.made shape touching key.NoWord Prelude.false piece Prelude.false }
{
    TokenClass {
        shape,
        touching,
        keyword: Keyword::NoWord,
        mix: false,
        piece,
        dot: false,
    }
}

/// What the parser takes such a kind of token for, where these names are declared by `var`.
fn kind_class(names: &NameIndex<'_>, kind: &TokenKind, touching: bool) -> TokenClass
    ensures { result ≡ shapes.kind_shape names.now kind.now touching }
{
    match kind {
        TokenKind::Low(_) => plain(Shape::Single(Leaf::Low), touching, true),
        TokenKind::Up(name) => {
            if is_variable(names, name.as_slice()) {
                plain(Shape::Single(Leaf::Variable), touching, true)
            } else {
                plain(Shape::Single(Leaf::Atom), touching, true)
            }
        }
        TokenKind::Mix(_) => TokenClass {
            mix: true,
            ..plain(Shape::Other, touching, true)
        },
        TokenKind::Reserved(word) => TokenClass {
            keyword: word_keyword(*word),
            ..plain(word_shape(*word), touching, true)
        },
        TokenKind::Number(_) => plain(Shape::Single(Leaf::Number), touching, true),
        TokenKind::Text(_) => plain(Shape::Single(Leaf::Literal), touching, false),
        TokenKind::Dot(name) => {
            let shape = if has_lower(name.as_slice()) {
                Shape::Other
            } else {
                Shape::Dot(touching)
            };
            TokenClass {
                dot: true,
                ..plain(shape, touching, false)
            }
        }
        TokenKind::Fun(_) => plain(Shape::Single(Leaf::Function), touching, false),
        TokenKind::Sign(mark) => TokenClass {
            keyword: mark_keyword(*mark),
            ..plain(sign_shape(*mark, touching), touching, false)
        },
    }
}

/// What the parser takes the token for, where these names are declared by `var`.
#[tactic(auto, using(crate::proofs::TokenKinds::token_is))]
pub fn token_class(names: &NameIndex<'_>, token: &Token) -> TokenClass
    ensures { result ≡ class_of (terminals.terminal names.now token.now) }
{
    kind_class(names, &token.kind, token.touching)
}

/// Whether it is the word `var`.
fn is_var(kind: &TokenKind) -> bool
    ensures { result ≡ is_var kind.now }
{
    matches!(kind, TokenKind::Reserved(Word::Var))
}

/// The name that the token is, if it is one.
fn name_in(kind: &TokenKind) -> Option<&Name>
    ensures { shapes.listed result ≡ name_in kind.now }
{
    match kind {
        TokenKind::Low(name) | TokenKind::Up(name) | TokenKind::Mix(name) => Some(name),
        TokenKind::Reserved(_)
        | TokenKind::Number(_)
        | TokenKind::Text(_)
        | TokenKind::Dot(_)
        | TokenKind::Fun(_)
        | TokenKind::Sign(_) => None,
    }
}

/// Adds the name that directly follows the word `var`.
fn add_name(
    alloc: Global,
    names: &mut Row<Name>,
    behind: bool,
    kind: &TokenKind,
) -> Result<(), NoMemory>
    ensures { IfOk result (λ _. names.new ≡ names.old ++ shapes.name_behind behind kind.now) }
{
    if !behind {
        return Ok(());
    }
    let Some(name) = name_in(kind) else {
        return Ok(());
    };
    names.push(name.copy(alloc)?)?;
    Ok(())
}

/// The names that directly follow the word `var`.
#[tactic(auto, using(crate::proofs::Loop::names_more))]
pub fn declared_names(alloc: Global, tokens: &[Token]) -> Result<Row<Name>, NoMemory>
    ensures { IfOk result (λ names. names ≡ declared_names tokens.now) }
{
    let mut names = Row::new(alloc);
    let mut behind = false;
    'tokens: for (at, token) in tokens.iter().enumerate() {
        add_name(alloc, &mut names, behind, &token.kind)?;
        behind = is_var(&token.kind);
    }
    Ok(names)
}
