//! What stands before a token, and tokens of forms of SpecTec that are left out.

ghost use Rattle.std.specs.Prelude.{◌≡◌, reverse};
ghost use Rattle.st_parse_faults.specs.inner.LeftOut as spec;
ghost use Rattle.st_parse_faults.specs.inner.Seen as seen;
ghost use Rattle.st_parse_automaton.specs.inner.Readings.{progress_of, reading_of};

use st_grammar::{Bracket, Sort};
use st_num::{Mark, Row, TokenKind, Word};
use st_parse_automaton::{
    At, Expected, Host, Part, Position, Progress, Reading, Slot, slot_sort, top,
};

/// What the tokens before a refused one end with, where a form that is left out could go on.
#[derive(Clone, Copy, Debug, PartialEq, Eq)]
pub enum Before {
    /// The name of a syntax, with nothing behind it.
    SyntaxName,
    /// The `--` of a premise.
    Dashes,
    Typ,
    Other,
}

/// Whether a part that is read in a part of this sort is a type.
fn ends_type(sort: Sort, part: Part) -> bool
    ensures { result ≡ seen.ends_type sort part }
{
    match sort {
        Sort::Typ => true,
        Sort::Notation => matches!(part, Part::Typ(_)),
        Sort::Expression(_) | Sort::Arithmetic | Sort::Count | Sort::Bound => false,
    }
}

/// What ends directly before a position.
fn before_at(position: Position, brackets: &Row<Bracket>) -> Before
    ensures { result ≡ seen.before_at position (reverse brackets.now) }
{
    match position {
        Position::Hinted(Host::Syntax, true) => Before::SyntaxName,
        Position::PremiseOpen => match brackets.as_slice().last() {
            None => Before::Dashes,
            Some(_) => Before::Other,
        },
        _ => Before::Other,
    }
}

/// What ends directly before the next token of a part.
fn before_inside(slot: Slot, reading: &Reading) -> Before
    ensures { result ≡ seen.before_inside slot (reading_of reading.now) }
{
    match reading.expected {
        Expected::Next(part) => {
            if ends_type(top(slot_sort(slot), &reading.frames), part) {
                Before::Typ
            } else {
                Before::Other
            }
        }
        Expected::Operand
        | Expected::Label
        | Expected::Step(_)
        | Expected::Index
        | Expected::Less => Before::Other,
    }
}

/// What the tokens that are read so far end with.
pub(crate) fn stands_before(progress: &Progress) -> Before
    ensures { result ≡ seen.stands_before (progress_of progress.now) }
{
    match progress {
        Progress::At(here) => before_at(here.position, &here.brackets),
        Progress::Inside(slot, reading, _) => before_inside(*slot, reading),
    }
}

/// Whether a sign begins a form that is left out, behind this and in so many brackets.
fn sign_left_out(before: Before, nesting: u8, mark: Mark) -> bool
    ensures { result ≡ spec.sign_left_out before nesting mark }
{
    match mark {
        Mark::OpenParen => matches!(before, Before::SyntaxName),
        Mark::Comma => nesting == 0,
        Mark::Ellipsis => true,
        Mark::Plus | Mark::Caret => matches!(before, Before::Typ),
        _ => false,
    }
}

/// Whether a reserved word begins a form that is left out, behind this.
fn word_left_out(before: Before, word: Word) -> bool
    ensures { result ≡ spec.word_left_out before word }
{
    match word {
        Word::Grammar | Word::Rat | Word::Real => true,
        Word::Var => matches!(before, Before::Dashes),
        _ => false,
    }
}

/// Whether a token that is refused there begins a form that is left out.
pub(crate) fn left_out(before: Before, nesting: u8, kind: &TokenKind) -> bool
    ensures { result ≡ spec.left_out before nesting kind.now }
{
    match kind {
        TokenKind::Sign(mark) => sign_left_out(before, nesting, *mark),
        TokenKind::Reserved(word) => word_left_out(before, *word),
        TokenKind::Low(_)
        | TokenKind::Up(_)
        | TokenKind::Mix(_)
        | TokenKind::Number(_)
        | TokenKind::Text(_)
        | TokenKind::Dot(_)
        | TokenKind::Fun(_) => false,
    }
}
