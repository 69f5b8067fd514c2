//! Texts: their bytes behind the quote, and where they end.

ghost use Rattle.std.specs.Prelude.{◌≡◌, ◌≤◌, ◌∷◌, length, IsTrue, MatchOption, MatchResult};
ghost use Rattle.st_scan.specs.Faults.{closes_text};
ghost use Rattle.st_scan.specs.inner.Readings.{IsReading, Stops, begins_quote};
ghost use Rattle.st_scan.specs.inner.TextPieces.{IsPiece, IsEscape, NoEscape, text_stop};

use crate::TokenKind;
use crate::read::{Reading, Stop};
use st_num::{Name, RuleId};
use std::alloc::Global;

/// What stands next in a text: a byte with the length of its spelling, the quote that ends the
/// text, or nothing that a text may have.
enum Piece {
    Byte(u8, usize),
    Quote,
    Wrong,
}

/// The byte that an escape stands for, by the letter behind its backslash.
fn escape_of(letter: u8) -> Option<u8>
    ensures { MatchOption result (NoEscape letter) (λ byte. IsEscape letter byte) }
{
    match letter {
        b'"' | b'\\' => Some(letter),
        b'n' => Some(b'\n'),
        b't' => Some(b'\t'),
        _ => None,
    }
}

/// What stands next in a text where a backslash does, with these bytes behind it.
fn piece_behind_backslash(behind: &[u8]) -> Piece
    ensures { IsPiece (92 ∷ behind.now) result }
{
    let Some((letter, _)) = behind.split_first() else {
        return Piece::Wrong;
    };
    match escape_of(*letter) {
        Some(byte) => Piece::Byte(byte, 2),
        None => Piece::Wrong,
    }
}

/// What stands next in a text.
fn piece_at(bytes: &[u8]) -> Piece
    ensures { IsPiece bytes.now result }
{
    let Some((byte, behind)) = bytes.split_first() else {
        return Piece::Wrong;
    };
    if *byte == b'"' {
        Piece::Quote
    } else if *byte == b'\\' {
        piece_behind_backslash(behind)
    } else if *byte < b' ' {
        Piece::Wrong
    } else {
        Piece::Byte(*byte, 1)
    }
}

/// Whether a quote that no backslash escapes stands on the same line.
fn closes_text(bytes: &[u8]) -> bool
    ensures { result ≡ closes_text bytes.now }
{
    let mut rest = bytes;
    'line: loop {
        let Some((byte, others)) = rest.split_first() else {
            return false;
        };
        if *byte == b'"' {
            return true;
        }
        let Some((next, behind)) = others.split_first() else {
            return false;
        };
        if *byte == b'\n' {
            return false;
        }
        if *byte != b'\\' {
            rest = others;
        } else if *next != b'\n' {
            rest = behind;
        } else {
            return false;
        }
    }
}

/// The fault of a text in which `rest` is the first part that it may not have.
fn text_fault(bytes: &[u8], rest: &[u8]) -> Stop
    requires { length rest.now ≤ length bytes.now }
    ensures { result ≡ text_stop bytes.now rest.now }
{
    if closes_text(rest) {
        Stop::Refused {
            skipped: bytes.len() - rest.len(),
            rule: RuleId::L1,
        }
    } else {
        Stop::Refused {
            skipped: 0,
            rule: RuleId::L2,
        }
    }
}

/// The text at the front, which begins with a quote.
pub(crate) fn read_text(alloc: Global, bytes: &[u8]) -> Result<Reading, Stop>
    requires { IsTrue (begins_quote bytes.now) }
    ensures { MatchResult result
        (λ reading. IsReading bytes.now reading)
        (λ stop. Stops bytes.now stop) }
{
    let mut text = Name::new(alloc);
    let mut rest = &bytes[1..];
    'pieces: loop {
        match piece_at(rest) {
            Piece::Byte(byte, size) => {
                text.push(byte)?;
                rest = &rest[size..];
            }
            Piece::Quote => {
                return Ok(Reading {
                    kind: TokenKind::Text(text),
                    length: bytes.len() - rest.len() + 1,
                });
            }
            Piece::Wrong => return Err(text_fault(bytes, rest)),
        }
    }
}
