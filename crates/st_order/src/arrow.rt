//! The arrow at the top of a notation, and the holes on its sides, read off the tag without memory.
//!
//! The sign at the top of a notation is the loosest of those outside of brackets. Only `|-` and
//! `-|` are looser than an arrow, and no two arrows stand outside of brackets. So an arrow that
//! stands there is at the top, unless one of these two stands there as well.

ghost use Rattle.std.specs.Prelude.{◌≡◌, ◌≢◌, ◌<◌, ◌+◌, ◌^◌, ◌++◌, ◌∷◌, find, MatchOption};
ghost use Rattle.std.specs.List.{All};
ghost use Rattle.st_order.specs.inner.Arrow.{is_written, piece_of_sign, piece_of, taken, sides_at, pieces, leads, started};

use st_num::Mark;

/// What a part of a tag is to an arrow outside of brackets.
#[derive(Clone, Copy, Debug)]
pub(crate) enum Piece {
    Hole,
    Arrow,
    /// A sign that is looser than an arrow.
    Looser,
    Opening,
    Closing,
    /// A name, or a sign that is tighter than an arrow.
    Other,
}

/// How far a tag is read.
#[derive(Clone, Copy, Debug)]
pub(crate) struct Scan {
    /// How many brackets are open.
    depth: usize,
    /// How many holes were met.
    holes: usize,
    /// How many of them before the arrow, if it was met.
    before: Option<usize>,
}

/// The holes of a notation with an arrow at its top: how many stand before the arrow, and how many
/// there are.
#[derive(Clone, Copy, Debug)]
pub(crate) struct Sides {
    pub(crate) before: usize,
    pub(crate) holes: usize,
}

/// Whether the sign is written so.
fn is_written(sign: Mark, text: &[u8]) -> bool
    ensures { result ≡ is_written text.now sign }
{
    sign.spelling().as_bytes() == text
}

/// The first of these signs that is written so.
fn sign_among(signs: &[Mark], text: &[u8]) -> Option<Mark>
    ensures { result ≡ find (is_written text.now) signs.now }
{
    for sign in signs {
        if is_written(*sign, text) {
            return Some(*sign);
        }
    }
    None
}

/// What a sign is to an arrow.
fn piece_of_sign(sign: Mark) -> Piece
    ensures { result ≡ piece_of_sign sign }
{
    match sign {
        Mark::SquigglyArrow | Mark::SquigglyArrowStar => Piece::Arrow,
        Mark::Turnstile | Mark::ReverseTurnstile => Piece::Looser,
        Mark::TickParen | Mark::TickBracket | Mark::TickBrace => Piece::Opening,
        Mark::CloseParen | Mark::CloseBracket | Mark::CloseBrace => Piece::Closing,
        _ => Piece::Other,
    }
}

/// What a part of a tag is to an arrow, by how it is written.
fn piece_of(text: &[u8]) -> Piece
    ensures { result ≡ piece_of text.now }
{
    if text == b"%".as_slice() {
        return Piece::Hole;
    }
    match sign_among(&Mark::ALL, text) {
        Some(sign) => piece_of_sign(sign),
        None => Piece::Other,
    }
}

/// Reads one more part, unless the arrow is not at the top.
fn take(scan: Scan, piece: Piece) -> Option<Scan>
    requires depth { scan.depth + 1 < 2 ^ 64 }
    requires holes { scan.holes + 1 < 2 ^ 64 }
    ensures { result ≡ taken scan piece }
{
    let Scan {
        depth,
        holes,
        before,
    } = scan;
    match piece {
        Piece::Hole => Some(Scan {
            depth,
            holes: holes + 1,
            before,
        }),
        Piece::Opening => Some(Scan {
            depth: depth + 1,
            holes,
            before,
        }),
        Piece::Closing => Some(Scan {
            depth: depth.saturating_sub(1),
            holes,
            before,
        }),
        Piece::Arrow if depth == 0 => Some(Scan {
            depth,
            holes,
            before: Some(holes),
        }),
        Piece::Looser if depth == 0 => None,
        Piece::Arrow | Piece::Looser | Piece::Other => Some(scan),
    }
}

/// The holes on the sides of the arrow, if it was met.
fn sides_at(scan: Scan) -> Option<Sides>
    ensures { result ≡ sides_at scan }
{
    match scan.before {
        Some(before) => Some(Sides {
            before,
            holes: scan.holes,
        }),
        None => None,
    }
}

/// What stands before the first space, and what stands behind it.
fn cut(bytes: &[u8]) -> (&[u8], Option<&[u8]>)
    ensures front { All (λ byte. byte ≢ 32) result.0.now }
    ensures whole { MatchOption result.1 (bytes.now ≡ result.0.now)
        (λ behind. bytes.now ≡ result.0.now ++ 32 ∷ behind.now) }
{
    for (i, byte) in bytes.iter().enumerate() {
        if *byte == b' ' {
            return (&bytes[..i], Some(&bytes[i + 1..]));
        }
    }
    (bytes, None)
}

/// The holes on the sides of the arrow outside of brackets, unless none or a looser sign stands
/// there.
pub(crate) fn sides_of(tag: &[u8]) -> Option<Sides>
    ensures { result ≡ leads started (pieces tag.now) }
{
    let _size = tag.len();
    let mut scan = Scan {
        depth: 0,
        holes: 0,
        before: None,
    };
    let mut rest = tag;
    'parts: loop {
        let (text, behind) = cut(rest);
        let piece = piece_of(text);
        let found = take(scan, piece);
        let Some(next) = found else {
            return None;
        };
        let Some(others) = behind else {
            return sides_at(next);
        };
        scan = next;
        rest = others;
    }
}
