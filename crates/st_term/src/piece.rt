//! The pieces of a notation, and where its holes stand.

ghost use Rattle.std.specs.Prelude.{◌≡◌, ◌++◌, map, flat_map, OnOk};
ghost use Rattle.std.specs.Option.{option_map};
ghost use Rattle.st_term.specs.TermText.{pieces_of, begins, ends, is_atom, hole_place, piece_text};
ghost use Rattle.st_term.specs.inner.Pieces.{piece_now};

use st_il::Template;
use st_num::{Mark, Name, NoMemory, Row};

/// A piece of a notation.
#[derive(Clone, Copy)]
pub enum Piece<'a> {
    Hole,
    Atom(&'a Name),
    /// A sign between two sides.
    Divider(Mark),
    Opening(Mark),
    Closing(Mark),
}

/// Where a hole stands.
#[derive(Clone, Copy, Debug, PartialEq, Eq)]
pub enum HolePlace {
    /// It is a whole side of a sign, or the whole inside of a bracket.
    Whole,
    /// It is an element of a sequence, the last one or directly before an atom.
    Last,
    /// It is another element of a sequence.
    Among,
}

/// Adds the pieces of a notation.
#[cycle(pieces)]
pub(crate) fn push_pieces<'a>(
    template: &'a Template,
    pieces: &mut Row<Piece<'a>>,
) -> Result<(), NoMemory>
    ensures { OnOk result
        (map piece_now pieces.new ≡ map piece_now pieces.old ++ pieces_of template.now) }
{
    match template {
        Template::Atom(name) => pieces.push(Piece::Atom(name)),
        Template::Hole => pieces.push(Piece::Hole),
        Template::Seq(parts) => push_all(parts.as_slice(), pieces),
        Template::Infix(left, sign, right) => {
            push_pieces(left.get(), pieces)?;
            pieces.push(Piece::Divider(*sign))?;
            push_pieces(right.get(), pieces)
        }
        Template::Bracket(sign, inside) => {
            pieces.push(Piece::Opening(*sign))?;
            push_pieces(inside.get(), pieces)?;
            pieces.push(Piece::Closing(sign.closing()))
        }
    }
}

/// Adds the pieces of the elements of a sequence.
#[cycle(pieces)]
fn push_all<'a>(parts: &'a [Template], pieces: &mut Row<Piece<'a>>) -> Result<(), NoMemory>
    ensures { OnOk result (map piece_now pieces.new
        ≡ map piece_now pieces.old ++ flat_map (λ part. part) (map pieces_of parts.now)) }
{
    for part in parts {
        push_pieces(part, pieces)?;
    }
    Ok(())
}

/// Whether a side or an inside begins behind this piece, or behind none.
fn begins(before: Option<Piece<'_>>) -> bool
    ensures { result ≡ begins (option_map piece_now before.entry) }
{
    matches!(before, None | Some(Piece::Divider(_) | Piece::Opening(_)))
}

/// Whether a side or an inside ends before this piece, or before none.
fn ends(behind: Option<Piece<'_>>) -> bool
    ensures { result ≡ ends (option_map piece_now behind.entry) }
{
    matches!(behind, None | Some(Piece::Divider(_) | Piece::Closing(_)))
}

/// Whether the piece is an atom.
fn is_atom(piece: Option<Piece<'_>>) -> bool
    ensures { result ≡ is_atom (option_map piece_now piece.entry) }
{
    matches!(piece, Some(Piece::Atom(_)))
}

/// Where a hole stands between these pieces.
pub(crate) fn hole_place(before: Option<Piece<'_>>, behind: Option<Piece<'_>>) -> HolePlace
    ensures { result ≡ hole_place (option_map piece_now before.entry) (option_map piece_now behind.entry) }
{
    if ends(behind) {
        return if begins(before) {
            HolePlace::Whole
        } else {
            HolePlace::Last
        };
    }
    if is_atom(behind) {
        HolePlace::Last
    } else {
        HolePlace::Among
    }
}

/// How a piece is written that is no hole.
pub(crate) fn piece_text<'a>(piece: Piece<'a>) -> &'a [u8]
    ensures { result.now ≡ piece_text (piece_now piece.entry) }
{
    match piece {
        Piece::Hole => b"",
        Piece::Atom(name) => name.as_slice(),
        Piece::Divider(sign) | Piece::Opening(sign) | Piece::Closing(sign) => {
            sign.spelling().as_bytes()
        }
    }
}
