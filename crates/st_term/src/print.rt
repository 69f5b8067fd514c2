//! How values are printed.

ghost use Rattle.std.specs.Prelude.{◌≡◌, ◌++◌, [], false, None, map, codes, if◌then◌else◌, OnOk, OnErr, IfOk};
ghost use Rattle.std.specs.Option.{option_map};
ghost use Rattle.st_term.specs.TermText.{truth, number_text, wrapped, is_element, shown, element_text, piece_text, hole_texts, list_text, listed, field_text, pieces_texts, case_shown, separated, term_text};
ghost use Rattle.st_term.specs.inner.Pieces.{piece_now, shown_field, collection_text, gap, continued, FollowsOn, Goes};
ghost use Rattle.st_term.specs.declared.piece.HolePlace.TheVariants.{Last};

use crate::piece::{HolePlace, Piece, hole_place, piece_text, push_pieces};
use crate::place::{Place, is_element, needs_parens};
use st_il::{Template, Value, template_of};
use st_num::{Name, NoMemory, Num, Row, print_number};
use st_text::print_quoted;
use std::alloc::Global;

/// How far the pieces of a notation are printed.
#[derive(Clone, Copy)]
struct Progress {
    /// The number of operands that stand in holes.
    used: usize,
    /// Whether a text stands before what follows.
    behind: bool,
}

/// How a truth value is written.
fn truth(value: bool) -> &'static [u8]
    ensures { result.now ≡ truth value }
{
    if value { b"true" } else { b"false" }
}

/// Appends a text as it is.
fn print_word(word: &[u8], out: &mut Vec<u8>) -> Result<(), NoMemory>
    ensures { OnOk result (out.new.items ≡ out.old.items ++ word.now) }
{
    out.extend_from_slice(word)?;
    Ok(())
}

/// Appends a text where it is wanted.
fn print_if(wanted: bool, word: &[u8], out: &mut Vec<u8>) -> Result<(), NoMemory>
    ensures { OnOk result
        (out.new.items ≡ out.old.items ++ (if wanted then word.now else [])) }
{
    if wanted {
        out.extend_from_slice(word)?;
    }
    Ok(())
}

/// Appends a number. A negative one stands in `$( )`.
fn print_integer(number: Num, out: &mut Vec<u8>) -> Result<(), NoMemory>
    ensures { OnOk result (out.new.items ≡ out.old.items ++ number_text number) }
{
    if !number.is_negative() {
        return print_number(number, out);
    }
    print_word(b"$(", out)?;
    print_number(number, out)?;
    print_word(b")", out)
}

/// Prints a value where it stands.
#[cycle(print)]
fn print_at(alloc: Global, value: &Value, place: Place, out: &mut Vec<u8>) -> Result<(), NoMemory>
    ensures { OnOk result (out.new.items ≡ out.old.items ++ (shown value.now).at place) }
{
    match value {
        Value::Bool(is_true) => print_word(truth(*is_true), out),
        Value::Num(number) => print_integer(*number, out),
        Value::Text(text) => {
            print_quoted(text.as_slice(), out)?;
            Ok(())
        }
        Value::Case(tag, operands) => print_case(alloc, tag, operands.as_slice(), place, out),
        Value::Fields(fields) => print_fields(alloc, fields.as_slice(), out),
        Value::Tuple(parts) => print_tuple(alloc, parts.as_slice(), out),
        Value::List(_) => print_collection(alloc, value, place, out),
        Value::Opt(_) => print_collection(alloc, value, place, out),
    }
}

/// Prints a list or an option, in parentheses where it is an element itself.
#[cycle(print)]
fn print_collection(
    alloc: Global,
    value: &Value,
    place: Place,
    out: &mut Vec<u8>,
) -> Result<(), NoMemory>
    ensures { OnOk result (out.new.items
        ≡ out.old.items ++ wrapped (is_element place) (collection_text value.now)) }
{
    let wrapped = is_element(place);
    print_if(wrapped, b"(", out)?;
    print_elements_of(alloc, value, out)?;
    print_if(wrapped, b")", out)
}

/// Prints the elements of a list or an option, or `eps` where there are none. Of another value
/// nothing is printed.
#[cycle(print)]
fn print_elements_of(alloc: Global, value: &Value, out: &mut Vec<u8>) -> Result<(), NoMemory>
    ensures { OnOk result (out.new.items ≡ out.old.items ++ collection_text value.now) }
{
    match value {
        Value::List(parts) => print_list(alloc, parts.as_slice(), out),
        Value::Opt(None) => print_word(b"eps", out),
        Value::Opt(Some(part)) => print_at(alloc, part.get(), Place::Element, out),
        _ => Ok(()),
    }
}

/// Prints a value where it stands, with a space before it where it stands behind another text.
#[cycle(print)]
fn print_next(
    alloc: Global,
    value: &Value,
    place: Place,
    behind: bool,
    out: &mut Vec<u8>,
) -> Result<(), NoMemory>
    ensures { OnOk result (out.new.items
        ≡ out.old.items ++ (gap behind ++ (shown value.now).at place)) }
{
    print_if(behind, b" ", out)?;
    print_at(alloc, value, place, out)
}

/// Prints the elements of a list with spaces between them.
#[cycle(print)]
fn print_elements(
    alloc: Global,
    elements: &[Value],
    behind: bool,
    out: &mut Vec<u8>,
) -> Result<(), NoMemory>
    ensures { OnOk result (out.new.items
        ≡ out.old.items ++ continued behind (map element_text (map shown elements.now))) }
{
    let mut behind = behind;
    for element in elements {
        print_next(alloc, element, Place::Element, behind, out)?;
        behind = true;
    }
    Ok(())
}

/// Prints the elements of a list, or `eps` where there are none.
#[cycle(print)]
fn print_list(alloc: Global, elements: &[Value], out: &mut Vec<u8>) -> Result<(), NoMemory>
    ensures { OnOk result (out.new.items
        ≡ out.old.items ++ list_text (map element_text (map shown elements.now))) }
{
    if elements.is_empty() {
        return print_word(b"eps", out);
    }
    print_elements(alloc, elements, false, out)
}

/// Prints values with commas between them.
#[cycle(print)]
fn print_listed(alloc: Global, values: &[Value], out: &mut Vec<u8>) -> Result<(), NoMemory>
    ensures { OnOk result (out.new.items ≡ out.old.items ++ listed (map shown values.now)) }
{
    let Some((first, others)) = values.split_first() else {
        return Ok(());
    };
    print_at(alloc, first, Place::Alone, out)?;
    for value in others {
        print_word(b", ", out)?;
        print_at(alloc, value, Place::Alone, out)?;
    }
    Ok(())
}

/// Prints a tuple: its parts in parentheses.
#[cycle(print)]
fn print_tuple(alloc: Global, parts: &[Value], out: &mut Vec<u8>) -> Result<(), NoMemory>
    ensures { OnOk result (out.new.items
        ≡ out.old.items ++ (codes "(" ++ listed (map shown parts.now) ++ codes ")")) }
{
    print_word(b"(", out)?;
    print_listed(alloc, parts, out)?;
    print_word(b")", out)
}

/// Prints a field of a record: its name and its value, with this text before them.
#[cycle(print)]
fn print_field(
    alloc: Global,
    name: &Name,
    value: &Value,
    before: &[u8],
    out: &mut Vec<u8>,
) -> Result<(), NoMemory>
    ensures { OnOk result (out.new.items
        ≡ out.old.items ++ (before.now ++ field_text (name.now, shown value.now))) }
{
    print_word(before, out)?;
    print_word(name.as_slice(), out)?;
    print_word(b" ", out)?;
    print_at(alloc, value, Place::Alone, out)
}

/// Prints fields with commas between them.
#[cycle(print)]
fn print_fields_listed(
    alloc: Global,
    fields: &[(Name, Value)],
    out: &mut Vec<u8>,
) -> Result<(), NoMemory>
    ensures { OnOk result (out.new.items ≡ out.old.items
        ++ separated (codes ", ") (map field_text (map shown_field fields.now))) }
{
    let Some((first, others)) = fields.split_first() else {
        return Ok(());
    };
    print_field(alloc, &first.0, &first.1, b"", out)?;
    for field in others {
        print_field(alloc, &field.0, &field.1, b", ", out)?;
    }
    Ok(())
}

/// Prints a record: its fields in braces.
#[cycle(print)]
fn print_fields(alloc: Global, fields: &[(Name, Value)], out: &mut Vec<u8>) -> Result<(), NoMemory>
    ensures { OnOk result (out.new.items ≡ out.old.items ++ (codes "{"
        ++ separated (codes ", ") (map field_text (map shown_field fields.now)) ++ codes "}")) }
{
    print_word(b"{", out)?;
    print_fields_listed(alloc, fields, out)?;
    print_word(b"}", out)
}

/// Prints a value as the elements of a list or an option, or else as one element. Answers whether a
/// text stands before what follows.
#[cycle(print)]
fn print_last(
    alloc: Global,
    value: &Value,
    behind: bool,
    out: &mut Vec<u8>,
) -> Result<bool, NoMemory>
    ensures { IfOk result (λ after. FollowsOn behind after out.old.items out.new.items
        (hole_texts Last (shown value.now))) }
{
    match value {
        Value::List(parts) => {
            print_elements(alloc, parts.as_slice(), behind, out)?;
            Ok(behind || !parts.is_empty())
        }
        Value::Opt(None) => Ok(behind),
        Value::Opt(Some(part)) => {
            print_next(alloc, part.get(), Place::Element, behind, out)?;
            Ok(true)
        }
        other => {
            print_next(alloc, other, Place::Element, behind, out)?;
            Ok(true)
        }
    }
}

/// Prints an operand in its hole. Answers whether a text stands before what follows.
#[cycle(print)]
fn print_operand(
    alloc: Global,
    operand: &Value,
    place: HolePlace,
    behind: bool,
    out: &mut Vec<u8>,
) -> Result<bool, NoMemory>
    ensures { IfOk result (λ after. FollowsOn behind after out.old.items out.new.items
        (hole_texts place (shown operand.now))) }
{
    match place {
        HolePlace::Whole => {
            print_next(alloc, operand, Place::Side, behind, out)?;
            Ok(true)
        }
        HolePlace::Last => print_last(alloc, operand, behind, out),
        HolePlace::Among => {
            print_next(alloc, operand, Place::Element, behind, out)?;
            Ok(true)
        }
    }
}

/// Appends a piece that is no hole.
fn print_piece(piece: Piece<'_>, behind: bool, out: &mut Vec<u8>) -> Result<(), NoMemory>
    ensures { OnOk result (out.new.items
        ≡ out.old.items ++ (gap behind ++ piece_text (piece_now piece.entry))) }
{
    print_if(behind, b" ", out)?;
    print_word(piece_text(piece), out)
}

/// Prints a piece of a notation between these, with its operand where it is a hole that has one.
#[cycle(print)]
fn print_piece_at(
    alloc: Global,
    pieces: (Option<Piece<'_>>, Piece<'_>, Option<Piece<'_>>),
    operands: &[Value],
    progress: Progress,
    out: &mut Vec<u8>,
) -> Result<Progress, NoMemory>
    ensures { IfOk result (λ next. Goes (option_map piece_now pieces.entry.0)
        (piece_now pieces.entry.1) (option_map piece_now pieces.entry.2) (map shown operands.now)
        progress next out.old.items out.new.items) }
{
    let (before, piece, behind) = pieces;
    match piece {
        Piece::Hole => {
            if progress.used >= operands.len() {
                return Ok(progress);
            }
            let place = hole_place(before, behind);
            let operand = &operands[progress.used];
            let after = print_operand(alloc, operand, place, progress.behind, out)?;
            Ok(Progress {
                used: progress.used + 1,
                behind: after,
            })
        }
        word => {
            print_piece(word, progress.behind, out)?;
            Ok(Progress {
                used: progress.used,
                behind: true,
            })
        }
    }
}

/// Prints the pieces of a notation with these operands in its holes.
#[cycle(print)]
fn print_pieces(
    alloc: Global,
    pieces: &[Piece<'_>],
    operands: &[Value],
    out: &mut Vec<u8>,
) -> Result<(), NoMemory>
    ensures { OnOk result (out.new.items ≡ out.old.items
        ++ continued false (pieces_texts None (map piece_now pieces.now) (map shown operands.now))) }
{
    let mut progress = Progress {
        used: 0,
        behind: false,
    };
    let mut before = None;
    for i in 0..pieces.len() {
        let piece = pieces[i];
        let behind = pieces.get(i + 1).copied();
        progress = print_piece_at(alloc, (before, piece, behind), operands, progress, out)?;
        before = Some(piece);
    }
    Ok(())
}

/// Prints a case where it stands.
#[cycle(print)]
fn print_case(
    alloc: Global,
    tag: &Name,
    operands: &[Value],
    place: Place,
    out: &mut Vec<u8>,
) -> Result<(), NoMemory>
    ensures { OnOk result (out.new.items ≡ out.old.items
        ++ (case_shown tag.now (map shown operands.now)).at place) }
{
    let Some(template) = template_of(alloc, tag)? else {
        return Ok(());
    };
    let mut pieces = Row::new(alloc);
    push_pieces(&template, &mut pieces)?;
    let wrapped = needs_parens(&template, place);
    print_if(wrapped, b"(", out)?;
    print_pieces(alloc, pieces.as_slice(), operands, out)?;
    print_if(wrapped, b")", out)
}

/// Appends the text of a term: its values with commas between them. Where memory is wanting nothing
/// is appended.
pub fn print_term(alloc: Global, values: &[Value], out: &mut Vec<u8>) -> Result<(), NoMemory>
    ensures ok { OnOk result (out.new.items ≡ out.old.items ++ term_text values.now) }
    ensures err { OnErr result (out.new.items ≡ out.old.items) }
{
    let mut text = Vec::new(alloc);
    print_listed(alloc, values, &mut text)?;
    out.extend_from_slice(text.as_slice())?;
    Ok(())
}
