//! What an action makes of the types and notations on the stack.

ghost use Rattle.std.specs.Prelude.{◌≡◌, [], ◌∷◌, ◌++◌, reverse, IfOk};
ghost use Rattle.std.specs.Option.{option_map};
ghost use Rattle.st_grammar.specs.declared.action.Action.TheVariants as action;
ghost use Rattle.st_parse_builder.specs.declared.notation_piece.NotationPiece.TheVariants as piece;
ghost use Rattle.st_parse_builder.specs.inner.NotationBuilding.{operand_piece};
ghost use Rattle.st_parse_builder.specs.inner.Parts.{read_tree};
ghost use Rattle.st_parse_builder.specs.inner.NotationEntries as spec;
ghost use Rattle.st_parse_builder.specs.inner.NotationEntries.{Forms};

use crate::NotationPiece;
use crate::built::{Built, both, raise, untold};
use crate::list::more;
use crate::notation_form::{
    absent, atom_of, enclosed, marked, notation_joined, notation_on, typ_in_parens, typ_of,
};
use crate::notation_pieces::{
    NotationEntry, NotationStack, as_notation, as_type, take, take_elements, take_notation,
    take_place, take_type, take_types, take_whole,
};
use st_el::{NotNode, Notation, Typ};
use st_grammar::{Bracket, Leaf};
use st_num::{Mark, NoMemory, Row, Span, Token};
use std::alloc::Global;

/// A finished notation of this height, where it is not too high.
fn whole(notation: Option<Notation>, height: u8, from: usize) -> NotationEntry
    ensures { result
        ≡ record { tree = option_map piece.Whole notation; height = height; from = from } }
{
    let tree = match notation {
        None => None,
        Some(notation) => Some(NotationPiece::Whole(notation)),
    };
    Built { tree, height, from }
}

/// The piece of one token.
pub(crate) fn leaf_piece(
    alloc: Global,
    leaf: Leaf,
    token: &Token,
) -> Result<NotationPiece, NoMemory>
    ensures { IfOk result (λ made. made ≡ operand_piece leaf token.now) }
{
    match leaf {
        Leaf::Low | Leaf::Basic => Ok(NotationPiece::Hole(token.at, typ_of(alloc, token)?)),
        Leaf::Variable | Leaf::Atom | Leaf::Number | Leaf::Literal | Leaf::Function => {
            Ok(NotationPiece::Whole(atom_of(alloc, token)?))
        }
    }
}

/// Puts a name behind a dot to the atom on top.
pub(crate) fn notation_dot(
    stack: &mut NotationStack,
    token: &Token,
) -> Result<Option<NotationEntry>, NoMemory>
    ensures { IfOk result (λ made. Forms (action.Dot token.now) stack.old stack.new made) }
{
    let Some(top) = take_whole(stack) else {
        return Ok(None);
    };
    let Built { tree, height, from } = top;
    let notation = match tree {
        None => None,
        Some(notation) => Some(notation_on(notation, token)?),
    };
    Ok(Some(whole(notation, height, from)))
}

/// Puts an iteration sign behind the type on top.
pub(crate) fn typ_mark(
    alloc: Global,
    stack: &mut NotationStack,
    mark: Mark,
) -> Result<Option<NotationEntry>, NoMemory>
    ensures { IfOk result (λ made. Forms (action.Mark mark) stack.old stack.new made) }
{
    let Some(top) = take_type(stack) else {
        return Ok(None);
    };
    let Built { tree, height, from } = raise(top);
    let tree = match tree {
        None => None,
        Some((at, typ)) => Some(NotationPiece::Hole(at, marked(alloc, at, mark, typ)?)),
    };
    Ok(Some(Built { tree, height, from }))
}

/// Puts a sign before the part on top.
pub(crate) fn notation_prefix(
    alloc: Global,
    stack: &mut NotationStack,
    mark: Mark,
) -> Result<Option<NotationEntry>, NoMemory>
    ensures { IfOk result (λ made. Forms (action.Prefix mark) stack.old stack.new made) }
{
    let Some(top) = take_notation(stack) else {
        return Ok(None);
    };
    let Some(at) = take_place(stack) else {
        return Ok(None);
    };
    let Built { tree, height, from } = raise(top);
    let notation = match tree {
        None => None,
        Some(right) => Some(notation_joined(alloc, absent(alloc, at), mark, right)?),
    };
    Ok(Some(whole(notation, height, from)))
}

/// Puts a bracket round the part on top.
pub(crate) fn notation_enclose(
    alloc: Global,
    stack: &mut NotationStack,
    bracket: Bracket,
) -> Result<Option<NotationEntry>, NoMemory>
    ensures { IfOk result (λ made. Forms (action.Enclose bracket) stack.old stack.new made) }
{
    let Some(top) = take_notation(stack) else {
        return Ok(None);
    };
    let Some(at) = take_place(stack) else {
        return Ok(None);
    };
    let Built { tree, height, from } = raise(top);
    let notation = match tree {
        None => None,
        Some(notation) => Some(enclosed(alloc, bracket, at, notation)?),
    };
    Ok(Some(whole(notation, height, from)))
}

/// Joins the two parts on top.
pub(crate) fn notation_join(
    alloc: Global,
    stack: &mut NotationStack,
    mark: Mark,
) -> Result<Option<NotationEntry>, NoMemory>
    ensures { IfOk result (λ made. Forms (action.Join mark) stack.old stack.new made) }
{
    let Some(right) = take_notation(stack) else {
        return Ok(None);
    };
    let Some(left) = take_notation(stack) else {
        return Ok(None);
    };
    let Built { tree, height, from } = raise(both(left, right));
    let notation = match tree {
        None => None,
        Some((left, right)) => Some(notation_joined(alloc, left, mark, right)?),
    };
    Ok(Some(whole(notation, height, from)))
}

/// Begins a sequence with the part on top.
pub(crate) fn first_element(
    alloc: Global,
    stack: &mut NotationStack,
) -> Result<Option<NotationEntry>, NoMemory>
    ensures { IfOk result (λ made. Forms action.First stack.old stack.new made) }
{
    let Some(top) = take_notation(stack) else {
        return Ok(None);
    };
    let Built { tree, height, from } = top;
    let tree = match tree {
        None => None,
        Some(notation) => Some(NotationPiece::Elements(
            notation.at,
            more(Row::new(alloc), notation)?,
        )),
    };
    Ok(Some(Built { tree, height, from }))
}

/// Puts a type behind those before it.
fn more_types(
    at: Span,
    before: Built<Row<Typ>>,
    top: Built<(Span, Typ)>,
) -> Result<NotationEntry, NoMemory>
    ensures { IfOk result (λ made. made ≡ spec.more_types at before top) }
{
    let Built { tree, height, from } = both(before, top);
    let tree = match tree {
        None => None,
        Some((types, (_, typ))) => Some(NotationPiece::Types(at, more(types, typ)?)),
    };
    Ok(Built { tree, height, from })
}

/// Puts an element behind those before it.
fn more_elements(
    at: Span,
    before: Built<Row<Notation>>,
    top: Built<Notation>,
) -> Result<NotationEntry, NoMemory>
    ensures { IfOk result (λ made. made ≡ spec.more_elements at before top) }
{
    let Built { tree, height, from } = both(before, top);
    let tree = match tree {
        None => None,
        Some((elements, notation)) => {
            Some(NotationPiece::Elements(at, more(elements, notation)?))
        }
    };
    Ok(Built { tree, height, from })
}

/// A type behind these.
fn type_behind(
    at: Span,
    before: Built<Row<Typ>>,
    top: NotationEntry,
) -> Result<Option<NotationEntry>, NoMemory>
    ensures { IfOk result (λ made. made ≡ option_map (spec.more_types at before)
        (read_tree spec.type_in top.tree top.height top.from)) }
{
    let Some(top) = as_type(top) else {
        return Ok(None);
    };
    let made = more_types(at, before, top)?;
    Ok(Some(made))
}

/// An element behind these.
fn element_behind(
    at: Span,
    before: Built<Row<Notation>>,
    top: NotationEntry,
) -> Result<Option<NotationEntry>, NoMemory>
    ensures { IfOk result (λ made. made ≡ option_map (spec.more_elements at before)
        (spec.as_notation top.tree top.height top.from)) }
{
    let Some(top) = as_notation(top) else {
        return Ok(None);
    };
    let made = more_elements(at, before, top)?;
    Ok(Some(made))
}

/// A part behind the types or elements before it, which may be too high.
fn part_behind(before: NotationEntry, top: NotationEntry) -> Result<Option<NotationEntry>, NoMemory>
    ensures { IfOk result (λ made. made ≡ spec.part_behind before.tree before top) }
{
    let Built { tree, height, from } = before;
    match tree {
        None => Ok(Some(untold(0))),
        Some(NotationPiece::Types(at, types)) => {
            let tree = Some(types);
            type_behind(at, Built { tree, height, from }, top)
        }
        Some(NotationPiece::Elements(at, elements)) => {
            let tree = Some(elements);
            element_behind(at, Built { tree, height, from }, top)
        }
        Some(NotationPiece::Hole(_, _) | NotationPiece::Whole(_) | NotationPiece::From(_)) => Ok(
            None,
        ),
    }
}

/// Puts the part on top behind those before it.
pub(crate) fn next_part(stack: &mut NotationStack) -> Result<Option<NotationEntry>, NoMemory>
    ensures { IfOk result (λ made. Forms action.Part stack.old stack.new made) }
{
    let Some(top) = take(stack) else {
        return Ok(None);
    };
    let Some(before) = take(stack) else {
        return Ok(None);
    };
    part_behind(before, top)
}

/// Whether there is one type.
fn is_one(types: &Option<(Span, Row<Typ>)>) -> bool
    ensures { result ≡ spec.is_one types.now }
{
    match types {
        None => false,
        Some((_, types)) => types.len() == 1,
    }
}

/// Types in parentheses: one alone is as high as it is without them.
fn enclosed_types(types: Built<(Span, Row<Typ>)>) -> Built<(Span, Row<Typ>)>
    ensures { result ≡ spec.enclosed_types types }
{
    if is_one(&types.tree) {
        types
    } else {
        raise(types)
    }
}

/// Ends types in parentheses.
pub(crate) fn end_types(stack: &mut NotationStack) -> Result<Option<NotationEntry>, NoMemory>
    ensures { IfOk result (λ made. Forms action.EndParens stack.old stack.new made) }
{
    let Some(top) = take_types(stack) else {
        return Ok(None);
    };
    let Built { tree, height, from } = enclosed_types(top);
    let tree = match tree {
        None => None,
        Some((at, types)) => Some(NotationPiece::Hole(at, typ_in_parens(at, types))),
    };
    Ok(Some(Built { tree, height, from }))
}

/// Ends a sequence.
pub(crate) fn end_elements(stack: &mut NotationStack) -> Result<Option<NotationEntry>, NoMemory>
    ensures { IfOk result (λ made. Forms action.EndSequence stack.old stack.new made) }
{
    let Some(top) = take_elements(stack) else {
        return Ok(None);
    };
    let Built { tree, height, from } = raise(top);
    let notation = match tree {
        None => None,
        Some((at, elements)) => Some(Notation {
            at,
            node: NotNode::Seq(elements),
        }),
    };
    Ok(Some(whole(notation, height, from)))
}
