//! The stack of parts of types and notations, the last on top. Contracts see the top first.

ghost use Rattle.std.specs.Prelude.{◌≡◌, [], ◌∷◌, reverse, MatchOption};
ghost use Rattle.st_parse_builder.specs.inner.Parts.{Takes, read_tree, over, raised};
ghost use Rattle.st_parse_builder.specs.Notations as notations;
ghost use Rattle.st_parse_builder.specs.inner.NotationEntries.{type_in, as_notation, top_notation, top_type, top_whole, top_types, top_elements, top_place};

use crate::NotationPiece;
use crate::built::{Built, raise};
use crate::notation_form::hole;
use st_el::{Notation, Typ};
use st_num::{Row, Span};

/// A part with a piece of a type or a notation.
pub(crate) type NotationEntry = Built<NotationPiece>;

/// The parts that are built so far.
pub(crate) type NotationStack = Row<Built<NotationPiece>>;

/// Takes the part on top off.
pub(crate) fn take(stack: &mut NotationStack) -> Option<NotationEntry>
    ensures { MatchOption result
        (reverse stack.old ≡ [])
        (λ part. reverse stack.old ≡ part ∷ reverse stack.new) }
{
    stack.pop()
}

/// A part as a type with the place where it begins, where it may be one.
pub(crate) fn as_type(part: NotationEntry) -> Option<Built<(Span, Typ)>>
    ensures { result ≡ read_tree type_in part.tree part.height part.from }
{
    let Built { tree, height, from } = part;
    let tree = match tree {
        None => None,
        Some(NotationPiece::Hole(at, typ)) => Some((at, typ)),
        Some(
            NotationPiece::Whole(_)
            | NotationPiece::Types(_, _)
            | NotationPiece::Elements(_, _)
            | NotationPiece::From(_),
        ) => return None,
    };
    Some(Built { tree, height, from })
}

/// A type as a notation.
fn hole_part(part: Built<(Span, Typ)>) -> Built<Notation>
    ensures { result ≡ over (λ x. notations.hole x.0 x.1) (raised part) }
{
    let Built { tree, height, from } = raise(part);
    let tree = match tree {
        None => None,
        Some((at, typ)) => Some(hole(at, typ)),
    };
    Built { tree, height, from }
}

/// A part as a notation, where it may be one: a type is one higher as one.
pub(crate) fn as_notation(part: NotationEntry) -> Option<Built<Notation>>
    ensures { result ≡ as_notation part.tree part.height part.from }
{
    let Built { tree, height, from } = part;
    match tree {
        None => Some(Built {
            tree: None,
            height,
            from,
        }),
        Some(NotationPiece::Hole(at, typ)) => {
            let tree = Some((at, typ));
            Some(hole_part(Built { tree, height, from }))
        }
        Some(NotationPiece::Whole(notation)) => {
            let tree = Some(notation);
            Some(Built { tree, height, from })
        }
        Some(NotationPiece::Types(_, _) | NotationPiece::Elements(_, _) | NotationPiece::From(_)) =>
            None,
    }
}

/// Takes the part on top off, as a notation.
pub(crate) fn take_notation(stack: &mut NotationStack) -> Option<Built<Notation>>
    ensures { Takes (top_notation (reverse stack.old)) (reverse stack.new) result }
{
    let Some(part) = take(stack) else {
        return None;
    };
    as_notation(part)
}

/// Takes the type on top off, with the place where it begins.
pub(crate) fn take_type(stack: &mut NotationStack) -> Option<Built<(Span, Typ)>>
    ensures { Takes (top_type (reverse stack.old)) (reverse stack.new) result }
{
    let Some(part) = take(stack) else {
        return None;
    };
    as_type(part)
}

/// Takes the notation on top off, which is no type alone.
pub(crate) fn take_whole(stack: &mut NotationStack) -> Option<Built<Notation>>
    ensures { Takes (top_whole (reverse stack.old)) (reverse stack.new) result }
{
    let Some(Built { tree, height, from }) = take(stack) else {
        return None;
    };
    let tree = match tree {
        None => None,
        Some(NotationPiece::Whole(notation)) => Some(notation),
        Some(
            NotationPiece::Hole(_, _)
            | NotationPiece::Types(_, _)
            | NotationPiece::Elements(_, _)
            | NotationPiece::From(_),
        ) => return None,
    };
    Some(Built { tree, height, from })
}

/// Takes the types on top off, with the place where they begin.
pub(crate) fn take_types(stack: &mut NotationStack) -> Option<Built<(Span, Row<Typ>)>>
    ensures { Takes (top_types (reverse stack.old)) (reverse stack.new) result }
{
    let Some(Built { tree, height, from }) = take(stack) else {
        return None;
    };
    let tree = match tree {
        None => None,
        Some(NotationPiece::Types(at, types)) => Some((at, types)),
        Some(
            NotationPiece::Hole(_, _)
            | NotationPiece::Whole(_)
            | NotationPiece::Elements(_, _)
            | NotationPiece::From(_),
        ) => return None,
    };
    Some(Built { tree, height, from })
}

/// Takes the elements on top off, with the place where they begin.
pub(crate) fn take_elements(stack: &mut NotationStack) -> Option<Built<(Span, Row<Notation>)>>
    ensures { Takes (top_elements (reverse stack.old)) (reverse stack.new) result }
{
    let Some(Built { tree, height, from }) = take(stack) else {
        return None;
    };
    let tree = match tree {
        None => None,
        Some(NotationPiece::Elements(at, elements)) => Some((at, elements)),
        Some(
            NotationPiece::Hole(_, _)
            | NotationPiece::Whole(_)
            | NotationPiece::Types(_, _)
            | NotationPiece::From(_),
        ) => return None,
    };
    Some(Built { tree, height, from })
}

/// Takes the place on top off.
pub(crate) fn take_place(stack: &mut NotationStack) -> Option<Span>
    ensures { Takes (top_place (reverse stack.old)) (reverse stack.new) result }
{
    let Some(
        Built {
            tree: Some(piece),
            ..
        },
    ) = take(stack)
    else {
        return None;
    };
    match piece {
        NotationPiece::From(at) => Some(at),
        NotationPiece::Hole(_, _)
        | NotationPiece::Whole(_)
        | NotationPiece::Types(_, _)
        | NotationPiece::Elements(_, _) => None,
    }
}
