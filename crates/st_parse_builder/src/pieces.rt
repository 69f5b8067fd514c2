//! The stack of parts, the last on top. Contracts see the top first.

ghost use Rattle.std.specs.Prelude.{◌≡◌, [], ◌∷◌, reverse, MatchOption};
ghost use Rattle.st_parse_builder.specs.inner.Parts.{Takes};
ghost use Rattle.st_parse_builder.specs.inner.Entries.{top_done, top_parts, top_fields, top_path, top_label, top_place, top_pair, top_whole, starts};

use crate::Piece;
use crate::built::{Built, both};
use st_el::{Exp, Seg};
use st_num::{Name, Row, Span};

/// A part with a piece of an expression.
pub(crate) type Entry = Built<Piece>;

/// The parts that are built so far.
pub(crate) type Stack = Row<Built<Piece>>;

/// Takes the part on top off.
fn pop(stack: &mut Stack) -> Option<Entry>
    ensures { MatchOption result
        (reverse stack.old ≡ [])
        (λ part. reverse stack.old ≡ part ∷ reverse stack.new) }
{
    stack.pop()
}

/// Takes the finished expression on top off.
pub(crate) fn pop_done(stack: &mut Stack) -> Option<Built<Exp>>
    ensures { Takes (top_done (reverse stack.old)) (reverse stack.new) result }
{
    let Some(Built { tree, height, from }) = pop(stack) else {
        return None;
    };
    let tree = match tree {
        None => None,
        Some(Piece::Done(exp)) => Some(exp),
        Some(
            Piece::Parts(_, _)
            | Piece::Fields(_, _)
            | Piece::Path(_)
            | Piece::Label(_)
            | Piece::Here(_),
        ) => return None,
    };
    Some(Built { tree, height, from })
}

/// Takes the parts on top off, with the place where they begin.
pub(crate) fn pop_parts(stack: &mut Stack) -> Option<Built<(Span, Row<Exp>)>>
    ensures { Takes (top_parts (reverse stack.old)) (reverse stack.new) result }
{
    let Some(Built { tree, height, from }) = pop(stack) else {
        return None;
    };
    let tree = match tree {
        None => None,
        Some(Piece::Parts(at, parts)) => Some((at, parts)),
        Some(
            Piece::Done(_)
            | Piece::Fields(_, _)
            | Piece::Path(_)
            | Piece::Label(_)
            | Piece::Here(_),
        ) => return None,
    };
    Some(Built { tree, height, from })
}

/// Takes the fields on top off, with the place where they begin.
pub(crate) fn pop_fields(stack: &mut Stack) -> Option<Built<(Span, Row<(Name, Exp)>)>>
    ensures { Takes (top_fields (reverse stack.old)) (reverse stack.new) result }
{
    let Some(Built { tree, height, from }) = pop(stack) else {
        return None;
    };
    let tree = match tree {
        None => None,
        Some(Piece::Fields(at, fields)) => Some((at, fields)),
        Some(
            Piece::Done(_) | Piece::Parts(_, _) | Piece::Path(_) | Piece::Label(_) | Piece::Here(_),
        ) => return None,
    };
    Some(Built { tree, height, from })
}

/// Takes the path on top off.
pub(crate) fn pop_path(stack: &mut Stack) -> Option<Built<Row<Seg>>>
    ensures { Takes (top_path (reverse stack.old)) (reverse stack.new) result }
{
    let Some(Built { tree, height, from }) = pop(stack) else {
        return None;
    };
    let tree = match tree {
        None => None,
        Some(Piece::Path(path)) => Some(path),
        Some(
            Piece::Done(_)
            | Piece::Parts(_, _)
            | Piece::Fields(_, _)
            | Piece::Label(_)
            | Piece::Here(_),
        ) => return None,
    };
    Some(Built { tree, height, from })
}

/// Takes the two finished expressions on top off.
pub(crate) fn pop_pair(stack: &mut Stack) -> Option<Built<(Exp, Exp)>>
    ensures { Takes (top_pair (reverse stack.old)) (reverse stack.new) result }
{
    let Some(right) = pop_done(stack) else {
        return None;
    };
    let Some(left) = pop_done(stack) else {
        return None;
    };
    Some(both(left, right))
}

/// Whether this is a path without a step.
fn starts(path: &Option<Row<Seg>>) -> bool
    ensures { result ≡ starts path.now }
{
    match path {
        None => false,
        Some(path) => path.is_empty(),
    }
}

/// Takes a path without a step and the part before it off.
pub(crate) fn pop_whole(stack: &mut Stack) -> Option<Built<Exp>>
    ensures { Takes (top_whole (reverse stack.old)) (reverse stack.new) result }
{
    let Some(path) = pop_path(stack) else {
        return None;
    };
    if !starts(&path.tree) {
        return None;
    }
    pop_done(stack)
}

/// Takes the name on top off.
pub(crate) fn pop_label(stack: &mut Stack) -> Option<Name>
    ensures { Takes (top_label (reverse stack.old)) (reverse stack.new) result }
{
    let Some(
        Built {
            tree: Some(piece),
            ..
        },
    ) = pop(stack)
    else {
        return None;
    };
    match piece {
        Piece::Label(name) => Some(name),
        Piece::Done(_)
        | Piece::Parts(_, _)
        | Piece::Fields(_, _)
        | Piece::Path(_)
        | Piece::Here(_) => None,
    }
}

/// Takes the place on top off.
pub(crate) fn pop_place(stack: &mut Stack) -> Option<Span>
    ensures { Takes (top_place (reverse stack.old)) (reverse stack.new) result }
{
    let Some(
        Built {
            tree: Some(piece),
            ..
        },
    ) = pop(stack)
    else {
        return None;
    };
    match piece {
        Piece::Here(at) => Some(at),
        Piece::Done(_)
        | Piece::Parts(_, _)
        | Piece::Fields(_, _)
        | Piece::Path(_)
        | Piece::Label(_) => None,
    }
}
