//! Positions and paths.

ghost use Rattle.std.specs.Prelude.{◌≡◌, IfOk};
ghost use Rattle.st_grammar.specs.declared.action.Action.TheVariants as action;
ghost use Rattle.st_parse_builder.specs.declared.piece.Piece.TheVariants as piece;
ghost use Rattle.st_parse_builder.specs.Meaning as meaning;
ghost use Rattle.st_parse_builder.specs.inner.Parts.{over, raised};
ghost use Rattle.st_parse_builder.specs.inner.Entries.{Forms};

use crate::Piece;
use crate::built::{Built, both, raise};
use crate::form::{changed, element, sliced};
use crate::leaf::copy_name;
use crate::list::more;
use crate::make::done;
use crate::pieces::{Entry, Stack, pop_done, pop_pair, pop_path, pop_whole};
use st_el::{Exp, Seg};
use st_num::{Mark, NoMemory, Row, Token};
use std::alloc::Global;

/// Makes a field a step of the path on top.
pub(crate) fn step_field(
    alloc: Global,
    stack: &mut Stack,
    token: &Token,
) -> Result<Option<Entry>, NoMemory>
    ensures { IfOk result (λ made. Forms (action.StepField token.now) stack.old stack.new made) }
{
    let Some(before) = pop_path(stack) else {
        return Ok(None);
    };
    let Built { tree, height, from } = before;
    let name = copy_name(alloc, &token.kind)?;
    let tree = match tree {
        None => None,
        Some(path) => Some(Piece::Path(more(path, Seg::Field(name))?)),
    };
    Ok(Some(Built { tree, height, from }))
}

/// Makes the part on top a step of the path below.
pub(crate) fn step_at(stack: &mut Stack) -> Result<Option<Entry>, NoMemory>
    ensures { IfOk result (λ made. Forms action.StepAt stack.old stack.new made) }
{
    let Some(top) = pop_done(stack) else {
        return Ok(None);
    };
    let Some(before) = pop_path(stack) else {
        return Ok(None);
    };
    let Built { tree, height, from } = both(before, top);
    let tree = match tree {
        None => None,
        Some((path, exp)) => Some(Piece::Path(more(path, Seg::At(exp))?)),
    };
    Ok(Some(Built { tree, height, from }))
}

/// Makes the two parts on top a step of the path below.
pub(crate) fn step_slice(stack: &mut Stack) -> Result<Option<Entry>, NoMemory>
    ensures { IfOk result (λ made. Forms action.StepSlice stack.old stack.new made) }
{
    let Some(range) = pop_pair(stack) else {
        return Ok(None);
    };
    let Some(before) = pop_path(stack) else {
        return Ok(None);
    };
    let Built { tree, height, from } = both(before, range);
    let tree = match tree {
        None => None,
        Some((path, (start, count))) => Some(Piece::Path(more(path, Seg::Slice(start, count))?)),
    };
    Ok(Some(Built { tree, height, from }))
}

/// Makes the part on top a position in the one below.
pub(crate) fn position(alloc: Global, stack: &mut Stack) -> Result<Option<Entry>, NoMemory>
    ensures { IfOk result (λ made. Forms action.At stack.old stack.new made) }
{
    let Some(top) = pop_done(stack) else {
        return Ok(None);
    };
    let Some(whole) = pop_whole(stack) else {
        return Ok(None);
    };
    let Built { tree, height, from } = raise(both(whole, top));
    let exp = match tree {
        None => None,
        Some((whole, at)) => Some(element(alloc, whole, at)?),
    };
    Ok(Some(done(exp, height, from)))
}

/// Makes the two parts on top a position and how many elements.
pub(crate) fn slice(alloc: Global, stack: &mut Stack) -> Result<Option<Entry>, NoMemory>
    ensures { IfOk result (λ made. Forms action.Slice stack.old stack.new made) }
{
    let Some(range) = pop_pair(stack) else {
        return Ok(None);
    };
    let Some(whole) = pop_whole(stack) else {
        return Ok(None);
    };
    let Built { tree, height, from } = raise(both(whole, range));
    let exp = match tree {
        None => None,
        Some((whole, (start, count))) => Some(sliced(alloc, whole, start, count)?),
    };
    Ok(Some(done(exp, height, from)))
}

/// A part with a new value at a path.
fn change_part(
    alloc: Global,
    mark: Mark,
    parts: Built<(Exp, (Row<Seg>, Exp))>,
) -> Result<Entry, NoMemory>
    ensures { IfOk result (λ made. made
        ≡ over (λ x. piece.Done (meaning.changed mark x.0 x.1.0 x.1.1)) (raised parts)) }
{
    let Built { tree, height, from } = raise(parts);
    let exp = match tree {
        None => None,
        Some((whole, (path, value))) => Some(changed(alloc, mark, whole, path, value)?),
    };
    Ok(done(exp, height, from))
}

/// Makes the part on top new at the path below.
pub(crate) fn change(
    alloc: Global,
    stack: &mut Stack,
    mark: Mark,
) -> Result<Option<Entry>, NoMemory>
    ensures { IfOk result (λ made. Forms (action.Change mark) stack.old stack.new made) }
{
    let Some(value) = pop_done(stack) else {
        return Ok(None);
    };
    let Some(path) = pop_path(stack) else {
        return Ok(None);
    };
    let Some(whole) = pop_done(stack) else {
        return Ok(None);
    };
    let part = change_part(alloc, mark, both(whole, both(path, value)))?;
    Ok(Some(part))
}
