//! What an action makes of the parts on the stack.

ghost use Rattle.std.specs.Prelude.{◌≡◌, ◌++◌, reverse, length, Some, IfOk, OnOk, OnSome};
ghost use Rattle.std.specs.Option.{option_map};
ghost use Rattle.st_grammar.specs.declared.action.Action.TheVariants as action;
ghost use Rattle.st_parse_builder.specs.declared.piece.Piece.TheVariants as piece;
ghost use Rattle.st_parse_builder.specs.Variables.{occurrences};
ghost use Rattle.st_parse_builder.specs.inner.Parts.{over, raised, both};
ghost use Rattle.st_parse_builder.specs.Meaning as meaning;
ghost use Rattle.st_el.specs.declared.expression.Count.TheVariants as count;
ghost use Rattle.st_parse_builder.specs.inner.Entries as spec;
ghost use Rattle.st_parse_builder.specs.inner.Entries.{Forms};

use crate::Piece;
use crate::built::{Built, both, raise};
use crate::form::{
    below_of, dotted, enclosed, goes_on, iterated, joined, length_of, mark_count, prefixed,
    times_of,
};
use crate::leaf::leaf_node;
use crate::leave::leave_index;
use crate::pieces::{Entry, Stack, pop_done, pop_label, pop_pair, pop_place};
use st_el::Exp;
use st_grammar::{Bracket, Leaf, TokenRef};
use st_num::{Mark, Name, NoMemory, Row, Token};
use std::alloc::Global;

/// A finished expression of this height, where it is not too high.
pub(crate) fn done(exp: Option<Exp>, height: u8, from: usize) -> Entry
    ensures { result ≡ record { tree = option_map piece.Done exp; height = height; from = from } }
{
    let tree = match exp {
        None => None,
        Some(exp) => Some(Piece::Done(exp)),
    };
    Built { tree, height, from }
}

/// Adds the token of an operand to what is seen, where it is a variable.
fn see<'a>(leaf: Leaf, token: &TokenRef<'a>, seen: &mut Row<TokenRef<'a>>) -> Result<(), NoMemory>
    ensures { OnOk result (seen.new ≡ seen.old ++ spec.named leaf token.now) }
{
    match leaf {
        Leaf::Low | Leaf::Basic | Leaf::Variable => seen.push(TokenRef::new(token.get())),
        Leaf::Atom | Leaf::Number | Leaf::Literal | Leaf::Function => Ok(()),
    }
}

/// A part of one token.
pub(crate) fn operand<'a>(
    alloc: Global,
    leaf: Leaf,
    token: &TokenRef<'a>,
    seen: &mut Row<TokenRef<'a>>,
) -> Result<Entry, NoMemory>
    ensures part { IfOk result (λ made. made ≡ spec.operand (length seen.old) leaf token.now) }
    ensures seen { IfOk result (λ _. seen.new ≡ seen.old ++ spec.named leaf token.now) }
{
    let from = seen.len();
    see(leaf, token, seen)?;
    let token = token.get();
    let node = leaf_node(alloc, leaf, &token.kind)?;
    let exp = Exp { at: token.at, node };
    Ok(done(Some(exp), 1, from))
}

/// A part with a dot behind it: an atom stays as high as it is.
fn behind(part: Built<Exp>, token: &Token) -> Built<Exp>
    ensures { result ≡ spec.behind token.now part }
{
    if goes_on(token, &part.tree) {
        part
    } else {
        raise(part)
    }
}

/// Puts a dot with a name behind the part on top.
pub(crate) fn dot(
    alloc: Global,
    stack: &mut Stack,
    token: &Token,
) -> Result<Option<Entry>, NoMemory>
    ensures { IfOk result (λ made. Forms (action.Dot token.now) stack.old stack.new made) }
{
    let Some(top) = pop_done(stack) else {
        return Ok(None);
    };
    let Built { tree, height, from } = behind(top, token);
    let exp = match tree {
        None => None,
        Some(exp) => Some(dotted(alloc, exp, token)?),
    };
    Ok(Some(done(exp, height, from)))
}

/// Puts an iteration sign behind the part on top.
pub(crate) fn mark(alloc: Global, stack: &mut Stack, mark: Mark) -> Result<Option<Entry>, NoMemory>
    ensures { IfOk result (λ made. Forms (action.Mark mark) stack.old stack.new made) }
{
    let Some(top) = pop_done(stack) else {
        return Ok(None);
    };
    let Built { tree, height, from } = raise(top);
    let exp = match tree {
        None => None,
        Some(exp) => Some(iterated(alloc, exp, mark_count(mark))?),
    };
    Ok(Some(done(exp, height, from)))
}

/// Makes the part on top the count of the one below.
pub(crate) fn times(alloc: Global, stack: &mut Stack) -> Result<Option<Entry>, NoMemory>
    ensures { IfOk result (λ made. Forms action.Times stack.old stack.new made) }
{
    let Some(pair) = pop_pair(stack) else {
        return Ok(None);
    };
    let Built { tree, height, from } = raise(pair);
    let exp = match tree {
        None => None,
        Some((body, bound)) => Some(times_of(alloc, body, bound)?),
    };
    Ok(Some(done(exp, height, from)))
}

/// A body with a count below which an index runs.
fn below_part(
    alloc: Global,
    body: Built<Exp>,
    index: Name,
    bound: Built<Exp>,
) -> Result<Entry, NoMemory>
    ensures { IfOk result (λ made. made
        ≡ over (λ x. piece.Done (meaning.iterated x.0 (count.Below index x.1)))
        (raised (both body bound))) }
{
    let Built { tree, height, from } = raise(both(body, bound));
    let exp = match tree {
        None => None,
        Some((body, bound)) => Some(below_of(alloc, body, index, bound)?),
    };
    Ok(done(exp, height, from))
}

/// Makes the part on top the count of the one below, with an index whose name stands between them.
pub(crate) fn below<'a>(
    alloc: Global,
    stack: &mut Stack,
    seen: &mut Row<TokenRef<'a>>,
) -> Result<Option<Entry>, NoMemory>
    ensures part { IfOk result (λ made. Forms action.Below stack.old stack.new made) }
    ensures seen { IfOk result (λ made. OnSome made
        (spec.index_left (reverse stack.old) (occurrences seen.old)
        ≡ Some (occurrences seen.new))) }
{
    let Some(bound) = pop_done(stack) else {
        return Ok(None);
    };
    let Some(index) = pop_label(stack) else {
        return Ok(None);
    };
    let Some(body) = pop_done(stack) else {
        return Ok(None);
    };
    leave_index(alloc, seen, body.from, bound.from, index.as_slice())?;
    let part = below_part(alloc, body, index, bound)?;
    Ok(Some(part))
}

/// Puts a sign before the part on top.
pub(crate) fn prefix(
    alloc: Global,
    stack: &mut Stack,
    mark: Mark,
) -> Result<Option<Entry>, NoMemory>
    ensures { IfOk result (λ made. Forms (action.Prefix mark) stack.old stack.new made) }
{
    let Some(top) = pop_done(stack) else {
        return Ok(None);
    };
    let Some(at) = pop_place(stack) else {
        return Ok(None);
    };
    let Built { tree, height, from } = raise(top);
    let exp = match tree {
        None => None,
        Some(exp) => Some(prefixed(alloc, mark, at, exp)?),
    };
    Ok(Some(done(exp, height, from)))
}

/// Puts a bracket round the part on top.
pub(crate) fn enclose(
    alloc: Global,
    stack: &mut Stack,
    bracket: Bracket,
) -> Result<Option<Entry>, NoMemory>
    ensures { IfOk result (λ made. Forms (action.Enclose bracket) stack.old stack.new made) }
{
    let Some(top) = pop_done(stack) else {
        return Ok(None);
    };
    let Some(at) = pop_place(stack) else {
        return Ok(None);
    };
    let Built { tree, height, from } = raise(top);
    let exp = match tree {
        None => None,
        Some(exp) => Some(enclosed(alloc, bracket, at, exp)?),
    };
    Ok(Some(done(exp, height, from)))
}

/// Puts the bars of a length round the part on top.
pub(crate) fn length(alloc: Global, stack: &mut Stack) -> Result<Option<Entry>, NoMemory>
    ensures { IfOk result (λ made. Forms action.Length stack.old stack.new made) }
{
    let Some(top) = pop_done(stack) else {
        return Ok(None);
    };
    let Some(at) = pop_place(stack) else {
        return Ok(None);
    };
    let Built { tree, height, from } = raise(top);
    let exp = match tree {
        None => None,
        Some(exp) => Some(length_of(alloc, at, exp)?),
    };
    Ok(Some(done(exp, height, from)))
}

/// Joins the two parts on top.
pub(crate) fn join(alloc: Global, stack: &mut Stack, mark: Mark) -> Result<Option<Entry>, NoMemory>
    ensures { IfOk result (λ made. Forms (action.Join mark) stack.old stack.new made) }
{
    let Some(pair) = pop_pair(stack) else {
        return Ok(None);
    };
    let Built { tree, height, from } = raise(pair);
    let exp = match tree {
        None => None,
        Some((left, right)) => Some(joined(alloc, left, mark, right)?),
    };
    Ok(Some(done(exp, height, from)))
}
