//! Lists of parts, records and calls.

ghost use Rattle.std.specs.Prelude.{◌≡◌, ◌∷◌, [], ◌++◌, IfOk};
ghost use Rattle.st_grammar.specs.declared.action.Action.TheVariants as action;
ghost use Rattle.st_parse_builder.specs.inner.Entries as spec;
ghost use Rattle.st_parse_builder.specs.inner.Entries.{Forms};

use crate::Piece;
use crate::built::{Built, both, raise};
use crate::form::{call_name, in_parens};
use crate::make::done;
use crate::pieces::{Entry, Stack, pop_done, pop_fields, pop_label, pop_parts};
use st_el::{Exp, Node};
use st_num::{NoMemory, Row, Span};
use std::alloc::Global;

/// A row with one more element.
pub(crate) fn more<T: Drop>(row: Row<T>, item: T) -> Result<Row<T>, NoMemory>
    ensures { IfOk result (λ all. all ≡ row ++ item ∷ []) }
{
    let mut all = row;
    all.push(item)?;
    Ok(all)
}

/// Begins a sequence with the part on top.
pub(crate) fn first(alloc: Global, stack: &mut Stack) -> Result<Option<Entry>, NoMemory>
    ensures { IfOk result (λ made. Forms action.First stack.old stack.new made) }
{
    let Some(top) = pop_done(stack) else {
        return Ok(None);
    };
    let Built { tree, height, from } = top;
    let tree = match tree {
        None => None,
        Some(exp) => Some(Piece::Parts(exp.at, more(Row::new(alloc), exp)?)),
    };
    Ok(Some(Built { tree, height, from }))
}

/// Puts the part on top behind those before it.
pub(crate) fn part(stack: &mut Stack) -> Result<Option<Entry>, NoMemory>
    ensures { IfOk result (λ made. Forms action.Part stack.old stack.new made) }
{
    let Some(top) = pop_done(stack) else {
        return Ok(None);
    };
    let Some(before) = pop_parts(stack) else {
        return Ok(None);
    };
    let Built { tree, height, from } = both(before, top);
    let tree = match tree {
        None => None,
        Some(((at, parts), exp)) => Some(Piece::Parts(at, more(parts, exp)?)),
    };
    Ok(Some(Built { tree, height, from }))
}

/// Ends parentheses.
pub(crate) fn end_parens(alloc: Global, stack: &mut Stack) -> Result<Option<Entry>, NoMemory>
    ensures { IfOk result (λ made. Forms action.EndParens stack.old stack.new made) }
{
    let Some(top) = pop_parts(stack) else {
        return Ok(None);
    };
    let Built { tree, height, from } = raise(top);
    let exp = match tree {
        None => None,
        Some((at, parts)) => Some(in_parens(alloc, at, parts)?),
    };
    Ok(Some(done(exp, height, from)))
}

/// Ends a sequence.
pub(crate) fn end_sequence(stack: &mut Stack) -> Result<Option<Entry>, NoMemory>
    ensures { IfOk result (λ made. Forms action.EndSequence stack.old stack.new made) }
{
    let Some(top) = pop_parts(stack) else {
        return Ok(None);
    };
    let Built { tree, height, from } = raise(top);
    let exp = match tree {
        None => None,
        Some((at, parts)) => Some(Exp {
            at,
            node: Node::Seq(parts),
        }),
    };
    Ok(Some(done(exp, height, from)))
}

/// Puts the part on top behind the fields before it.
pub(crate) fn field(stack: &mut Stack) -> Result<Option<Entry>, NoMemory>
    ensures { IfOk result (λ made. Forms action.Field stack.old stack.new made) }
{
    let Some(top) = pop_done(stack) else {
        return Ok(None);
    };
    let Some(name) = pop_label(stack) else {
        return Ok(None);
    };
    let Some(before) = pop_fields(stack) else {
        return Ok(None);
    };
    let Built { tree, height, from } = both(before, top);
    let tree = match tree {
        None => None,
        Some(((at, fields), exp)) => Some(Piece::Fields(at, more(fields, (name, exp))?)),
    };
    Ok(Some(Built { tree, height, from }))
}

/// Ends a record.
pub(crate) fn end_fields(stack: &mut Stack) -> Result<Option<Entry>, NoMemory>
    ensures { IfOk result (λ made. Forms action.EndFields stack.old stack.new made) }
{
    let Some(top) = pop_fields(stack) else {
        return Ok(None);
    };
    let Built { tree, height, from } = raise(top);
    let exp = match tree {
        None => None,
        Some((at, fields)) => Some(Exp {
            at,
            node: Node::Fields(fields),
        }),
    };
    Ok(Some(done(exp, height, from)))
}

/// The call of a function with these arguments, where this is a function alone.
fn call_of(function: Exp, from: usize, arguments: Built<(Span, Row<Exp>)>) -> Option<Entry>
    ensures { result ≡ spec.call_of function from arguments }
{
    let Exp { at, node } = function;
    let Some(name) = call_name(node) else {
        return None;
    };
    let Built { tree, height, .. } = raise(arguments);
    let exp = match tree {
        None => None,
        Some((_, args)) => Some(Exp {
            at,
            node: Node::Call(name, args),
        }),
    };
    Some(done(exp, height, from))
}

/// Ends the arguments of a function.
pub(crate) fn end_call(stack: &mut Stack) -> Result<Option<Entry>, NoMemory>
    ensures { IfOk result (λ made. Forms action.EndCall stack.old stack.new made) }
{
    let Some(top) = pop_parts(stack) else {
        return Ok(None);
    };
    let Some(function) = pop_done(stack) else {
        return Ok(None);
    };
    let from = function.from;
    let Some(function) = function.tree else {
        return Ok(None);
    };
    Ok(call_of(function, from, top))
}
