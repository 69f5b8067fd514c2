//! How a line is noted, and what is read of the notes.

ghost use Rattle.std.specs.Prelude.{◌≡◌, ◌+◌, ◌^◌, ◌<◌, IfOk, OnOk, OnErr};
ghost use Rattle.std.specs.Option.{option_copied, option_map};
ghost use Rattle.st_semantics.specs.declared.notes.Judgement.{Judgement as Noted};
ghost use Rattle.st_semantics.specs.Notes.{nothing_noted, judgement_on};
ghost use Rattle.st_verify.specs.SmallNotes.{small_noted, small_outputs};

use crate::{Judgement, Notes};
use st_deriv::Line;
use st_il::{Value, copy_values};
use st_num::{NoMemory, Row};
use std::alloc::Global;

/// What is noted before the first line. It takes no memory.
pub fn no_notes(alloc: Global) -> Notes
    ensures { result ≡ nothing_noted }
{
    Notes {
        lines: Row::new(alloc),
        relation: None,
        term: None,
        steps: 0,
        ended: false,
    }
}

/// The judgement of the node on that line.
pub fn noted_on(notes: &Notes, line: u128) -> Option<&Judgement>
    ensures { option_copied result ≡ judgement_on notes.now line }
{
    if line == 0 || line > notes.lines.len() as u128 {
        return None;
    }
    match notes.lines.get((line - 1) as usize) {
        Some(Some(judgement)) => Some(judgement),
        _ => None,
    }
}

/// A copy of the values of the outputs.
fn copy_outputs(alloc: Global, values: &[Value]) -> Result<Row<Value>, NoMemory>
    ensures { IfOk result (λ outputs. outputs ≡ small_outputs values.now) }
{
    match values {
        [] => Ok(Row::new(alloc)),
        [_, outputs @ ..] => copy_values(alloc, outputs),
    }
}

/// A copy of the term behind a step by the node on that line.
fn term_after(alloc: Global, notes: &Notes, line: u128) -> Result<Option<Row<Value>>, NoMemory>
    ensures { IfOk result (λ term. term ≡ option_map
        (λ (judgement : Noted). small_outputs judgement.values) (judgement_on notes.now line)) }
{
    match noted_on(notes, line) {
        Some(judgement) => {
            let outputs = copy_outputs(alloc, judgement.values.as_slice())?;
            Ok(Some(outputs))
        }
        None => Ok(None),
    }
}

/// Notes one line more. For want of memory nothing changes.
pub fn note(notes: &mut Notes, alloc: Global, line: &Line) -> Result<(), NoMemory>
    requires { notes.old.steps + 1 < 2 ^ 64 }
    ensures ok { OnOk result (notes.new ≡ small_noted notes.old line.now) }
    ensures err { OnErr result (notes.new ≡ notes.old) }
{
    match line {
        Line::Head {
            format: _,
            relation,
        } => {
            let relation = relation.copy(alloc)?;
            notes.lines.push(None)?;
            notes.relation = Some(relation);
        }
        Line::From(values) => {
            let term = copy_values(alloc, values.as_slice())?;
            notes.lines.push(None)?;
            notes.term = Some(term);
        }
        Line::Node(node) => {
            let relation = node.relation.copy(alloc)?;
            let values = copy_values(alloc, node.values.as_slice())?;
            notes.lines.push(Some(Judgement { relation, values }))?;
        }
        Line::Step(number) => {
            let term = term_after(alloc, notes, *number)?;
            notes.lines.push(None)?;
            notes.term = term;
            notes.steps += 1;
        }
        Line::End(_) => {
            notes.lines.push(None)?;
            notes.ended = true;
        }
    }
    Ok(())
}
