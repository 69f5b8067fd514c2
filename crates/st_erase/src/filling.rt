//! How a template is written with its holes filled.

ghost use Rattle.std.specs.Prelude.{◌≡◌, map, IfOk, OnOk};
ghost use Rattle.st_erase.specs.Filling.{part_of, takes_run, write_hole, write_run, write_part, write_parts, filled};

use crate::Erased;
use crate::form::{joined, next, only, sequence, unplaced};
use st_el::{Exp, Node};
use st_il::Template;
use st_num::{Boxed, NoMemory, Row};
use std::alloc::Global;
use std::collections::VecDeque;

/// The template with its holes filled by these operands, from left to right.
pub fn filled(alloc: Global, template: &Template, operands: Row<Erased>) -> Result<Exp, NoMemory>
    ensures { IfOk result (λ exp. exp ≡ filled template.now operands) }
{
    let mut operands = VecDeque::from_vec(operands.into_vec());
    let exp = write(alloc, template, &mut operands)?;
    Ok(exp)
}

/// How the template is written with the first operands; those that it takes are taken off.
#[cycle(fill)]
fn write(
    alloc: Global,
    template: &Template,
    operands: &mut VecDeque<Erased>,
) -> Result<Exp, NoMemory>
    ensures out { IfOk result
        (λ exp. exp ≡ ((part_of template.now).write operands.old.items).out) }
    ensures rest { OnOk result
        (operands.new.items ≡ ((part_of template.now).write operands.old.items).rest) }
{
    match template {
        Template::Atom(name) => Ok(unplaced(Node::Atom(name.copy(alloc)?))),
        Template::Hole => write_hole(alloc, operands),
        Template::Seq(parts) => {
            let elements = write_parts(alloc, parts.as_slice(), operands)?;
            Ok(sequence(elements))
        }
        Template::Infix(left, sign, right) => {
            let left = write_boxed(alloc, left, operands)?;
            let right = write_boxed(alloc, right, operands)?;
            Ok(unplaced(Node::Infix(left, *sign, right)))
        }
        Template::Bracket(opening, inside) => {
            let inside = write_boxed(alloc, inside, operands)?;
            Ok(unplaced(Node::Bracket(*opening, inside)))
        }
    }
}

/// How the template is written with the first operands, in a box of its own.
#[cycle(fill)]
fn write_boxed(
    alloc: Global,
    template: &Boxed<Template>,
    operands: &mut VecDeque<Erased>,
) -> Result<Boxed<Exp>, NoMemory>
    ensures out { IfOk result
        (λ exp. exp ≡ ((part_of template.now).write operands.old.items).out) }
    ensures rest { OnOk result
        (operands.new.items ≡ ((part_of template.now).write operands.old.items).rest) }
{
    let exp = write(alloc, template.get(), operands)?;
    Boxed::new(alloc, exp)
}

/// Writes the parts of a sequence.
#[cycle(fill)]
fn write_parts(
    alloc: Global,
    parts: &[Template],
    operands: &mut VecDeque<Erased>,
) -> Result<Row<Exp>, NoMemory>
    ensures out { IfOk result
        (λ exps. exps ≡ (write_parts (map part_of parts.now) operands.old.items).out) }
    ensures rest { OnOk result
        (operands.new.items ≡ (write_parts (map part_of parts.now) operands.old.items).rest) }
{
    let mut elements = Row::new(alloc);
    for (i, part) in parts.iter().enumerate() {
        let written = write_part(alloc, part, &parts[i + 1..], operands)?;
        elements = joined(elements, written)?;
    }
    Ok(elements)
}

/// Writes a part of a sequence before these parts.
#[cycle(fill)]
fn write_part(
    alloc: Global,
    part: &Template,
    behind: &[Template],
    operands: &mut VecDeque<Erased>,
) -> Result<Row<Exp>, NoMemory>
    ensures out { IfOk result (λ exps. exps
        ≡ (write_part (part_of part.now) (map part_of behind.now) operands.old.items).out) }
    ensures rest { OnOk result (operands.new.items
        ≡ (write_part (part_of part.now) (map part_of behind.now) operands.old.items).rest) }
{
    if is_hole(part) && takes_run(behind) {
        return write_run(alloc, operands);
    }
    only(alloc, write(alloc, part, operands)?)
}

/// Writes the operand of a hole, or `eps` where there is none.
fn write_hole(alloc: Global, operands: &mut VecDeque<Erased>) -> Result<Exp, NoMemory>
    ensures out { IfOk result (λ exp. exp ≡ (write_hole operands.old.items).out) }
    ensures rest { OnOk result (operands.new.items ≡ (write_hole operands.old.items).rest) }
{
    match next(operands) {
        Some(operand) => operand.whole(alloc),
        None => Ok(unplaced(Node::Eps)),
    }
}

/// Writes the operand of a hole that takes a run.
fn write_run(alloc: Global, operands: &mut VecDeque<Erased>) -> Result<Row<Exp>, NoMemory>
    ensures out { IfOk result (λ exps. exps ≡ (write_run operands.old.items).out) }
    ensures rest { OnOk result (operands.new.items ≡ (write_run operands.old.items).rest) }
{
    match next(operands) {
        Some(operand) => operand.run(alloc),
        None => Ok(Row::new(alloc)),
    }
}

/// Whether the template is a hole.
fn is_hole(template: &Template) -> bool
    ensures { result ≡ (part_of template.now).is_hole }
{
    match template {
        Template::Hole => true,
        _ => false,
    }
}

/// Whether the template is an atom.
fn is_atom(template: &Template) -> bool
    ensures { result ≡ (part_of template.now).is_atom }
{
    match template {
        Template::Atom(_) => true,
        _ => false,
    }
}

/// Whether a hole before these parts takes a run.
fn takes_run(behind: &[Template]) -> bool
    ensures { result ≡ takes_run (map part_of behind.now) }
{
    match behind.first() {
        Some(next) => is_atom(next),
        None => true,
    }
}
