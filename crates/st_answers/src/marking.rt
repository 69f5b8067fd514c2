//! The mark of a relation, which says why it is not run.

ghost use Rattle.std.specs.Prelude.{◌≡◌, ◌++◌, codes, All, Some, None, IfOk, OnOk};
ghost use Rattle.std.specs.Option.{option_map};
ghost use Rattle.st_il.specs.declared.definition.Il.{Il as Language};
ghost use Rattle.st_order.specs.Modes.{HasFew, AreModes};
ghost use Rattle.st_order.specs.Tagged.{IsTagged};
ghost use Rattle.st_il.specs.Definitions.{syntaxes, relations, relation_named};
ghost use Rattle.st_semantics.specs.Marks.{HasUnfit};
ghost use Rattle.st_answers.specs.MarkTexts.{unfit_text, IsMarkText};
ghost use Rattle.st_answers.specs.inner.Marking.{IsFirstNamed};

use crate::answer::Answer;
use crate::ordering::add_variable;
use crate::status::Status;
use itoa::Buffer;
use st_il::{Il, RelationDef};
use st_num::{Name, NoMemory};
use st_order::{Modes, relations_of, stepping};
use st_semantics::Unfit;
use st_types::TypeTable;
use std::alloc::Global;

/// The number of the first relation of a name.
pub fn number_of(relations: &[&RelationDef], name: &Name) -> Option<usize>
    ensures { IsFirstNamed relations.now name.now result }
{
    for i in 0..relations.len() {
        if name.as_slice() == relations[i].name.as_slice() {
            return Some(i);
        }
    }
    None
}

/// Adds U2 and its parts.
fn add_unordered(
    rule: &Name,
    premise: u32,
    variable: &Option<Name>,
    bytes: &mut Vec<u8>,
) -> Result<(), NoMemory>
    ensures { OnOk result (bytes.new.items
        ≡ bytes.old.items ++ unfit_text (Unfit.U2 rule.now premise variable.now)) }
{
    let mut buffer = Buffer::new();
    bytes.extend_from_slice(b"U2 ")?;
    bytes.extend_from_slice(rule.as_slice())?;
    bytes.extend_from_slice(b" ")?;
    bytes.extend_from_slice(buffer.format(premise).as_bytes())?;
    bytes.extend_from_slice(b" ")?;
    add_variable(variable, bytes)
}

/// The text of a mark of a declared relation, with its parts.
fn unfit_text(alloc: Global, unfit: &Unfit) -> Result<Vec<u8>, NoMemory>
    ensures { IfOk result (λ bytes. bytes.items ≡ unfit_text unfit.now) }
{
    let mut bytes = Vec::new(alloc);
    match unfit {
        Unfit::U1 => bytes.extend_from_slice(b"U1")?,
        Unfit::U2 {
            rule,
            premise,
            variable,
        } => add_unordered(rule, *premise, variable, &mut bytes)?,
        Unfit::U3(fun) => {
            bytes.extend_from_slice(b"U3 $")?;
            bytes.extend_from_slice(fun.as_slice())?;
        }
        Unfit::U4(relation) => {
            bytes.extend_from_slice(b"U4 ")?;
            bytes.extend_from_slice(relation.as_slice())?;
        }
    }
    Ok(bytes)
}

/// The text of the mark of a declared relation that can be searched, if it has one: it is to be run,
/// and its outputs are no inputs again.
fn stepping_mark(
    alloc: Global,
    types: &TypeTable,
    relation: &RelationDef,
    steps: bool,
) -> Result<Option<Vec<u8>>, NoMemory>
    requires tagged { IsTagged relation.now }
    ensures { IfOk result (λ text. (il : Language) → types.now ≡ syntaxes il
        → relation_named il relation.now.name ≡ Some relation.now
        → HasUnfit il relation.now None
        → IsMarkText il steps relation.now.name (option_map (λ bytes. bytes.items) text)) }
{
    if !steps {
        return Ok(None);
    }
    if stepping(types, relation) {
        return Ok(None);
    }
    let text = Vec::from_slice(alloc, b"U5")?;
    Ok(Some(text))
}

/// The text of the mark of a declared relation, if it has one, of which this is the first of U1 to
/// U4.
fn declared_mark(
    alloc: Global,
    types: &TypeTable,
    relation: &RelationDef,
    unfit: &Option<Unfit>,
    steps: bool,
) -> Result<Option<Vec<u8>>, NoMemory>
    requires tagged { IsTagged relation.now }
    ensures { IfOk result (λ text. (il : Language) → types.now ≡ syntaxes il
        → relation_named il relation.now.name ≡ Some relation.now
        → HasUnfit il relation.now unfit.now
        → IsMarkText il steps relation.now.name (option_map (λ bytes. bytes.items) text)) }
{
    match unfit {
        Some(unfit) => {
            let text = unfit_text(alloc, unfit)?;
            Ok(Some(text))
        }
        None => stepping_mark(alloc, types, relation, steps),
    }
}

/// The text of the mark of the relation of a name, if it has one; where it is to be run, it can have
/// U5 besides.
pub fn mark_of(
    alloc: Global,
    il: &Il,
    types: &TypeTable,
    modes: &Modes,
    name: &Name,
    steps: bool,
) -> Result<Option<Vec<u8>>, NoMemory>
    requires few { HasFew il.now }
    requires modes { AreModes il.now modes.now }
    requires types { types.now ≡ syntaxes il.now }
    requires tagged { All IsTagged (relations il.now) }
    ensures { IfOk result (λ text. IsMarkText il.now steps name.now
        (option_map (λ bytes. bytes.items) text)) }
{
    let relations = relations_of(alloc, il)?;
    let relations = relations.as_slice();
    match number_of(relations, name) {
        None => {
            let text = Vec::from_slice(alloc, b"U0")?;
            Ok(Some(text))
        }
        Some(number) => {
            let marks = modes.marks.as_slice();
            let relation = relations[number];
            declared_mark(alloc, types, relation, &marks[number], steps)
        }
    }
}

/// The answer where the relation has a mark of this text.
pub fn not_runnable(alloc: Global, relation: &Name, mark: &[u8]) -> Result<Answer, NoMemory>
    ensures status { IfOk result (λ answer. answer.status ≡ Status.NotRunnable) }
    ensures bytes { IfOk result (λ answer. answer.bytes.items
        ≡ codes "not runnable " ++ relation.now ++ codes " " ++ mark.now ++ codes "\n") }
{
    let mut bytes = Vec::from_slice(alloc, b"not runnable ")?;
    bytes.extend_from_slice(relation.as_slice())?;
    bytes.extend_from_slice(b" ")?;
    bytes.extend_from_slice(mark)?;
    bytes.extend_from_slice(b"\n")?;
    Ok(Answer {
        status: Status::NotRunnable,
        bytes,
    })
}
