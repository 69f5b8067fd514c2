//! The refusal of a specification, with its place, the definition and the rule, and of a term.

ghost use Rattle.std.specs.Prelude.{◌≡◌, ◌<◌, ◌++◌, ℕ, List, Some, length, slice_get, codes, IfOk, OnOk};
ghost use Rattle.st_answers.specs.RefusalTexts.{rule_id_word, fragment_words, part_words, definition_words, refused_source_text, refused_term_text};

use crate::answer::Answer;
use crate::status::Status;
use itoa::Buffer;
use st_el::{Def, DefNode};
use st_num::{Name, NoMemory, RuleId, Span};
use st_words::CommandWord;
use std::alloc::Global;

/// The name of a rule on specifications, as it is printed.
fn rule_id_word(rule: RuleId) -> &'static str
    ensures { result.now ≡ rule_id_word rule }
{
    match rule {
        RuleId::L1 => "L1",
        RuleId::L2 => "L2",
        RuleId::L3 => "L3",
        RuleId::L4 => "L4",
        RuleId::S1 => "S1",
        RuleId::S2 => "S2",
        RuleId::S3 => "S3",
        RuleId::S4 => "S4",
        RuleId::B1 => "B1",
        RuleId::B2 => "B2",
        RuleId::B3 => "B3",
        RuleId::B4 => "B4",
        RuleId::B5 => "B5",
        RuleId::B6 => "B6",
        RuleId::Y1 => "Y1",
        RuleId::Y2 => "Y2",
        RuleId::Y3 => "Y3",
        RuleId::Y4 => "Y4",
        RuleId::Y5 => "Y5",
        RuleId::Y6 => "Y6",
        RuleId::Y7 => "Y7",
        RuleId::Y8 => "Y8",
        RuleId::I1 => "I1",
        RuleId::I2 => "I2",
        RuleId::M1 => "M1",
        RuleId::M2 => "M2",
        RuleId::M3 => "M3",
        RuleId::M4 => "M4",
        RuleId::M5 => "M5",
        RuleId::M6 => "M6",
        RuleId::M7 => "M7",
    }
}

/// Appends a slash and a name.
fn push_part(out: &mut Vec<u8>, name: &Name) -> Result<(), NoMemory>
    ensures { OnOk result (out.new.items ≡ out.old.items ++ codes "/" ++ name.now) }
{
    out.extend_from_slice(b"/")?;
    out.extend_from_slice(name.as_slice())?;
    Ok(())
}

/// Appends the part of a rule's name behind that of its relation.
pub fn push_rule_part(out: &mut Vec<u8>, name: &Name) -> Result<(), NoMemory>
    ensures { OnOk result (out.new.items ≡ out.old.items ++ part_words name.now) }
{
    if name.is_empty() {
        return Ok(());
    }
    push_part(out, name)
}

/// Appends the part of a fragment's name behind that of its syntax.
fn push_fragment_part(out: &mut Vec<u8>, fragment: &Option<Name>) -> Result<(), NoMemory>
    ensures { OnOk result (out.new.items ≡ out.old.items ++ fragment_words fragment.now) }
{
    match fragment {
        None => Ok(()),
        Some(name) => push_part(out, name),
    }
}

/// The word of a kind of definition, and a name.
fn named(alloc: Global, kind: &[u8], name: &Name) -> Result<Vec<u8>, NoMemory>
    ensures { IfOk result (λ words. words.items ≡ kind.now ++ name.now) }
{
    let mut words = Vec::from_slice(alloc, kind)?;
    words.extend_from_slice(name.as_slice())?;
    Ok(words)
}

/// How a definition is named where it is refused.
fn definition_words(alloc: Global, node: &DefNode) -> Result<Vec<u8>, NoMemory>
    ensures { IfOk result (λ words. words.items ≡ definition_words node.now) }
{
    match node {
        DefNode::Syntax { name, fragment, .. } => {
            let mut words = named(alloc, b"syntax ", name)?;
            push_fragment_part(&mut words, fragment)?;
            Ok(words)
        }
        DefNode::Var { name, .. } => named(alloc, b"var ", name),
        DefNode::Relation { name, .. } => named(alloc, b"relation ", name),
        DefNode::Rule { relation, name, .. } => {
            let mut words = named(alloc, b"rule ", relation)?;
            push_rule_part(&mut words, name)?;
            Ok(words)
        }
        DefNode::Fun { name, .. } | DefNode::Clause { name, .. } => named(alloc, b"def $", name),
    }
}

/// The answer where a place in the file of this name, in the definition of these words, is refused.
pub fn refused(
    alloc: Global,
    name: &str,
    at: Span,
    definition: &[u8],
    rule: RuleId,
) -> Result<Answer, NoMemory>
    ensures status { IfOk result (λ answer. answer.status ≡ Status.Specification) }
    ensures bytes { IfOk result (λ answer. answer.bytes.items
        ≡ refused_source_text name.now at definition.now rule) }
{
    let mut buffer = Buffer::new();
    let mut bytes = Vec::from_slice(alloc, b"refused ")?;
    bytes.extend_from_slice(name.as_bytes())?;
    bytes.extend_from_slice(b":")?;
    bytes.extend_from_slice(buffer.format(at.line).as_bytes())?;
    bytes.extend_from_slice(b":")?;
    bytes.extend_from_slice(buffer.format(at.column).as_bytes())?;
    bytes.extend_from_slice(b" ")?;
    bytes.extend_from_slice(definition)?;
    bytes.extend_from_slice(b" ")?;
    bytes.extend_from_slice(rule_id_word(rule).as_bytes())?;
    bytes.extend_from_slice(b"\n")?;
    Ok(Answer {
        status: Status::Specification,
        bytes,
    })
}

/// The answer where this definition breaks a rule at this place, in a file of these names.
pub fn refused_in(
    alloc: Global,
    names: &[CommandWord],
    def: &Def,
    at: Span,
    rule: RuleId,
) -> Result<Answer, NoMemory>
    requires { at.file < length names.now }
    ensures status { IfOk result (λ answer. answer.status ≡ Status.Specification) }
    ensures bytes { IfOk result (λ answer. (name : List ℕ)
        × (slice_get names.now at.file ≡ Some name)
        × (answer.bytes.items
        ≡ refused_source_text name at (definition_words def.now.node) rule)) }
{
    let words = definition_words(alloc, &def.node)?;
    let name = names[at.file as usize].as_str();
    refused(alloc, name, at, words.as_slice(), rule)
}

/// The answer where a place in a term or a query is refused.
pub fn refused_term(alloc: Global, at: Span, rule: RuleId) -> Result<Answer, NoMemory>
    ensures status { IfOk result (λ answer. answer.status ≡ Status.Term) }
    ensures bytes { IfOk result (λ answer. answer.bytes.items ≡ refused_term_text at rule) }
{
    let mut buffer = Buffer::new();
    let mut bytes = Vec::from_slice(alloc, b"term refused ")?;
    bytes.extend_from_slice(buffer.format(at.line).as_bytes())?;
    bytes.extend_from_slice(b":")?;
    bytes.extend_from_slice(buffer.format(at.column).as_bytes())?;
    bytes.extend_from_slice(b" ")?;
    bytes.extend_from_slice(rule_id_word(rule).as_bytes())?;
    bytes.extend_from_slice(b"\n")?;
    Ok(Answer {
        status: Status::Term,
        bytes,
    })
}
