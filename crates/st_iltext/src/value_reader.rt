//! How values are read from text trees.

ghost use Rattle.std.specs.Prelude.{MatchOption};
ghost use Rattle.st_iltext.specs.Values.{value_tree, value_written, ValueText, IsNoValue};
ghost use Rattle.st_iltext.specs.declared.value_form.ValueForm.TheVariants as form;
ghost use Rattle.st_iltext.specs.inner.Fields.{AreFields, AreNoFields};
ghost use Rattle.st_iltext.specs.inner.Forms.{form_word};
ghost use Rattle.st_iltext.specs.inner.Reading.{IsOf, IsOfNone, Reads, ReadsAll};
ghost use Rattle.st_text.specs.Reading.{Answers};
ghost use Rattle.st_text.specs.Text.{word, list, more};
ghost use Rattle.st_text.specs.Trees.{tree_of, trees_of};

use crate::fault::MALFORMED;
use crate::shape::quoted;
use crate::value_form::{ValueForm, form_of};
use st_il::{Value, is_within_height};
use st_num::{Boxed, HIGHEST_VALUE, Name, Row};
use st_text::{TextFault, TextTree, read_integer, read_tree};
use std::alloc::Global;

/// The value whose text the bytes are.
pub fn read_value(alloc: Global, bytes: &[u8]) -> Result<Value, TextFault>
    ensures { Answers result (λ value. ValueText value bytes.now) (IsNoValue bytes.now) }
{
    let tree = read_tree(alloc, bytes)?;
    let value = value_of(alloc, &tree)?;
    if !is_within_height(&value, HIGHEST_VALUE) {
        return Err(MALFORMED);
    }
    Ok(value)
}

/// The value that a word is.
fn literal(bytes: &[u8]) -> Option<Value>
    ensures { MatchOption result (IsOfNone value_tree value_written (word bytes.now))
        (IsOf value_tree value_written (word bytes.now)) }
{
    if bytes == b"true".as_slice() {
        return Some(Value::Bool(true));
    }
    if bytes == b"false".as_slice() {
        return Some(Value::Bool(false));
    }
    Some(Value::Num(read_integer(bytes)?))
}

/// The value that the tree is.
#[cycle(read)]
fn value_of(alloc: Global, tree: &TextTree) -> Result<Value, TextFault>
    ensures { Reads value_tree value_written (tree_of tree.now) result }
{
    match tree {
        TextTree::Word(bytes) => match literal(bytes.as_slice()) {
            Some(value) => Ok(value),
            None => Err(MALFORMED),
        },
        TextTree::Quote(text) => Ok(Value::Text(text.copy(alloc)?)),
        TextTree::List(trees) => {
            let Some((head, parts)) = trees.as_slice().split_first() else {
                return Err(MALFORMED);
            };
            let Some(form) = form_of(head) else {
                return Err(MALFORMED);
            };
            read_form(alloc, form, parts)
        }
    }
}

/// The value of this form that the parts are.
#[cycle(read)]
fn read_form(alloc: Global, form: ValueForm, parts: &[TextTree]) -> Result<Value, TextFault>
    ensures { Reads value_tree value_written
        (list (more (word (form_word form)) (trees_of parts.now))) result }
{
    match form {
        ValueForm::Case => read_case(alloc, parts),
        ValueForm::Fields => Ok(Value::Fields(read_fields(alloc, parts)?)),
        ValueForm::Tuple => Ok(Value::Tuple(read_values(alloc, parts)?)),
        ValueForm::List => Ok(Value::List(read_values(alloc, parts)?)),
        ValueForm::Opt => read_option(alloc, parts),
    }
}

/// The case that the parts are.
#[cycle(read)]
fn read_case(alloc: Global, parts: &[TextTree]) -> Result<Value, TextFault>
    ensures { Reads value_tree value_written
        (list (more (word (form_word form.Case)) (trees_of parts.now))) result }
{
    let Some((tag, operands)) = parts.split_first() else {
        return Err(MALFORMED);
    };
    let Some(tag) = quoted(tag) else {
        return Err(MALFORMED);
    };
    let tag = tag.copy(alloc)?;
    Ok(Value::Case(tag, read_values(alloc, operands)?))
}

/// The option that the parts are.
#[cycle(read)]
fn read_option(alloc: Global, parts: &[TextTree]) -> Result<Value, TextFault>
    ensures { Reads value_tree value_written
        (list (more (word (form_word form.Opt)) (trees_of parts.now))) result }
{
    let Some((part, others)) = parts.split_first() else {
        return Ok(Value::Opt(None));
    };
    if !others.is_empty() {
        return Err(MALFORMED);
    }
    let part = value_of(alloc, part)?;
    Ok(Value::Opt(Some(Boxed::new(alloc, part)?)))
}

/// The values that the trees are.
#[cycle(read)]
fn read_values(alloc: Global, trees: &[TextTree]) -> Result<Row<Value>, TextFault>
    ensures { ReadsAll value_tree value_written (trees_of trees.now) result }
{
    let mut values = Row::new(alloc);
    for tree in trees {
        values.push(value_of(alloc, tree)?)?;
    }
    Ok(values)
}

/// The fields that the trees are: of each its name, and then its value.
#[cycle(read)]
fn read_fields(alloc: Global, trees: &[TextTree]) -> Result<Row<(Name, Value)>, TextFault>
    ensures { Answers result (AreFields (trees_of trees.now)) (AreNoFields (trees_of trees.now)) }
{
    let mut fields = Row::new(alloc);
    let mut rest = trees;
    'fields: while let Some((name, behind)) = rest.split_first() {
        let Some(name) = quoted(name) else {
            return Err(MALFORMED);
        };
        let Some((value, others)) = behind.split_first() else {
            return Err(MALFORMED);
        };
        let name = name.copy(alloc)?;
        fields.push((name, value_of(alloc, value)?))?;
        rest = others;
    }
    Ok(fields)
}
