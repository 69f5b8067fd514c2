//! The trees of values.

ghost use Rattle.std.specs.Prelude.{◌≡◌, ◌++◌, map, IfOk, OnOk};
ghost use Rattle.std.specs.Fmt.{signed_decimal};
ghost use Rattle.st_iltext.specs.Values.{value_tree, value_text};
ghost use Rattle.st_iltext.specs.inner.Fields.{fields_row};
ghost use Rattle.st_text.specs.Text.{word};
ghost use Rattle.st_text.specs.Trees.{tree_of};

use crate::form::{headed, quote_tree, truth_tree, unary};
use st_il::Value;
use st_num::{Name, NoMemory, Num, Row, print_number};
use st_text::{TextTree, print_tree};
use std::alloc::Global;

/// The text of a value.
pub fn print_value(alloc: Global, value: &Value) -> Result<Row<u8>, NoMemory>
    ensures { IfOk result (λ bytes. bytes ≡ value_text value.now) }
{
    let tree = value_tree(alloc, value)?;
    let mut out = Vec::new(alloc);
    print_tree(&tree, &mut out)?;
    Ok(Row::from_vec(out))
}

/// A number as a tree, with `-` before a negative one.
fn integer_tree(alloc: Global, number: Num) -> Result<TextTree, NoMemory>
    ensures { IfOk result (λ tree. tree_of tree ≡ word (signed_decimal number)) }
{
    let mut digits = Vec::new(alloc);
    print_number(number, &mut digits)?;
    Ok(TextTree::Word(Row::from_vec(digits)))
}

/// The tree of a value.
#[cycle(value)]
fn value_tree(alloc: Global, value: &Value) -> Result<TextTree, NoMemory>
    ensures { IfOk result (λ tree. tree_of tree ≡ value_tree value.now) }
{
    match value {
        Value::Bool(is_true) => truth_tree(alloc, *is_true),
        Value::Num(number) => integer_tree(alloc, *number),
        Value::Text(text) => quote_tree(alloc, text),
        Value::Case(tag, parts) => {
            let mut trees = headed(alloc, b"c")?;
            trees.push(quote_tree(alloc, tag)?)?;
            push_values(alloc, parts.as_slice(), &mut trees)?;
            Ok(TextTree::List(trees))
        }
        Value::Fields(fields) => {
            let mut trees = headed(alloc, b"r")?;
            push_fields(alloc, fields.as_slice(), &mut trees)?;
            Ok(TextTree::List(trees))
        }
        Value::Tuple(parts) => {
            let mut trees = headed(alloc, b"t")?;
            push_values(alloc, parts.as_slice(), &mut trees)?;
            Ok(TextTree::List(trees))
        }
        Value::List(parts) => {
            let mut trees = headed(alloc, b"l")?;
            push_values(alloc, parts.as_slice(), &mut trees)?;
            Ok(TextTree::List(trees))
        }
        Value::Opt(None) => Ok(TextTree::List(headed(alloc, b"o")?)),
        Value::Opt(Some(part)) => unary(alloc, b"o", value_tree(alloc, part.get())?),
    }
}

/// Adds the trees of these values.
#[cycle(value)]
fn push_values(alloc: Global, values: &[Value], trees: &mut Row<TextTree>) -> Result<(), NoMemory>
    ensures { OnOk result
        (map tree_of trees.new ≡ map tree_of trees.old ++ map value_tree values.now) }
{
    for value in values {
        trees.push(value_tree(alloc, value)?)?;
    }
    Ok(())
}

/// Adds the trees of these fields: of each its name, and then its value.
#[cycle(value)]
fn push_fields(
    alloc: Global,
    fields: &[(Name, Value)],
    trees: &mut Row<TextTree>,
) -> Result<(), NoMemory>
    ensures { OnOk result
        (map tree_of trees.new ≡ map tree_of trees.old ++ fields_row fields.now) }
{
    for field in fields {
        trees.push(quote_tree(alloc, &field.0)?)?;
        trees.push(value_tree(alloc, &field.1)?)?;
    }
    Ok(())
}
