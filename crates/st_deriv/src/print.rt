//! How lines are printed.

ghost use Rattle.std.specs.Prelude.{◌≡◌, ◌++◌, OnOk, OnErr};
ghost use Rattle.std.specs.List.{All};
ghost use Rattle.st_text.specs.Printing.{IsCutOff};
ghost use Rattle.st_text.specs.Text.{text, behind, row_text};
ghost use Rattle.st_deriv.specs.LineText.{tag_of, value_tree, value_trees, ending_word};
ghost use Rattle.st_deriv.specs.LineText.{HasText, line_text, lines_text};
ghost use Rattle.st_deriv.specs.declared.line.Line.TheVariants.{Node};

use crate::{Ending, Line, NodeLine};
use st_il::Value;
use st_num::NoMemory;
use st_text::{print_natural, print_quoted};

/// Appends the texts of the lines, each with a line feed behind it.
pub fn print_lines(lines: &[Line], out: &mut Vec<u8>) -> Result<(), NoMemory>
    requires { All HasText lines.now }
    ensures ok { OnOk result (out.new.items ≡ out.old.items ++ lines_text lines.now) }
    ensures err { OnErr result (IsCutOff out.old.items (lines_text lines.now) out.new.items) }
{
    for line in lines {
        print_line(line, out)?;
        out.push(b'\n')?;
    }
    Ok(())
}

/// Appends the text of the line, without a line feed.
fn print_line(line: &Line, out: &mut Vec<u8>) -> Result<(), NoMemory>
    ensures ok { OnOk result (out.new.items ≡ out.old.items ++ line_text line.now) }
    ensures err { OnErr result (IsCutOff out.old.items (line_text line.now) out.new.items) }
{
    match line {
        Line::Head {
            format: _,
            relation,
        } => {
            out.extend_from_slice(b"derivation 1 ")?;
            out.extend_from_slice(relation.as_slice())?;
            Ok(())
        }
        Line::From(values) => {
            out.extend_from_slice(b"from")?;
            print_behind(values.as_slice(), out)
        }
        Line::Node(node) => print_node(node, out),
        Line::Step(number) => {
            out.extend_from_slice(b"step ")?;
            print_natural(*number, out)
        }
        Line::End(ending) => {
            out.extend_from_slice(b"end ")?;
            out.extend_from_slice(word_of(*ending))?;
            Ok(())
        }
    }
}

/// Appends the text of the line of a node.
fn print_node(node: &NodeLine, out: &mut Vec<u8>) -> Result<(), NoMemory>
    ensures ok { OnOk result (out.new.items ≡ out.old.items ++ line_text (Node node.now)) }
    ensures err { OnErr result (IsCutOff out.old.items (line_text (Node node.now)) out.new.items) }
{
    out.extend_from_slice(b"node ")?;
    print_quoted(node.relation.as_slice(), out)?;
    out.extend_from_slice(b" ")?;
    print_quoted(node.rule.as_slice(), out)?;
    out.extend_from_slice(b" () () (")?;
    print_values(node.values.as_slice(), out)?;
    out.extend_from_slice(b")")?;
    Ok(())
}

/// Appends the texts of the values, with one space between them.
fn print_values(values: &[Value], out: &mut Vec<u8>) -> Result<(), NoMemory>
    ensures ok { OnOk result (out.new.items ≡ out.old.items ++ row_text (value_trees values.now)) }
    ensures err { OnErr result
        (IsCutOff out.old.items (row_text (value_trees values.now)) out.new.items) }
{
    let Some((first, others)) = values.split_first() else {
        return Ok(());
    };
    print_value(first, out)?;
    print_behind(others, out)
}

/// Appends the texts of the values, with a space before each.
fn print_behind(values: &[Value], out: &mut Vec<u8>) -> Result<(), NoMemory>
    ensures ok { OnOk result (out.new.items ≡ out.old.items ++ behind (value_trees values.now)) }
    ensures err { OnErr result
        (IsCutOff out.old.items (behind (value_trees values.now)) out.new.items) }
{
    for value in values {
        out.push(b' ')?;
        print_value(value, out)?;
    }
    Ok(())
}

/// Appends the text of a value that is a case without operands.
fn print_value(value: &Value, out: &mut Vec<u8>) -> Result<(), NoMemory>
    ensures ok { OnOk result (out.new.items ≡ out.old.items ++ text (value_tree value.now)) }
    ensures err { OnErr result
        (IsCutOff out.old.items (text (value_tree value.now)) out.new.items) }
{
    out.extend_from_slice(b"(c ")?;
    print_quoted(tag_of(value), out)?;
    out.push(b')')?;
    Ok(())
}

/// The tag of a case; other values have none.
fn tag_of(value: &Value) -> &[u8]
    ensures { result.now ≡ tag_of value.now }
{
    match value {
        Value::Case(tag, _) => tag.as_slice(),
        Value::Bool(_)
        | Value::Num(_)
        | Value::Text(_)
        | Value::Fields(_)
        | Value::Tuple(_)
        | Value::List(_)
        | Value::Opt(_) => b"",
    }
}

/// The word of how a run ended.
fn word_of(ending: Ending) -> &'static [u8]
    ensures { result.now ≡ ending_word ending }
{
    match ending {
        Ending::Stuck => b"stuck",
        Ending::Fuel => b"fuel",
        Ending::Depth => b"depth",
    }
}
