//! How lines are read.

ghost use Rattle.std.specs.Prelude.{codes};
ghost use Rattle.st_text.specs.Text.{word, more};
ghost use Rattle.st_text.specs.Reading.{Answers};
ghost use Rattle.st_text.specs.Trees.{trees_of};
ghost use Rattle.st_deriv.specs.LineText.{LineText};
ghost use Rattle.st_deriv.specs.inner.Reading.{AnswersLine, AnswersValues};
ghost use Rattle.st_deriv.specs.LineText.{IsNoLine};

use crate::fault::MALFORMED;
use crate::part::{
    case_of, ending_of, is_empty_list, is_word, list_of, number_of, quote_of, relation_of,
};
use crate::{Line, NodeLine};
use st_il::{Env, Value};
use st_num::{Name, Row};
use st_text::{TextFault, TextTree, read_row};
use std::alloc::Global;

/// The line whose text the bytes are, without its line feed.
#[tactic(auto, using(crate::proofs::Whole::no_row))]
pub fn read_line(alloc: Global, bytes: &[u8]) -> Result<Line, TextFault>
    ensures { Answers result (λ line. LineText line bytes.now) (IsNoLine bytes.now) }
{
    let trees = read_row(alloc, bytes)?;
    read_trees(alloc, trees.as_slice())
}

/// The line that is printed as these trees.
fn read_trees(alloc: Global, trees: &[TextTree]) -> Result<Line, TextFault>
    ensures { AnswersLine (trees_of trees.now) result }
{
    let Some((kind, parts)) = trees.split_first() else {
        return Err(MALFORMED);
    };
    if is_word(kind, b"derivation") {
        return read_head(alloc, parts);
    }
    if is_word(kind, b"from") {
        return read_from(alloc, parts);
    }
    if is_word(kind, b"node") {
        return read_node(alloc, parts);
    }
    if is_word(kind, b"step") {
        return read_step(parts);
    }
    if is_word(kind, b"end") {
        return read_end(parts);
    }
    Err(MALFORMED)
}

/// The line of what stands behind `derivation`.
fn read_head(alloc: Global, parts: &[TextTree]) -> Result<Line, TextFault>
    ensures { AnswersLine (more (word (codes "derivation")) (trees_of parts.now)) result }
{
    let [format, relation] = parts else {
        return Err(MALFORMED);
    };
    if !is_word(format, b"1") {
        return Err(MALFORMED);
    }
    let Some(relation) = relation_of(relation) else {
        return Err(MALFORMED);
    };
    let relation = Name::from_slice(alloc, relation)?;
    Ok(Line::Head {
        format: 1,
        relation,
    })
}

/// The line of what stands behind `from`.
#[tactic(auto, using(crate::proofs::LineKinds::from_none, crate::proofs::LineKinds::from_answer))]
fn read_from(alloc: Global, parts: &[TextTree]) -> Result<Line, TextFault>
    ensures { AnswersLine (more (word (codes "from")) (trees_of parts.now)) result }
{
    let values = read_values(alloc, parts)?;
    Ok(Line::From(values))
}

/// The line of what stands behind `node`.
fn read_node(alloc: Global, parts: &[TextTree]) -> Result<Line, TextFault>
    ensures { AnswersLine (more (word (codes "node")) (trees_of parts.now)) result }
{
    let [relation, rule, bindings, children, values] = parts else {
        return Err(MALFORMED);
    };
    let Some(relation) = quote_of(relation) else {
        return Err(MALFORMED);
    };
    let Some(rule) = quote_of(rule) else {
        return Err(MALFORMED);
    };
    if !is_empty_list(bindings) {
        return Err(MALFORMED);
    }
    if !is_empty_list(children) {
        return Err(MALFORMED);
    }
    let Some(values) = list_of(values) else {
        return Err(MALFORMED);
    };
    let values = read_values(alloc, values)?;
    let relation = Name::from_slice(alloc, relation)?;
    let rule = Name::from_slice(alloc, rule)?;
    let entries = Row::new(alloc);
    Ok(Line::Node(NodeLine {
        relation,
        rule,
        env: Env { entries },
        children: Row::new(alloc),
        values,
        evidence: None,
    }))
}

/// The line of what stands behind `step`.
fn read_step(parts: &[TextTree]) -> Result<Line, TextFault>
    ensures { AnswersLine (more (word (codes "step")) (trees_of parts.now)) result }
{
    let [number] = parts else {
        return Err(MALFORMED);
    };
    let Some(number) = number_of(number) else {
        return Err(MALFORMED);
    };
    Ok(Line::Step(number))
}

/// The line of what stands behind `end`.
fn read_end(parts: &[TextTree]) -> Result<Line, TextFault>
    ensures { AnswersLine (more (word (codes "end")) (trees_of parts.now)) result }
{
    let [ending] = parts else {
        return Err(MALFORMED);
    };
    let Some(ending) = ending_of(ending) else {
        return Err(MALFORMED);
    };
    Ok(Line::End(ending))
}

/// The values that are printed as these trees.
#[tactic(auto, using(crate::proofs::Values::value_steps))]
fn read_values(alloc: Global, trees: &[TextTree]) -> Result<Row<Value>, TextFault>
    ensures { AnswersValues (trees_of trees.now) result }
{
    let mut values = Row::new(alloc);
    for tree in trees {
        let Some(tag) = case_of(tree) else {
            return Err(MALFORMED);
        };
        let tag = Name::from_slice(alloc, tag)?;
        values.push(Value::Case(tag, Row::new(alloc)))?;
    }
    Ok(values)
}
