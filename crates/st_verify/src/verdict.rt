//! The first rule that a line breaks.

ghost use Rattle.std.specs.Prelude.{◌≡◌, ◌↔◌, IsTrue, All, flat_map};
ghost use Rattle.st_semantics.specs.Verdict.{IsInPlace, IsNode};
ghost use Rattle.st_verify.specs.SmallVerdict.{small_inputs, IsKnown, HasTypedValues, child_lines, lines_cited, HasItsValues, HasItsChildren, HasItsEvidence, GoesOn, Keeps, FirstBreach};

use crate::known::{has_rule, is_declared};
use crate::noted::noted_on;
use crate::typed::{is_concluded, is_term};
use crate::{Notes, VerifyRule};
use st_deriv::{Line, Ref};
use st_il::{Il, Value, same_values};

/// The rules on a line, in the order in which they are asked.
const RULES_ON_LINES: [VerifyRule; 8] = [
    VerifyRule::V3,
    VerifyRule::V5,
    VerifyRule::V6,
    VerifyRule::V4,
    VerifyRule::V7,
    VerifyRule::V9,
    VerifyRule::V10,
    VerifyRule::V11,
];

/// Whether the line stands where a line of its kind belongs.
fn is_in_place(notes: &Notes, line: &Line) -> bool
    ensures { IsTrue result ↔ IsInPlace notes.now line.now }
{
    let before = notes.lines.len();
    match line {
        Line::Head {
            format,
            relation: _,
        } => before == 0 && !notes.ended && *format == 1,
        Line::From(_) => before == 1 && !notes.ended,
        Line::Node(_) | Line::Step(_) | Line::End(_) => before >= 2 && !notes.ended,
    }
}

/// Whether the relation and the rule that the line names are there.
fn is_known(il: &Il, line: &Line) -> bool
    ensures { IsTrue result ↔ IsKnown il.now line.now }
{
    match line {
        Line::Head {
            format: _,
            relation,
        } => is_declared(il, relation),
        Line::Node(node) => {
            is_declared(il, &node.relation) && has_rule(il, &node.relation, &node.rule)
        }
        Line::From(_) | Line::Step(_) | Line::End(_) => true,
    }
}

/// Whether the values that the line gives to inputs or variables are typed.
fn has_typed_values(il: &Il, notes: &Notes, line: &Line) -> bool
    ensures { IsTrue result ↔ HasTypedValues il.now notes.now line.now }
{
    match line {
        Line::From(values) => is_term(il, &notes.relation, values),
        Line::Node(node) => node.env.entries.is_empty(),
        Line::Head {
            format: _,
            relation: _,
        }
        | Line::Step(_)
        | Line::End(_) => true,
    }
}

/// Whether that line is noted as a node.
fn is_node(notes: &Notes, line: u128) -> bool
    ensures { IsTrue result ↔ IsNode notes.now line }
{
    noted_on(notes, line).is_some()
}

/// Whether a child refers to nodes alone.
#[cycle(child)]
fn is_child(child: &Ref, notes: &Notes) -> bool
    ensures { IsTrue result ↔ All (IsNode notes.now) (child_lines child.now) }
{
    match child {
        Ref::Line(line) => is_node(notes, *line),
        Ref::Many(children) => are_children(children.as_slice(), notes),
    }
}

/// Whether children refer to nodes alone.
#[cycle(child)]
fn are_children(children: &[Ref], notes: &Notes) -> bool
    ensures { IsTrue result ↔ All (IsNode notes.now) (flat_map child_lines children.now) }
{
    for child in children {
        if !is_child(child, notes) {
            return false;
        }
    }
    true
}

/// Whether the line refers to nodes alone.
fn cites_nodes(notes: &Notes, line: &Line) -> bool
    ensures { IsTrue result ↔ All (IsNode notes.now) (lines_cited line.now) }
{
    match line {
        Line::Step(number) => is_node(notes, *number),
        Line::Node(node) => are_children(node.children.as_slice(), notes),
        Line::Head {
            format: _,
            relation: _,
        }
        | Line::From(_)
        | Line::End(_) => true,
    }
}

/// Whether the conclusion of the node's rule has the values that the line states.
fn has_its_values(il: &Il, line: &Line) -> bool
    ensures { IsTrue result ↔ HasItsValues il.now line.now }
{
    match line {
        Line::Node(node) => is_concluded(il, node),
        Line::Head {
            format: _,
            relation: _,
        }
        | Line::From(_)
        | Line::Step(_)
        | Line::End(_) => true,
    }
}

/// Whether a node has a child for each premise that cites a relation.
fn has_its_children(line: &Line) -> bool
    ensures { IsTrue result ↔ HasItsChildren line.now }
{
    match line {
        Line::Node(node) => node.children.is_empty(),
        Line::Head {
            format: _,
            relation: _,
        }
        | Line::From(_)
        | Line::Step(_)
        | Line::End(_) => true,
    }
}

/// Whether a node has evidence exactly where its rule has an `otherwise`.
fn has_its_evidence(line: &Line) -> bool
    ensures { IsTrue result ↔ HasItsEvidence line.now }
{
    match line {
        Line::Node(node) => node.evidence.is_none(),
        Line::Head {
            format: _,
            relation: _,
        }
        | Line::From(_)
        | Line::Step(_)
        | Line::End(_) => true,
    }
}

/// Whether the values are the inputs of a judgement.
fn are_inputs(term: &[Value], values: &[Value]) -> bool
    ensures { IsTrue result ↔ (term.now ≡ small_inputs values.now) }
{
    let inputs = &values[..values.len().min(1)];
    same_values(term, inputs)
}

/// Whether a step's node is of the relation of the first line, and its inputs are the current term.
fn goes_on(notes: &Notes, line: &Line) -> bool
    ensures { IsTrue result ↔ GoesOn notes.now line.now }
{
    match line {
        Line::Step(number) => match (noted_on(notes, *number), &notes.relation, &notes.term) {
            (Some(judgement), Some(relation), Some(term)) => {
                *relation == judgement.relation
                    && are_inputs(term.as_slice(), judgement.values.as_slice())
            }
            _ => false,
        },
        Line::Head {
            format: _,
            relation: _,
        }
        | Line::From(_)
        | Line::Node(_)
        | Line::End(_) => true,
    }
}

/// Whether the line keeps a rule.
fn keeps(il: &Il, notes: &Notes, line: &Line, rule: VerifyRule) -> bool
    ensures { IsTrue result ↔ Keeps il.now notes.now line.now rule }
{
    match rule {
        VerifyRule::V3 => is_in_place(notes, line),
        VerifyRule::V4 => cites_nodes(notes, line),
        VerifyRule::V5 => is_known(il, line),
        VerifyRule::V6 => has_typed_values(il, notes, line),
        VerifyRule::V7 => has_its_values(il, line),
        VerifyRule::V9 => has_its_children(line),
        VerifyRule::V10 => has_its_evidence(line),
        VerifyRule::V11 => goes_on(notes, line),
        VerifyRule::V1 | VerifyRule::V2 | VerifyRule::V8 | VerifyRule::V12 | VerifyRule::V13 =>
            true,
    }
}

/// The first rule that the line breaks, if any.
pub fn broken_rule(il: &Il, notes: &Notes, line: &Line) -> Option<VerifyRule>
    ensures { FirstBreach il.now notes.now line.now result }
{
    for rule in RULES_ON_LINES {
        if !keeps(il, notes, line, rule) {
            return Some(rule);
        }
    }
    None
}
