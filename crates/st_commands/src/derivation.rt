//! Derivations: a run, with a tree for each of its steps.

ghost use Rattle.std.specs.Prelude.{◌≡◌, ◌+◌, ◌∷◌, [], ◌++◌, length, All, Contains, IfOk, OnOk};
ghost use Rattle.st_deriv.specs.LineText.{HasText, lines_text};
ghost use Rattle.st_il.specs.Small.{IsSmall, il_of};
ghost use Rattle.st_commands.specs.Derivation.{last_line};
ghost use Rattle.st_commands.specs.inner.Nodes.{rule_node};
ghost use Rattle.st_commands.specs.Derived.{IsDerivationText};
ghost use Rattle.st_runs.specs.Transcript.{atom_term, status_of};

use crate::step::next_rule;
use st_answers::Answer;
use st_deriv::{Ending as LastLine, Line, NodeLine, print_lines};
use st_il::{Env, Small, SmallRule, Value};
use st_num::{Name, NoMemory, Row};
use st_runs::Ending;
use std::alloc::Global;

/// The most steps of a derivation.
const FUEL: u64 = 1000;

/// Derives a run of a specification from an atom: every step by a tree.
pub fn derive(alloc: Global, small: &Small, start: &Name) -> Result<Answer, NoMemory>
    requires small { IsSmall small.now }
    requires known { Contains small.now.atoms start.now }
    ensures { IfOk result (λ answer. IsDerivationText small.now
        start.now answer.status answer.bytes.items) }
{
    let mut lines = first_lines(alloc, small, start)?;
    let mut atom = start;
    for _ in 0..FUEL {
        match next_rule(small, atom) {
            None => return ended(alloc, lines, Ending::Stuck),
            Some(rule) => {
                push_step(alloc, &mut lines, small, rule)?;
                atom = &rule.to;
            }
        }
    }
    let ending = match next_rule(small, atom) {
        None => Ending::Stuck,
        Some(_) => Ending::Fuel,
    };
    ended(alloc, lines, ending)
}

/// The value of an atom.
fn atom_value(alloc: Global, atom: &Name) -> Result<Value, NoMemory>
    ensures { IfOk result (λ value. value ≡ Value.Case atom.now []) }
{
    let tag = Name::from_slice(alloc, atom.as_slice())?;
    Ok(Value::Case(tag, Row::new(alloc)))
}

/// The lines before the first step.
fn first_lines(alloc: Global, small: &Small, start: &Name) -> Result<Row<Line>, NoMemory>
    ensures { IfOk result (λ lines. lines ≡ Line.Head 1 small.now.relation
        ∷ Line.From (atom_term start.now) ∷ []) }
{
    let relation = Name::from_slice(alloc, small.relation.as_slice())?;
    let mut values = Row::new(alloc);
    values.push(atom_value(alloc, start)?)?;
    let mut lines = Row::new(alloc);
    lines.push(Line::Head {
        format: 1,
        relation,
    })?;
    lines.push(Line::From(values))?;
    Ok(lines)
}

/// The node by a rule.
fn node_of(alloc: Global, relation: &Name, rule: &SmallRule) -> Result<NodeLine, NoMemory>
    ensures { IfOk result (λ node. node ≡ rule_node relation.now rule.now) }
{
    let mut values = Row::new(alloc);
    values.push(atom_value(alloc, &rule.from)?)?;
    values.push(atom_value(alloc, &rule.to)?)?;
    Ok(NodeLine {
        relation: Name::from_slice(alloc, relation.as_slice())?,
        rule: Name::from_slice(alloc, rule.name.as_slice())?,
        env: Env {
            entries: Row::new(alloc),
        },
        children: Row::new(alloc),
        values,
        evidence: None,
    })
}

/// Appends the node by a rule, and the step that names it.
fn push_step(
    alloc: Global,
    lines: &mut Row<Line>,
    small: &Small,
    rule: &SmallRule,
) -> Result<(), NoMemory>
    ensures { OnOk result
        (lines.new ≡ lines.old ++ Line.Node (rule_node small.now.relation rule.now)
        ∷ Line.Step (length lines.old + 1) ∷ []) }
{
    lines.push(Line::Node(node_of(alloc, &small.relation, rule)?))?;
    let number = lines.len() as u128;
    lines.push(Line::Step(number))
}

/// How the last line says that a run ended.
fn last_line(ending: Ending) -> LastLine
    ensures { result ≡ last_line ending }
{
    match ending {
        Ending::Stuck => LastLine::Stuck,
        Ending::Fuel => LastLine::Fuel,
    }
}

/// The answer of a derivation to which the last line is wanting.
fn ended(alloc: Global, mut lines: Row<Line>, ending: Ending) -> Result<Answer, NoMemory>
    requires { All HasText lines }
    ensures status { IfOk result (λ answer. answer.status ≡ status_of ending) }
    ensures bytes { IfOk result (λ answer. answer.bytes.items
        ≡ lines_text (lines ++ Line.End (last_line ending) ∷ [])) }
{
    lines.push(Line::End(last_line(ending)))?;
    let mut bytes = Vec::new(alloc);
    print_lines(lines.as_slice(), &mut bytes)?;
    Ok(Answer {
        status: ending.status(),
        bytes,
    })
}
