//! Derivations of a small specification that are refused for what no text of a line has yet.

ghost use Rattle.st_il.specs.Small.{IsSmallIl};

use st_deriv::{Line, NodeLine, Ref, read_line};
use st_il::{Il, Value};
use st_ilread::read_il;
use st_num::{Name, NoMemory, Row};
use st_small::is_small_il;
use st_text::TextFault;
use st_verify::{Accepted, Verifier, VerifyFault, VerifyRule};
use std::alloc::Global;
use std::process::Abort;
use std::test::Fail;

/// A light, which goes from red to green and from green to amber.
const LIGHT: &[u8] = b"(syntax \"color\" (variant (case \"RED\") (case \"GREEN\") (case \"AMBER\")))
(relation \"T\" \"% ~> %\" ((n \"color\") (n \"color\")) (mode))
(rule \"T\" \"a\" () ((case \"color\" \"RED\") (case \"color\" \"GREEN\")))
(rule \"T\" \"b\" () ((case \"color\" \"GREEN\") (case \"color\" \"AMBER\")))
";

/// The first lines of a derivation of the run from red.
const LINES: [&[u8]; 4] = [b"derivation 1 T", b"from (c \"RED\")", NODE, b"step 3"];

const NODE: &[u8] = b"node \"T\" \"a\" () () ((c \"RED\") (c \"GREEN\"))";

/// What is put into a node.
#[derive(Clone, Copy)]
enum Odd {
    Nothing,
    Binding,
    Evidence,
    Child(u128),
}

/// How many lines of the derivation are taken, what is put into the node behind them, and the rule
/// by which it is refused.
const REFUSED: [(usize, Odd, VerifyRule); 4] = [
    (2, Odd::Binding, VerifyRule::V6),
    (4, Odd::Child(5), VerifyRule::V4),
    (4, Odd::Child(3), VerifyRule::V9),
    (2, Odd::Evidence, VerifyRule::V10),
];

/// Whether there is enough memory to put it there.
fn put(alloc: Global, odd: Odd, node: &mut NodeLine) -> Result<(), NoMemory> {
    match odd {
        Odd::Nothing => {}
        Odd::Binding => {
            let name = Name::from_slice(alloc, b"x")?;
            node.env.entries.push((name, Value::Bool(true)))?;
        }
        Odd::Evidence => node.evidence = Some(Row::new(alloc)),
        Odd::Child(line) => node.children.push(Ref::Line(line))?,
    }
    Ok(())
}

/// The line of the text, with what is put into it where it is a node.
fn line_of(alloc: Global, text: &[u8], odd: Odd) -> Result<Line, TextFault> {
    match read_line(alloc, text)? {
        Line::Node(mut node) => {
            put(alloc, odd, &mut node)?;
            Ok(Line::Node(node))
        }
        line => Ok(line),
    }
}

/// The lines of the texts, and a node behind them.
fn lines_of(alloc: Global, front: &[&[u8]], odd: Odd) -> Result<Row<Line>, TextFault> {
    let mut lines = Row::new(alloc);
    for text in front {
        lines.push(line_of(alloc, *text, Odd::Nothing)?)?;
    }
    lines.push(line_of(alloc, NODE, odd)?)?;
    Ok(lines)
}

fn verify(rt: &impl Abort, alloc: Global, il: Il, lines: &[Line]) -> Result<Accepted, VerifyFault>
    requires { IsSmallIl il }
{
    assert!(rt; lines.len() < 100);
    let mut verifier = Verifier::new(alloc, il)?;
    for line in lines {
        verifier.judge(alloc, line)?;
    }
    verifier.finish()
}

/// The answer to the lines, in the language of the light.
fn answer(rt: &impl Abort, alloc: Global, lines: &Row<Line>) -> Result<Accepted, VerifyFault> {
    let Ok(il) = read_il(alloc, LIGHT) else {
        return Err(VerifyFault::Memory);
    };
    if !is_small_il(alloc, &il)? {
        return Err(VerifyFault::Memory);
    }
    verify(rt, alloc, il, lines.as_slice())
}

#[test]
fn a_wrong_node_is_refused_by_its_rule(rt: HostRuntime) -> Result<(), Fail> {
    for (kept, odd, rule) in &REFUSED {
        let front = LINES.get(..*kept).ok_or("fewer lines")?;
        let lines = lines_of(rt.alloc(), front, *odd)?;
        let refusal = VerifyFault::Refused {
            rule: *rule,
            line: *kept as u64 + 1,
            typing: None,
        };
        assert!(rt;
            answer(&rt, rt.alloc(), &lines) == Err(refusal),
            "{kept} {rule:?}"
        );
    }
    Ok(())
}
