//! The text of a chain, where a search came to its depth.

ghost use Rattle.std.specs.Prelude.{◌≡◌, ◌++◌, flat_map, IfOk, OnOk};
ghost use Rattle.st_runs.specs.RunTexts.{goal_line, cut_line, chain_text, deep_text};

use itoa::Buffer;
use st_answers::{Answer, Status};
use st_il::Value;
use st_num::{Name, NoMemory, Row};
use st_search::Chain;
use st_term::print_term;
use std::alloc::Global;

/// Adds the line of a goal.
fn add_goal(
    alloc: Global,
    relation: &Name,
    inputs: &[Value],
    bytes: &mut Vec<u8>,
) -> Result<(), NoMemory>
    ensures { OnOk result
        (bytes.new.items ≡ bytes.old.items ++ goal_line (relation.now, inputs.now)) }
{
    bytes.extend_from_slice(b"  ")?;
    bytes.extend_from_slice(relation.as_slice())?;
    bytes.extend_from_slice(b" ")?;
    print_term(alloc, inputs, bytes)?;
    bytes.extend_from_slice(b"\n")?;
    Ok(())
}

/// Adds the lines of goals.
fn add_goals(
    alloc: Global,
    goals: &[(Name, Row<Value>)],
    bytes: &mut Vec<u8>,
) -> Result<(), NoMemory>
    ensures { OnOk result (bytes.new.items ≡ bytes.old.items ++ flat_map goal_line goals.now) }
{
    for goal in goals {
        add_goal(alloc, &goal.0, goal.1.as_slice(), bytes)?;
    }
    Ok(())
}

/// Adds the line of where a chain is cut, if it is.
fn add_cut(at: &Option<(Name, u32)>, bytes: &mut Vec<u8>) -> Result<(), NoMemory>
    ensures { OnOk result (bytes.new.items ≡ bytes.old.items ++ cut_line at.now) }
{
    if let Some(cut) = at {
        let mut buffer = Buffer::new();
        bytes.extend_from_slice(b"  value ")?;
        bytes.extend_from_slice(cut.0.as_slice())?;
        bytes.extend_from_slice(b" premise ")?;
        bytes.extend_from_slice(buffer.format(cut.1).as_bytes())?;
        bytes.extend_from_slice(b"\n")?;
    }
    Ok(())
}

/// Adds the lines of a chain.
fn add_chain(alloc: Global, chain: &Chain, bytes: &mut Vec<u8>) -> Result<(), NoMemory>
    ensures { OnOk result (bytes.new.items ≡ bytes.old.items ++ chain_text chain.now) }
{
    add_goals(alloc, chain.goals.as_slice(), bytes)?;
    add_cut(&chain.at, bytes)
}

/// The answer, behind what is printed, where a search came to this depth by a chain.
pub fn deep(
    alloc: Global,
    mut bytes: Vec<u8>,
    depth: u32,
    chain: &Chain,
) -> Result<Answer, NoMemory>
    ensures status { IfOk result (λ answer. answer.status ≡ Status.Depth) }
    ensures bytes { IfOk result (λ answer. answer.bytes.items
        ≡ bytes.items ++ deep_text depth chain.now) }
{
    let mut buffer = Buffer::new();
    bytes.extend_from_slice(b"depth ")?;
    bytes.extend_from_slice(buffer.format(depth).as_bytes())?;
    bytes.extend_from_slice(b"\n")?;
    add_chain(alloc, chain, &mut bytes)?;
    Ok(Answer {
        status: Status::Depth,
        bytes,
    })
}
