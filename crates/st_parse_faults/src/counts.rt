//! What is counted between parts: definitions, premises, members of a body, and iterations.

ghost use Rattle.std.specs.Prelude as Prelude;
ghost use Rattle.std.specs.Prelude.{◌≡◌, reverse};
ghost use Rattle.st_parse_faults.specs.inner.Counts as spec;
ghost use Rattle.st_parse_faults.specs.inner.Seen as seen;
ghost use Rattle.st_parse_automaton.specs.inner.Readings.{progress_of, reading_of};

use crate::role::none_open;
use st_grammar::Bracket;
use st_num::{MOST_DEFINITIONS, MOST_PARTS, MOST_PREMISES, MOST_SIGNS, Row};
use st_parse_automaton::{IterationState, Position, Progress, Reading, Slot};

/// What a token begins between parts.
#[derive(Clone, Copy, Debug, PartialEq, Eq)]
pub enum Event {
    Definition,
    Premise,
    /// An alternative, a field of a body, or an argument of a definition.
    Member,
    /// An iteration behind a premise in parentheses.
    Iteration,
    /// Nothing: it closes such parentheses.
    Closed,
    Nothing,
}

/// How many definitions, premises, members and iterations are begun.
#[derive(Clone, Copy, Debug, PartialEq, Eq)]
pub struct Counts {
    pub definitions: u32,
    /// Of the rule or clause.
    pub premises: u32,
    /// Alternatives or fields of the body, or arguments.
    pub members: u32,
    /// Iterations in a row behind the innermost premise in parentheses.
    pub iterations: u32,
}

/// Whether a part that the next token begins is an alternative, a field or an argument.
pub(crate) fn member_due(progress: &Progress) -> bool
    ensures { result ≡ seen.member_due (progress_of progress.now) }
{
    match progress {
        Progress::At(here) => matches!(
            here.position,
            Position::Entering(_) | Position::FieldName(_)
        ),
        Progress::Inside(Slot::Argument(_, _), reading, _) => none_open(reading),
        Progress::Inside(_, _, _) => false,
    }
}

/// What a token begins that leads to this position.
fn event_at(position: Position, brackets: &Row<Bracket>) -> Event
    ensures { result ≡ seen.event_at position (reverse brackets.now) }
{
    match position {
        Position::SyntaxName
        | Position::RelationName
        | Position::RuleName
        | Position::VarName
        | Position::FunName => Event::Definition,
        Position::PremiseOpen => match brackets.as_slice().last() {
            None => Event::Premise,
            Some(_) => Event::Nothing,
        },
        Position::Iterated(IterationState::Complete) => Event::Iteration,
        Position::Iterated(IterationState::Wanted) => Event::Closed,
        _ => Event::Nothing,
    }
}

/// What a token begins that leads into a part, where a member was due or not.
fn event_inside(due: bool, slot: Slot, reading: &Reading) -> Event
    ensures { result ≡ seen.event_inside due slot (reading_of reading.now) }
{
    match slot {
        Slot::Count if none_open(reading) => Event::Iteration,
        _ => { if due { Event::Member } else { Event::Nothing } }
    }
}

/// What a token begins that leads to this, where a member was due or not.
pub(crate) fn event_of(due: bool, next: &Progress) -> Event
    ensures { result ≡ seen.event due (progress_of next.now) }
{
    match next {
        Progress::At(here) => event_at(here.position, &here.brackets),
        Progress::Inside(slot, reading, _) => event_inside(due, *slot, reading),
    }
}

/// The counts behind what a token begins.
pub(crate) fn counts_after(counts: Counts, event: Event) -> Counts
    requires { seen.Kept counts }
    ensures { result ≡ spec.counts_after counts event }
{
    match event {
        Event::Definition => Counts {
            definitions: counts.definitions + 1,
            premises: 0,
            members: 0,
            iterations: 0,
        },
        Event::Premise => Counts {
            premises: counts.premises + 1,
            iterations: 0,
            ..counts
        },
        Event::Member => Counts {
            members: counts.members + 1,
            ..counts
        },
        Event::Iteration => Counts {
            iterations: counts.iterations + 1,
            ..counts
        },
        Event::Closed => Counts {
            iterations: 0,
            ..counts
        },
        Event::Nothing => counts,
    }
}

/// Whether one of the numbers passes its limit.
pub(crate) fn counts_pass(counts: Counts) -> bool
    ensures value { result ≡ spec.counts_pass counts }
    ensures kept { result ≡ Prelude.false → seen.Kept counts }
{
    counts.definitions > u32::from(MOST_DEFINITIONS)
        || counts.premises > u32::from(MOST_PREMISES)
        || counts.members > u32::from(MOST_PARTS)
        || counts.iterations > u32::from(MOST_SIGNS)
}
