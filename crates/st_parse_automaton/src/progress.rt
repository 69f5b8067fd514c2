//! Positions, what is open there, and parts that begin and end there.

ghost use Rattle.std.specs.Prelude.{◌≡◌, reverse};
ghost use Rattle.std.specs.Option.{option_map};
ghost use Rattle.st_parse_automaton.specs.inner.DefinitionAutomaton as definitions;
ghost use Rattle.st_parse_automaton.specs.inner.Readings.{progress_of};

use crate::frame::reads_type;
use crate::part_automaton::{Expected, Part, Reading};
use crate::position::{At, Host, IterationState, Position, Progress, Slot};
use st_grammar::{Bracket, Sort};
use st_num::Row;
use std::alloc::Global;

/// The sort of the part that is read for this.
pub fn slot_sort(slot: Slot) -> Sort
    ensures { result ≡ definitions.slot_sort slot }
{
    match slot {
        Slot::Field | Slot::Var | Slot::Fun => Sort::Typ,
        Slot::Case(_) | Slot::Notation => Sort::Notation,
        Slot::Argument(_, _) | Slot::Rule | Slot::Condition => Sort::Expression(false),
        Slot::Count => Sort::Count,
    }
}

/// Whether a `)` stands last behind a condition, which wants an iteration.
pub(crate) fn wants_iteration(iterations: IterationState) -> bool
    ensures { result ≡ definitions.wants_iteration iterations }
{
    matches!(iterations, IterationState::Wanted)
}

/// Whether a `)` stands behind a condition, perhaps with iterations.
pub(crate) fn has_closed(iterations: IterationState) -> bool
    ensures { result ≡ definitions.has_closed iterations }
{
    match iterations {
        IterationState::None => false,
        IterationState::Wanted | IterationState::Complete => true,
    }
}

/// Whether definitions may end behind this, with its hints.
fn host_whole(host: Host) -> bool
    ensures { result ≡ definitions.host_whole host }
{
    match host {
        Host::Case | Host::Var | Host::Notation | Host::Fun => true,
        Host::Syntax | Host::Field | Host::Relation => false,
    }
}

/// Whether no bracket is open.
pub(crate) fn none_open(brackets: &Row<Bracket>) -> bool
    ensures { result ≡ definitions.is_empty (reverse brackets.now) }
{
    match brackets.as_slice().last() {
        None => true,
        Some(_) => false,
    }
}

/// Whether definitions may end at the position.
pub(crate) fn whole(position: Position, brackets: &Row<Bracket>) -> bool
    ensures { result ≡ definitions.whole position (reverse brackets.now) }
{
    match position {
        Position::Between | Position::Premised => true,
        Position::Hinted(host, _) => host_whole(host),
        Position::Iterated(iterations) => none_open(brackets) && !wants_iteration(iterations),
        _ => false,
    }
}

/// A position with what is open there.
pub(crate) fn at(position: Position, brackets: Row<Bracket>) -> Progress
    ensures { progress_of result ≡ definitions.at position (reverse brackets) }
{
    Progress::At(At { position, brackets })
}

/// A part begins that is read for this.
pub(crate) fn start_of(alloc: Global, slot: Slot, brackets: Row<Bracket>) -> Progress
    ensures { progress_of result ≡ definitions.start_of slot (reverse brackets) }
{
    let reading = Reading {
        expected: Expected::Operand,
        frames: Row::new(alloc),
    };
    Progress::Inside(slot, reading, brackets)
}

/// The position behind a part that is read for this.
pub fn filled(slot: Slot, part: Part) -> Position
    ensures { result ≡ definitions.filled slot part }
{
    match slot {
        Slot::Field => Position::Hinted(Host::Field, false),
        Slot::Case(_) => Position::Hinted(Host::Case, false),
        Slot::Var => Position::Hinted(Host::Var, false),
        Slot::Notation => Position::Hinted(Host::Notation, false),
        Slot::Fun => Position::Hinted(Host::Fun, false),
        Slot::Argument(_, types) => Position::Argued(types && reads_type(part)),
        Slot::Rule => Position::Premised,
        Slot::Condition => Position::Iterated(IterationState::None),
        Slot::Count => Position::Iterated(IterationState::Complete),
    }
}

/// The position, where a test is passed.
pub(crate) fn when(passed: bool, position: Position, brackets: Row<Bracket>) -> Option<Progress>
    ensures { option_map progress_of result
        ≡ definitions.when passed (definitions.at position (reverse brackets)) }
{
    if passed {
        Some(at(position, brackets))
    } else {
        None
    }
}

/// A part begins that is read for this, where a test is passed.
pub(crate) fn begins(
    alloc: Global,
    passed: bool,
    slot: Slot,
    brackets: Row<Bracket>,
) -> Option<Progress>
    ensures { option_map progress_of result
        ≡ definitions.when passed (definitions.start_of slot (reverse brackets)) }
{
    if passed {
        Some(start_of(alloc, slot, brackets))
    } else {
        None
    }
}
