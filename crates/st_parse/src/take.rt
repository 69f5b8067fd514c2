//! What a token makes of what is kept, once it is known where it leads.

ghost use Rattle.std.specs.Prelude.{◌≡◌, [], ◌++◌, length, List, Some, IfOk};
ghost use Rattle.st_el.specs.declared.definition.Def.{Def};
ghost use Rattle.st_grammar.specs.declared.sort.Bracket.{Bracket};
ghost use Rattle.st_parse_automaton.specs.inner.PartAutomaton as automaton;
ghost use Rattle.st_parse_automaton.specs.inner.Readings.{progress_of, reading_of};
ghost use Rattle.st_parse_builder.specs.Variables.{Occurrence};
ghost use Rattle.st_parse.specs.declared.draft.Draft.{Draft};
ghost use Rattle.st_parse.specs.inner.Changes.{change_of};
ghost use Rattle.st_parse.specs.inner.Drafts.{arguments_after};
ghost use Rattle.st_parse.specs.inner.Ready.{Ready, Awaits};
ghost use Rattle.st_parse.specs.inner.Work as spec;
ghost use Rattle.st_parse.specs.inner.Work.{Work};
ghost use Rattle.st_parse.specs.inner.Cuts.{Parted, Opens, Counts, past_in};
ghost use Rattle.st_parse.specs.inner.Kept.{Keeps, Tells};

use crate::change::{Change, change_of, ending_of};
use crate::kept::{Kept, change_kept, end_kept, fill_kept};
use crate::parts::{PartToken, Parts};
use crate::variables::{count, note_cut};
use st_grammar::{Action, TokenRef};
use st_num::{NoMemory, Row, Token};
use st_parse_automaton::{
    Advance, Position, Progress, Reading, Slot, TokenClass, end, filled, part_end, with_actions,
};
use std::alloc::Global;
use std::mem::replace;

/// Keeps a token of a count.
fn keep_word<'a>(
    slot: Slot,
    class: TokenClass,
    token: &'a Token,
    parts: &mut Parts<'a>,
) -> Result<(), NoMemory>
    ensures { (draft : Draft) → IfOk result (λ _. spec.work_of draft parts.new
        ≡ spec.worded_work slot class token.now (spec.work_of draft parts.old)) }
{
    match slot {
        Slot::Count => parts.words.push(PartToken {
            class,
            token: TokenRef::new(token),
        }),
        _ => Ok(()),
    }
}

/// Puts these actions behind the others, and gives them up.
pub(crate) fn add_actions<'a>(
    alloc: Global,
    added: &mut Row<Action<'a>>,
    actions: &mut Row<Action<'a>>,
) -> Result<(), NoMemory>
    ensures { IfOk result (λ _. actions.new ≡ actions.old ++ added.old) }
{
    let before = replace(actions, Row::new(alloc));
    let more = replace(added, Row::new(alloc));
    let joined = with_actions(before, more)?;
    let _taken = replace(actions, joined);
    Ok(())
}

/// Adds these actions to those of the part.
fn add<'a>(
    alloc: Global,
    added: &mut Row<Action<'a>>,
    parts: &mut Parts<'a>,
) -> Result<(), NoMemory>
    ensures { (draft : Draft) → IfOk result (λ _. spec.work_of draft parts.new
        ≡ spec.added_work added.old (spec.work_of draft parts.old)) }
{
    add_actions(alloc, added, &mut parts.actions)
}

/// Adds the actions of the end of the part.
fn add_end<'a>(reading: &Reading, parts: &mut Parts<'a>) -> Result<(), NoMemory>
    ensures { (draft : Draft) → IfOk result (λ _. spec.work_of draft parts.new
        ≡ spec.added_work (automaton.finishing (reading_of reading.now))
        (spec.work_of draft parts.old)) }
{
    end(reading, &mut parts.actions)
}

/// The arguments are given up where they are built.
fn drop_arguments<'a>(alloc: Global, change: Change, parts: &mut Parts<'a>)
    ensures arguments { parts.new.arguments ≡ arguments_after change parts.old.arguments }
    ensures actions { parts.new.actions ≡ parts.old.actions }
    ensures words { parts.new.words ≡ parts.old.words }
{
    match change {
        Change::Params | Change::Args => {
            let _given = replace(&mut parts.arguments, Row::new(alloc));
        }
        _ => {}
    }
}

/// A token between parts changes the draft and the arguments.
fn redraft<'a>(
    alloc: Global,
    position: Position,
    next: &Progress,
    class: TokenClass,
    token: &Token,
    kept: &mut Kept<'a>,
    parts: &mut Parts<'a>,
) -> Result<(), NoMemory>
    ensures { (before after : Work) → Keeps kept.old parts.old before
        → Ready (change_of position (progress_of next.now)) before.draft
        → spec.redrafted_work (progress_of next.now) position class token.now before ≡ Some after
        → IfOk result (λ _. Keeps kept.new parts.new after) }
{
    let change = change_of(position, next);
    let arguments = parts.arguments.as_slice();
    change_kept(alloc, change, class.shape, token, arguments, kept)?;
    drop_arguments(alloc, change, parts);
    Ok(())
}

/// Empties the actions, and keeps their memory for the next part.
fn empty<'a>(alloc: Global, actions: &mut Row<Action<'a>>)
    ensures { actions.new ≡ [] }
{
    let mut items = replace(actions, Row::new(alloc)).into_vec();
    items.clear();
    let _none = replace(actions, Row::from_vec(items));
}

/// The part ends, and what is kept of it is given up, but for the actions of an argument.
fn give_up<'a>(alloc: Global, slot: Slot, parts: &mut Parts<'a>) -> Result<(), NoMemory>
    ensures arguments { IfOk result (λ _. parts.new.arguments
        ≡ spec.arguments_with slot parts.old.actions parts.old.arguments) }
    ensures rest { IfOk result (λ _.
        (parts.new.actions ≡ []) × (parts.new.words ≡ [])) }
{
    let _words = replace(&mut parts.words, Row::new(alloc));
    match slot {
        Slot::Argument(_, _) => {
            let actions = replace(&mut parts.actions, Row::new(alloc));
            parts.arguments.push(actions)
        }
        _ => {
            empty(alloc, &mut parts.actions);
            Ok(())
        }
    }
}

/// A part ends whose actions are all there, with so many brackets open round it.
fn end_part<'a>(
    alloc: Global,
    slot: Slot,
    around: usize,
    kept: &mut Kept<'a>,
    parts: &mut Parts<'a>,
) -> Result<(), NoMemory>
    ensures { (before after : Work) → Keeps kept.old parts.old before
        → Awaits slot before.draft
        → spec.ended_work slot around before ≡ Some after
        → IfOk result (λ _. Keeps kept.new parts.new after) }
{
    let actions = parts.actions.as_slice();
    fill_kept(alloc, slot, around, actions, parts.words.as_slice(), kept)?;
    give_up(alloc, slot, parts)
}

/// Takes a token that stands so and leads there, where its actions are there.
fn turn<'a>(
    alloc: Global,
    advance: Advance,
    next: &Progress,
    class: TokenClass,
    token: &'a Token,
    kept: &mut Kept<'a>,
    parts: &mut Parts<'a>,
) -> Result<(), NoMemory>
    ensures { (before after : Work) → Keeps kept.old parts.old before
        → spec.MayTurn advance (progress_of next.now) before
        → spec.turned_work advance (progress_of next.now) class token.now before ≡ Some after
        → IfOk result (λ _. Keeps kept.new parts.new after) }
{
    match advance {
        Advance::On(slot) => keep_word(slot, class, token, parts),
        Advance::At(position) => redraft(alloc, position, next, class, token, kept, parts),
        Advance::Behind(slot, around, position) => {
            end_part(alloc, slot, around, kept, parts)?;
            redraft(alloc, position, next, class, token, kept, parts)
        }
    }
}

/// Takes a token that stands so and leads there, and adds these actions, which are given up.
pub(crate) fn take<'a>(
    alloc: Global,
    advance: Advance,
    next: &Progress,
    class: TokenClass,
    token: &'a Token,
    added: &mut Row<Action<'a>>,
    kept: &mut Kept<'a>,
    parts: &mut Parts<'a>,
) -> Result<(), NoMemory>
    ensures { (before after : Work) → Keeps kept.old parts.old before
        → spec.MayTurn advance (progress_of next.now) (spec.added_work added.old before)
        → spec.turned_work advance (progress_of next.now) class token.now
        (spec.added_work added.old before)
        ≡ Some after
        → IfOk result (λ _. Keeps kept.new parts.new after) }
{
    add(alloc, added, parts)?;
    turn(alloc, advance, next, class, token, kept, parts)
}

/// The tokens end, and the open definition with them.
pub(crate) fn finish<'a>(
    alloc: Global,
    progress: &Progress,
    kept: &mut Kept<'a>,
    parts: &mut Parts<'a>,
) -> Result<(), NoMemory>
    ensures { (before : Work) (defs : List Def) → Keeps kept.old parts.old before
        → spec.MayClose (progress_of progress.now) before
        → spec.ended_defs (progress_of progress.now) before ≡ Some defs
        → IfOk result (λ _. Tells kept.new defs) }
{
    match progress {
        Progress::At(here) => end_kept(alloc, ending_of(here.position), kept),
        Progress::Inside(slot, reading, brackets) => {
            let Some(part) = part_end(reading) else {
                return Ok(());
            };
            add_end(reading, parts)?;
            end_part(alloc, *slot, brackets.len(), kept, parts)?;
            end_kept(alloc, ending_of(filled(*slot, part)), kept)
        }
    }
}

/// A part ends, or is cut off where it may not.
fn part_off<'a>(
    alloc: Global,
    slot: Slot,
    around: usize,
    reading: &Reading,
    kept: &mut Kept<'a>,
    parts: &mut Parts<'a>,
) -> Result<(), NoMemory>
    ensures { (before : Work) (ks : List Bracket) (vs : List Occurrence)
        → Keeps kept.old parts.old before → around ≡ length ks
        → Parted slot (reading_of reading.now) ks before vs
        (automaton.finish (reading_of reading.now))
        → IfOk result (λ _. Counts kept.new.variables before.draft.defs vs) }
{
    match part_end(reading) {
        Some(_) => {
            add_end(reading, parts)?;
            end_part(alloc, slot, around, kept, parts)
        }
        None => note_cut(alloc, slot, parts.actions.as_slice(), &mut kept.variables),
    }
}

/// What is read is cut off: the variables of the open definition are counted.
pub(crate) fn cut_off<'a>(
    alloc: Global,
    progress: &Progress,
    kept: &mut Kept<'a>,
    parts: &mut Parts<'a>,
) -> Result<(), NoMemory>
    ensures { (before : Work) (vs : List Occurrence) → Keeps kept.old parts.old before
        → Opens (progress_of progress.now) before vs
        → IfOk result (λ _. kept.new.variables.past ≡ past_in before.draft.defs vs) }
{
    if let Progress::Inside(slot, reading, brackets) = progress {
        part_off(alloc, *slot, brackets.len(), reading, kept, parts)?;
    }
    count(alloc, &mut kept.variables)
}
