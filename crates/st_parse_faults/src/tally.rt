//! What is counted in a part, between the same brackets.

ghost use Rattle.std.specs.Prelude as Prelude;
ghost use Rattle.std.specs.Prelude.{◌≡◌, ◌∷◌, [], IfOk, reverse};
ghost use Rattle.std.specs.List.{AllByRecursion, list_any};
ghost use Rattle.st_parse_faults.specs.inner.Limits as limits;
ghost use Rattle.st_parse_faults.specs.inner.Roles as roles;
ghost use Rattle.st_parse_automaton.specs.inner.Readings.{progress_of, reading_of};

use crate::role::{Attachment, Shift, TokenRole, none_open, role_of, shift_of};
use st_num::{MOST_PARTS, MOST_SIGNS, NoMemory, Row};
use st_parse_automaton::{Progress, Reading, Shape, Slot};
use std::alloc::Global;
use std::mem::replace;

/// The counts between the same brackets, or bars, so far.
#[derive(Clone, Copy, Debug, PartialEq, Eq)]
pub struct Tally {
    pub parts: u32,
    /// Of the sequence that is read.
    pub elements: u32,
    /// Signs between two sides.
    pub signs: u32,
    /// Prefix signs before an operand, or postfix signs behind one.
    pub row: u32,
    /// Whether a next part is due.
    pub due: bool,
}

/// The tally where no part is begun, and so many signs stand before between the same brackets.
pub(crate) fn fresh(signs: u32) -> Tally
    ensures { result ≡ limits.fresh signs }
{
    Tally {
        parts: 0,
        elements: 0,
        signs,
        row: 0,
        due: true,
    }
}

/// The parts that are begun, with the next one where it is due.
fn begun(tally: Tally) -> u32
    requires { roles.TallyKept tally }
    ensures { result ≡ roles.begun tally }
{
    if tally.due {
        tally.parts + 1
    } else {
        tally.parts
    }
}

/// The tally where a part goes on, with so many elements, signs between two sides and signs in a
/// row.
fn going(tally: Tally, elements: u32, signs: u32, row: u32) -> Tally
    requires { roles.TallyKept tally }
    ensures { result ≡ limits.tally (roles.begun tally) elements signs row Prelude.false }
{
    Tally {
        parts: begun(tally),
        elements,
        signs,
        row,
        due: false,
    }
}

/// The tally with what such a token adds.
fn counted(tally: Tally, role: TokenRole) -> Tally
    requires { roles.TallyKept tally }
    ensures { result ≡ roles.counted tally role }
{
    match role {
        TokenRole::Operand => going(tally, tally.elements + 1, tally.signs, 0),
        TokenRole::Prefix => going(tally, 0, tally.signs, tally.row + 1),
        TokenRole::Infix => going(tally, 0, tally.signs + 1, 0),
        TokenRole::Postfix => Tally {
            row: tally.row + 1,
            ..tally
        },
        TokenRole::Separator => Tally {
            elements: 0,
            row: 0,
            due: true,
            ..tally
        },
        TokenRole::Label => Tally {
            parts: tally.parts + 1,
            elements: 0,
            row: 0,
            due: false,
            ..tally
        },
        TokenRole::Nothing => tally,
    }
}

/// Counts in the innermost tally what such a token adds.
pub(crate) fn change(tallies: &mut Row<Tally>, role: TokenRole) -> Result<(), NoMemory>
    requires { AllByRecursion roles.TallyKept (reverse tallies.old) }
    ensures { IfOk result (λ _. reverse tallies.new ≡ roles.change role (reverse tallies.old)) }
{
    match tallies.pop() {
        Some(tally) => tallies.push(counted(tally, role)),
        None => Ok(()),
    }
}

/// A length closes: the tally round it takes over its signs.
fn carry(tallies: &mut Row<Tally>) -> Result<(), NoMemory>
    ensures { IfOk result (λ _. reverse tallies.new ≡ roles.carry (reverse tallies.old)) }
{
    match tallies.pop() {
        Some(inner) => match tallies.pop() {
            Some(outer) => {
                let signs = inner.signs;
                tallies.push(Tally { signs, ..outer })
            }
            None => Ok(()),
        },
        None => Ok(()),
    }
}

/// The signs of the innermost tally.
pub(crate) fn signs_here(tallies: &Row<Tally>) -> u32
    ensures { result ≡ roles.signs_here (reverse tallies.now) }
{
    match tallies.as_slice().last() {
        Some(tally) => tally.signs,
        None => 0,
    }
}

/// A token opens or closes this.
pub(crate) fn shift(tallies: &mut Row<Tally>, shift: Shift) -> Result<(), NoMemory>
    ensures { IfOk result (λ _. reverse tallies.new ≡ roles.shift shift (reverse tallies.old)) }
{
    match shift {
        Shift::Opens => tallies.push(fresh(0)),
        Shift::OpensLength => {
            let signs = signs_here(tallies);
            tallies.push(fresh(signs))
        }
        Shift::Closes => match tallies.pop() {
            Some(_) => Ok(()),
            None => Ok(()),
        },
        Shift::ClosesLength => carry(tallies),
        Shift::Stays => Ok(()),
    }
}

/// Whether one of the numbers of the tally passes its limit.
fn tally_passes(tally: Tally) -> bool
    ensures { result ≡ limits.tally_passes tally }
{
    let parts = u32::from(MOST_PARTS);
    let signs = u32::from(MOST_SIGNS);
    tally.parts > parts || tally.elements > parts || tally.signs > signs || tally.row > signs
}

/// Whether a number of one of these tallies passes its limit.
fn some_pass(tallies: &[Tally]) -> bool
    ensures { result ≡ list_any limits.tally_passes (reverse tallies.now) }
{
    let mut rest = tallies;
    'open: while let Some((tally, front)) = rest.split_last() {
        if tally_passes(*tally) {
            return true;
        }
        rest = front;
    }
    false
}

/// Whether between some brackets a number passes its limit.
pub(crate) fn any_passes(tallies: &Row<Tally>) -> bool
    ensures value { result ≡ list_any limits.tally_passes (reverse tallies.now) }
    ensures kept { result ≡ Prelude.false → AllByRecursion roles.TallyKept (reverse tallies.now) }
{
    some_pass(tallies.as_slice())
}

/// The tallies where a part begins, and so many signs stand before.
pub(crate) fn single(alloc: Global, signs: u32) -> Result<Row<Tally>, NoMemory>
    ensures { IfOk result (λ tallies. reverse tallies ≡ limits.fresh signs ∷ []) }
{
    let mut tallies = Row::new(alloc);
    tallies.push(fresh(signs))?;
    Ok(tallies)
}

/// A part begins, and so many signs stand before: the row keeps its memory.
fn restart(alloc: Global, signs: u32, tallies: &mut Row<Tally>) -> Result<(), NoMemory>
    ensures { IfOk result (λ _. reverse tallies.new ≡ limits.fresh signs ∷ []) }
{
    let mut items = replace(tallies, Row::new(alloc)).into_vec();
    items.clear();
    items.push(fresh(signs))?;
    *tallies = Row::from_vec(items);
    Ok(())
}

/// A part begins; for an argument of a definition the signs before it count.
fn part_begins(
    alloc: Global,
    slot: Slot,
    signs: u32,
    tallies: &mut Row<Tally>,
) -> Result<(), NoMemory>
    ensures { IfOk result (λ _. reverse tallies.new ≡ roles.part_begins slot signs) }
{
    match slot {
        Slot::Argument(_, _) => restart(alloc, signs, tallies),
        Slot::Field
        | Slot::Case(_)
        | Slot::Var
        | Slot::Notation
        | Slot::Fun
        | Slot::Rule
        | Slot::Condition
        | Slot::Count => restart(alloc, 0, tallies),
    }
}

/// A token goes on with a part.
fn go_on(
    attachment: Attachment,
    shape: Shape,
    next: &Reading,
    tallies: &mut Row<Tally>,
) -> Result<(), NoMemory>
    requires { AllByRecursion roles.TallyKept (reverse tallies.old) }
    ensures { IfOk result (λ _. reverse tallies.new
        ≡ roles.moved attachment shape (reading_of next.now) (reverse tallies.old)) }
{
    change(tallies, role_of(attachment, shape, next))?;
    shift(tallies, shift_of(shape, next))
}

/// Counts a token, by how it stood and what is read behind it.
pub(crate) fn count(
    alloc: Global,
    attachment: Attachment,
    shape: Shape,
    next: &Progress,
    tallies: &mut Row<Tally>,
) -> Result<(), NoMemory>
    requires { AllByRecursion roles.TallyKept (reverse tallies.old) }
    ensures { IfOk result (λ _. reverse tallies.new
        ≡ roles.tallies_after attachment shape (progress_of next.now) (reverse tallies.old)) }
{
    match next {
        Progress::At(_) => restart(alloc, 0, tallies),
        Progress::Inside(slot, reading, _) => {
            if none_open(reading) {
                let signs = signs_here(tallies);
                part_begins(alloc, *slot, signs, tallies)
            } else {
                go_on(attachment, shape, reading, tallies)
            }
        }
    }
}
