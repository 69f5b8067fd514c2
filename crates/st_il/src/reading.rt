//! The template of a tag. Parts are read one after another; what is not finished yet waits in
//! frames, the innermost last.

ghost use Rattle.std.specs.Prelude.{◌≡◌, [], IfOk, IfSome, IfNone, reverse};
ghost use Rattle.std.specs.Option.{option_map, option_and_then};
ghost use Rattle.st_il.specs.Reading as spec;
ghost use Rattle.st_il.specs.inner.States.{state_of, reversed};
ghost use Rattle.st_il.specs.Tags.{template_of};
ghost use Rattle.st_il.specs.Template.{HasTag, HasOneTemplate};
ghost use Rattle.st_il.specs.declared.template.Template.{Template};

use crate::Template;
use crate::tag_part::tag_parts;
use crate::template::{
    Enclosure, Role, TagPart, is_within, left_of, level_of, right_of, role_of, sign_level,
};
use st_num::{Boxed, HIGHEST_TREE, Mark, Name, NoMemory, Row};
use std::alloc::Global;

/// A part of a template that waits for what stands behind it.
#[derive(Drop)]
pub enum Frame {
    /// An open bracket.
    Open(Mark, Enclosure),
    /// A left side and its sign.
    Left(Template, Mark),
    /// The elements of a sequence before the one that is read.
    Elements(Row<Template>),
}

/// How far a tag is read.
#[derive(Drop)]
pub enum State {
    /// An operand is due.
    Expecting(Row<Frame>),
    /// An element has been read.
    Read(Template, Row<Frame>),
}

/// The template that has this tag.
pub fn template_of(alloc: Global, tag: &Name) -> Result<Option<Template>, NoMemory>
    ensures some { IfOk result (λ found. IfSome found (λ template. HasTag template tag.now)) }
    ensures none { IfOk result
        (λ found. IfNone found ((template : Template) → HasTag template tag.now → ⊥)) }
    ensures one { HasOneTemplate tag.now }
    ensures gives { IfOk result (λ found. found ≡ template_of tag.now) }
{
    let found = read_tag(alloc, tag.as_slice())?;
    Ok(found)
}

/// The template that has this tag, where one has.
fn read_tag(alloc: Global, tag: &[u8]) -> Result<Option<Template>, NoMemory>
    ensures some { IfOk result (λ found. IfSome found (λ template. HasTag template tag.now)) }
    ensures none { IfOk result
        (λ found. IfNone found ((template : Template) → HasTag template tag.now → ⊥)) }
{
    let Some(parts) = tag_parts(alloc, tag)? else {
        return Ok(None);
    };
    let found = read_tag_parts(alloc, parts.as_slice())?;
    Ok(found)
}

/// The template of these parts.
fn read_tag_parts(alloc: Global, parts: &[TagPart]) -> Result<Option<Template>, NoMemory>
    ensures { IfOk result (λ found. found ≡ spec.reads (spec.expecting []) parts.now) }
{
    let mut state = State::Expecting(Row::new(alloc));
    for part in parts {
        let Some(next) = step(alloc, state, part)? else {
            return Ok(None);
        };
        state = next;
    }
    let found = finish(alloc, state)?;
    Ok(found)
}

/// Takes one more part, if it may stand there.
fn step(alloc: Global, state: State, part: &TagPart) -> Result<Option<State>, NoMemory>
    ensures { IfOk result (λ next. option_map state_of next ≡ spec.step (state_of state) part.now) }
{
    match state {
        State::Expecting(frames) => begin(alloc, frames, part),
        State::Read(template, frames) => after(alloc, template, frames, part),
    }
}

/// Takes a part behind an element.
fn after(
    alloc: Global,
    template: Template,
    frames: Row<Frame>,
    part: &TagPart,
) -> Result<Option<State>, NoMemory>
    ensures { IfOk result
        (λ next. option_map state_of next ≡ spec.after template (reverse frames) part.now) }
{
    match part {
        TagPart::Hole | TagPart::Atom(_) => begin(alloc, extend(alloc, template, frames)?, part),
        TagPart::Sign(sign) => match role_of(*sign) {
            Role::Divides(level) => divide(alloc, template, frames, *sign, level),
            Role::Closes(enclosure) => shut(alloc, template, frames, enclosure),
            Role::Opens(_) | Role::Other => begin(alloc, extend(alloc, template, frames)?, part),
        },
    }
}

/// Takes a part where an operand is due.
fn begin(alloc: Global, mut frames: Row<Frame>, part: &TagPart) -> Result<Option<State>, NoMemory>
    ensures { IfOk result
        (λ next. option_map state_of next ≡ spec.begin (reverse frames) part.now) }
{
    match part {
        TagPart::Hole => Ok(Some(State::Read(Template::Hole, frames))),
        TagPart::Atom(name) => Ok(Some(State::Read(Template::Atom(name.copy(alloc)?), frames))),
        TagPart::Sign(sign) => match role_of(*sign) {
            Role::Opens(enclosure) => {
                frames.push(Frame::Open(*sign, enclosure))?;
                Ok(Some(State::Expecting(frames)))
            }
            Role::Divides(_) if may_lack_left(*sign) && is_outermost(&frames) => {
                frames.push(Frame::Left(Template::Seq(Row::new(alloc)), *sign))?;
                Ok(Some(State::Expecting(frames)))
            }
            _ => Ok(None),
        },
    }
}

/// Whether the left side of this sign may be absent.
fn may_lack_left(sign: Mark) -> bool
    ensures { result ≡ spec.may_lack_left sign }
{
    match sign {
        Mark::Turnstile => true,
        _ => false,
    }
}

/// Whether nothing waits between the innermost bracket and what is read.
fn is_outermost(frames: &Row<Frame>) -> bool
    ensures { result ≡ spec.is_outermost (reverse frames.now) }
{
    match frames.as_slice().last() {
        None => true,
        Some(Frame::Open(_, _)) => true,
        Some(Frame::Left(_, _)) => false,
        Some(Frame::Elements(_)) => false,
    }
}

/// The template becomes an element of a sequence that goes on.
fn extend(alloc: Global, template: Template, mut frames: Row<Frame>) -> Result<Row<Frame>, NoMemory>
    ensures { IfOk result (λ extended. reverse extended ≡ spec.extend template (reverse frames)) }
{
    let mut elements = match frames.pop() {
        Some(Frame::Elements(elements)) => elements,
        Some(frame) => {
            frames.push(frame)?;
            Row::new(alloc)
        }
        None => Row::new(alloc),
    };
    elements.push(template)?;
    frames.push(Frame::Elements(elements))?;
    Ok(frames)
}

/// What binds tighter than the sign becomes its left side.
fn divide(
    alloc: Global,
    template: Template,
    frames: Row<Frame>,
    sign: Mark,
    level: u8,
) -> Result<Option<State>, NoMemory>
    ensures { IfOk result (λ next. option_map state_of next
        ≡ option_and_then (spec.divide sign level) (spec.reduce level template (reverse frames))) }
{
    let Some((left, mut frames)) = reduce(alloc, template, frames, level)? else {
        return Ok(None);
    };
    if u16::from(level_of(&left)) < left_of(level) {
        return Ok(None);
    }
    frames.push(Frame::Left(left, sign))?;
    Ok(Some(State::Expecting(frames)))
}

/// Ends the innermost bracket, if it is one of these.
fn shut(
    alloc: Global,
    template: Template,
    frames: Row<Frame>,
    enclosure: Enclosure,
) -> Result<Option<State>, NoMemory>
    ensures { IfOk result (λ next. option_map state_of next
        ≡ option_and_then (λ p. spec.shut enclosure p.0 p.1)
        (spec.reduce 0 template (reverse frames))) }
{
    let Some((inside, mut frames)) = reduce(alloc, template, frames, 0)? else {
        return Ok(None);
    };
    match frames.pop() {
        Some(Frame::Open(opening, opened)) if opened == enclosure => {
            let bracket = Template::Bracket(opening, Boxed::new(alloc, inside)?);
            match limited(bracket) {
                Some(bracket) => Ok(Some(State::Read(bracket, frames))),
                None => Ok(None),
            }
        }
        _ => Ok(None),
    }
}

/// The whole template, if no bracket is open.
fn finish(alloc: Global, state: State) -> Result<Option<Template>, NoMemory>
    ensures { IfOk result (λ found. found ≡ spec.finish (state_of state)) }
{
    let State::Read(template, frames) = state else {
        return Ok(None);
    };
    let Some((whole, frames)) = reduce(alloc, template, frames, 0)? else {
        return Ok(None);
    };
    if frames.is_empty() {
        Ok(Some(whole))
    } else {
        Ok(None)
    }
}

/// Ends the frames that bind tighter than a sign of this level, but no bracket.
fn reduce(
    alloc: Global,
    mut template: Template,
    mut frames: Row<Frame>,
    level: u8,
) -> Result<Option<(Template, Row<Frame>)>, NoMemory>
    ensures { IfOk result
        (λ found. option_map reversed found ≡ spec.reduce level template (reverse frames)) }
{
    'frames: while let Some(frame) = frames.pop() {
        if !binds(&frame, level) {
            frames.push(frame)?;
            return Ok(Some((template, frames)));
        }
        let Some(grown) = limited(closed(alloc, frame, template)?) else {
            return Ok(None);
        };
        template = grown;
    }
    Ok(Some((template, frames)))
}

/// Whether the frame binds what is read tighter than a sign of this level does.
fn binds(frame: &Frame, level: u8) -> bool
    ensures { result ≡ spec.binds frame.now level }
{
    match frame {
        Frame::Open(_, _) => false,
        Frame::Left(_, sign) => u16::from(level) < right_of(sign_level(*sign)),
        Frame::Elements(_) => true,
    }
}

/// The frame with what stands behind it.
fn closed(alloc: Global, frame: Frame, template: Template) -> Result<Template, NoMemory>
    ensures { IfOk result (λ whole. whole ≡ spec.closed frame template) }
{
    match frame {
        Frame::Open(opening, _) => Ok(Template::Bracket(opening, Boxed::new(alloc, template)?)),
        Frame::Left(left, sign) => {
            let left = Boxed::new(alloc, left)?;
            Ok(Template::Infix(left, sign, Boxed::new(alloc, template)?))
        }
        Frame::Elements(mut elements) => {
            elements.push(template)?;
            Ok(Template::Seq(elements))
        }
    }
}

/// The template, if it is not too high.
fn limited(template: Template) -> Option<Template>
    ensures { result ≡ spec.limited template }
{
    if is_within(&template, u32::from(HIGHEST_TREE)) {
        Some(template)
    } else {
        None
    }
}
