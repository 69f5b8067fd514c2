//! Types, and notations with their holes filled by types.

ghost use Rattle.std.specs.Prelude.{◌≡◌, [], ◌∷◌, map, IfOk, OnOk, MatchOption};
ghost use Rattle.st_erase.specs.Notations.{typ, erased_ty, notation, note_hole, note_of, note_parts, note_by, notation_of};
ghost use Rattle.st_il.specs.Tags.{template_of};

use st_el::{NotNode, Notation, Typ, TypNode};
use st_il::{Template, Ty, template_of};
use st_num::{Boxed, Name, NoMemory, Row, Span};
use std::alloc::Global;
use std::collections::VecDeque;

/// A type that stands in no text.
pub fn typ(node: TypNode) -> Typ
    ensures { result ≡ typ node }
{
    Typ {
        at: Span::NOWHERE,
        node,
    }
}

/// A notation that stands in no text.
pub fn notation(node: NotNode) -> Notation
    ensures { result ≡ notation node }
{
    Notation {
        at: Span::NOWHERE,
        node,
    }
}

/// The type as it is written.
#[cycle(ty)]
pub fn erased_ty(alloc: Global, ty: &Ty) -> Result<Typ, NoMemory>
    ensures { IfOk result (λ found. found ≡ erased_ty ty.now) }
{
    match ty {
        Ty::Bool => Ok(typ(TypNode::Bool)),
        Ty::Nat => Ok(typ(TypNode::Nat)),
        Ty::Int => Ok(typ(TypNode::Int)),
        Ty::Text => Ok(typ(TypNode::Text)),
        Ty::Name(name) => Ok(typ(TypNode::Name(name.copy(alloc)?))),
        Ty::List(element) => Ok(typ(TypNode::Star(boxed_ty(alloc, element)?))),
        Ty::Opt(element) => Ok(typ(TypNode::Quest(boxed_ty(alloc, element)?))),
        Ty::Tuple(parts) => Ok(typ(TypNode::Tuple(erased_tys(alloc, parts)?))),
    }
}

/// The type as it is written, in a box of its own.
#[cycle(ty)]
fn boxed_ty(alloc: Global, ty: &Boxed<Ty>) -> Result<Boxed<Typ>, NoMemory>
    ensures { IfOk result (λ found. found ≡ erased_ty ty.now) }
{
    let found = erased_ty(alloc, ty.get())?;
    Boxed::new(alloc, found)
}

/// The types as they are written, in order.
#[cycle(ty)]
pub fn erased_tys(alloc: Global, tys: &Row<Ty>) -> Result<Row<Typ>, NoMemory>
    ensures { IfOk result (λ found. found ≡ map erased_ty tys.now) }
{
    let mut found = Row::new(alloc);
    for ty in tys.as_slice() {
        found.push(erased_ty(alloc, ty)?)?;
    }
    Ok(found)
}

/// The notation of a tag, with these types in its holes.
pub fn notation_of(alloc: Global, tag: &Name, tys: &Row<Ty>) -> Result<Notation, NoMemory>
    ensures { IfOk result (λ found. found ≡ notation_of tag.now tys.now) }
{
    let typs = erased_tys(alloc, tys)?;
    let found = noted(alloc, tag, typs)?;
    Ok(found)
}

/// The notation of a tag, with these types in its holes; it is empty where the tag is none.
fn noted(alloc: Global, tag: &Name, typs: Row<Typ>) -> Result<Notation, NoMemory>
    ensures { IfOk result (λ found. found ≡ note_by (template_of tag.now) typs) }
{
    let Some(template) = template_of(alloc, tag)? else {
        return Ok(notation(NotNode::Seq(Row::new(alloc))));
    };
    let mut typs = VecDeque::from_vec(typs.into_vec());
    let found = note(alloc, &template, &mut typs)?;
    Ok(found)
}

/// Takes the next type off.
fn next(typs: &mut VecDeque<Typ>) -> Option<Typ>
    ensures { MatchOption result ((typs.old.items ≡ []) × (typs.new.items ≡ []))
        (λ first. typs.old.items ≡ first ∷ typs.new.items) }
{
    typs.pop_front()
}

/// The template as a notation with the first types; those that it takes are taken off.
#[cycle(note)]
fn note(alloc: Global, template: &Template, typs: &mut VecDeque<Typ>) -> Result<Notation, NoMemory>
    ensures out { IfOk result (λ found. found ≡ (note_of template.now typs.old.items).out) }
    ensures rest { OnOk result (typs.new.items ≡ (note_of template.now typs.old.items).rest) }
{
    match template {
        Template::Atom(name) => Ok(notation(NotNode::Atom(name.copy(alloc)?))),
        Template::Hole => Ok(note_hole(alloc, typs)),
        Template::Seq(parts) => Ok(notation(NotNode::Seq(note_parts(alloc, parts, typs)?))),
        Template::Infix(left, sign, right) => {
            let left = note_boxed(alloc, left, typs)?;
            let right = note_boxed(alloc, right, typs)?;
            Ok(notation(NotNode::Infix(left, *sign, right)))
        }
        Template::Bracket(opening, inside) => {
            let inside = note_boxed(alloc, inside, typs)?;
            Ok(notation(NotNode::Bracket(*opening, inside)))
        }
    }
}

/// The template as a notation with the first types, in a box of its own.
#[cycle(note)]
fn note_boxed(
    alloc: Global,
    template: &Boxed<Template>,
    typs: &mut VecDeque<Typ>,
) -> Result<Boxed<Notation>, NoMemory>
    ensures out { IfOk result (λ found. found ≡ (note_of template.now typs.old.items).out) }
    ensures rest { OnOk result (typs.new.items ≡ (note_of template.now typs.old.items).rest) }
{
    let found = note(alloc, template.get(), typs)?;
    Boxed::new(alloc, found)
}

/// The parts of a sequence as notations with the first types, from left to right.
#[cycle(note)]
fn note_parts(
    alloc: Global,
    parts: &Row<Template>,
    typs: &mut VecDeque<Typ>,
) -> Result<Row<Notation>, NoMemory>
    ensures out { IfOk result
        (λ found. found ≡ (note_parts (map note_of parts.now) typs.old.items).out) }
    ensures rest { OnOk result
        (typs.new.items ≡ (note_parts (map note_of parts.now) typs.old.items).rest) }
{
    let mut found = Row::new(alloc);
    for part in parts.as_slice() {
        found.push(note(alloc, part, typs)?)?;
    }
    Ok(found)
}

/// The hole of the next type.
fn note_hole(alloc: Global, typs: &mut VecDeque<Typ>) -> Notation
    ensures out { result ≡ (note_hole typs.old.items).out }
    ensures rest { typs.new.items ≡ (note_hole typs.old.items).rest }
{
    match next(typs) {
        Some(first) => notation(NotNode::Hole(first)),
        None => notation(NotNode::Seq(Row::new(alloc))),
    }
}
