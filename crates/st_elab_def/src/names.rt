//! The names in types, with their places.

ghost use Rattle.std.specs.Prelude.{◌≡◌, [], ◌∷◌, ◌++◌, flat_map, IfOk, OnOk};
ghost use Rattle.st_elab_sig.specs.Signatures.{holes_of};
ghost use Rattle.st_elab_def.specs.Phases.{names_in};

use st_el::{NotNode, Notation, Typ, TypNode};
use st_num::{Name, NoMemory, Row, Span};
use std::alloc::Global;

/// A name and its place.
#[derive(Drop)]
pub struct Named {
    pub at: Span,
    pub name: Name,
}

/// Adds a name at its place.
fn push_name(alloc: Global, at: Span, name: &Name, out: &mut Row<Named>) -> Result<(), NoMemory>
    ensures { OnOk result (out.new ≡ out.old ++ record { at = at; name = name.now } ∷ []) }
{
    let name = name.copy(alloc)?;
    out.push(Named { at, name })
}

/// Adds the names in a type, from left to right.
#[cycle(typ)]
pub(crate) fn push_names(alloc: Global, typ: &Typ, out: &mut Row<Named>) -> Result<(), NoMemory>
    ensures { OnOk result (out.new ≡ out.old ++ names_in typ.now) }
{
    match &typ.node {
        TypNode::Bool | TypNode::Nat | TypNode::Int | TypNode::Text => Ok(()),
        TypNode::Name(name) => push_name(alloc, typ.at, name, out),
        TypNode::Star(element) => push_names(alloc, element.get(), out),
        TypNode::Quest(element) => push_names(alloc, element.get(), out),
        TypNode::Tuple(parts) => push_all_names(alloc, parts.as_slice(), out),
    }
}

/// Adds the names in types, from left to right.
#[cycle(typ)]
pub(crate) fn push_all_names(
    alloc: Global,
    typs: &[Typ],
    out: &mut Row<Named>,
) -> Result<(), NoMemory>
    ensures { OnOk result (out.new ≡ out.old ++ flat_map names_in typs.now) }
{
    for typ in typs {
        push_names(alloc, typ, out)?;
    }
    Ok(())
}

/// Adds the names in the types of a notation, from left to right.
#[cycle(notation)]
pub(crate) fn push_hole_names(
    alloc: Global,
    notation: &Notation,
    out: &mut Row<Named>,
) -> Result<(), NoMemory>
    ensures { OnOk result (out.new ≡ out.old ++ flat_map names_in (holes_of notation.now)) }
{
    match &notation.node {
        NotNode::Atom(_) => Ok(()),
        NotNode::Hole(typ) => push_names(alloc, typ, out),
        NotNode::Seq(parts) => push_part_names(alloc, parts.as_slice(), out),
        NotNode::Infix(left, _, right) => {
            push_hole_names(alloc, left.get(), out)?;
            push_hole_names(alloc, right.get(), out)
        }
        NotNode::Bracket(_, inside) => push_hole_names(alloc, inside.get(), out),
    }
}

/// Adds the names in the types of notations, from left to right.
#[cycle(notation)]
fn push_part_names(
    alloc: Global,
    notations: &[Notation],
    out: &mut Row<Named>,
) -> Result<(), NoMemory>
    ensures { OnOk result
        (out.new ≡ out.old ++ flat_map names_in (flat_map holes_of notations.now)) }
{
    for notation in notations {
        push_hole_names(alloc, notation, out)?;
    }
    Ok(())
}

/// The names in a type.
pub(crate) fn names_of(alloc: Global, typ: &Typ) -> Result<Row<Named>, NoMemory>
    ensures { IfOk result (λ names. names ≡ names_in typ.now) }
{
    let mut names = Row::new(alloc);
    push_names(alloc, typ, &mut names)?;
    Ok(names)
}

/// The names in the types of a notation.
pub(crate) fn hole_names_of(alloc: Global, notation: &Notation) -> Result<Row<Named>, NoMemory>
    ensures { IfOk result (λ names. names ≡ flat_map names_in (holes_of notation.now)) }
{
    let mut names = Row::new(alloc);
    push_hole_names(alloc, notation, &mut names)?;
    Ok(names)
}
