//! Fields and alternatives of the open definition.

ghost use Rattle.std.specs.Prelude.{◌≡◌, IfOk};
ghost use Rattle.st_parse.specs.inner.Drafts as spec;

use crate::draft::{Draft, Members};
use st_el::{Notation, Typ};
use st_num::{NoMemory, Row, Token};
use st_parse_builder::copy_name;
use std::alloc::Global;

/// No fields and no alternatives.
pub(crate) fn no_members(alloc: Global) -> Members
    ensures { result ≡ spec.no_members }
{
    Members {
        label: Row::new(alloc),
        fields: Row::new(alloc),
        dots: false,
        notations: Row::new(alloc),
    }
}

/// Dots stand before the alternatives.
pub(crate) fn put_dots(draft: &mut Draft)
    ensures { draft.new ≡ spec.with_members (spec.dotted draft.old.members) draft.old }
{
    draft.members.dots = true;
}

/// The name of a field is read.
pub(crate) fn put_label(alloc: Global, draft: &mut Draft, token: &Token) -> Result<(), NoMemory>
    ensures { IfOk result (λ _.
        draft.new ≡ spec.with_members (spec.labelled token.now draft.old.members) draft.old) }
{
    draft.members.label = copy_name(alloc, &token.kind)?;
    Ok(())
}

/// One more field, whose name stands before it.
fn add_field(alloc: Global, members: &mut Members, typ: Typ) -> Result<(), NoMemory>
    ensures { IfOk result (λ _. members.new ≡ spec.field_put typ members.old) }
{
    let label = std::mem::replace(&mut members.label, Row::new(alloc));
    members.fields.push((label, typ))?;
    Ok(())
}

/// The type of a field is read.
pub(crate) fn put_field(alloc: Global, draft: &mut Draft, typ: Typ) -> Result<(), NoMemory>
    ensures { IfOk result (λ _.
        draft.new ≡ spec.with_members (spec.field_put typ draft.old.members) draft.old) }
{
    add_field(alloc, &mut draft.members, typ)
}

/// An alternative, or the notation of a relation, is read.
pub(crate) fn put_notation(draft: &mut Draft, notation: Notation) -> Result<(), NoMemory>
    ensures { IfOk result (λ _. draft.new ≡ spec.notation_filled notation draft.old) }
{
    draft.members.notations.push(notation)?;
    Ok(())
}
