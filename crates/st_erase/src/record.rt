//! The fields of the record that a name leads to.

ghost use Rattle.std.specs.Prelude.{◌≡◌, [], ◌++◌, length, map, IfOk, OnOk, MatchOption};
ghost use Rattle.std.specs.Option.{option_map};
ghost use Rattle.st_el.specs.declared.expression.Node.TheVariants as node;
ghost use Rattle.st_il.specs.declared.ty.Ty.{out-Ty};
ghost use Rattle.st_erase.specs.Erasure.{plain_form, field_by, fields};
ghost use Rattle.st_erase.specs.Records.{body_of, next_name, field_name, fields_of};

use crate::form::{next, plain_form};
use crate::{Erased, ErasedKind};
use st_el::{Exp, Node};
use st_il::{IlDef, SyntaxBody, Ty};
use st_num::{Name, NoMemory, Row};
use std::alloc::Global;
use std::collections::VecDeque;

/// The body of the first syntax of this name.
pub fn body_of<'a>(defs: &'a [IlDef], name: &Name) -> Option<&'a SyntaxBody>
    ensures { option_map (λ body. body.now) result ≡ body_of name.now defs.now }
{
    for def in defs {
        if let IlDef::Syntax(syntax) = def {
            if syntax.name == *name {
                return Some(&syntax.body);
            }
        }
    }
    None
}

/// What an alias leads to, where it is a name.
pub fn next_name<'a>(ty: &'a Ty) -> Option<&'a Name>
    ensures { option_map (λ name. name.now) result ≡ next_name (out-Ty ty.now) }
{
    match ty {
        Ty::Name(name) => Some(name),
        _ => None,
    }
}

/// The fields of the record that a name leads to, if it leads to one.
pub fn fields_of<'a>(defs: &'a [IlDef], name: &'a Name) -> Option<&'a Row<(Name, Ty)>>
    ensures { MatchOption result (fields_of (length defs.now) defs.now name.now ≡ [])
        (λ fields. map field_name fields.now ≡ fields_of (length defs.now) defs.now name.now) }
{
    let mut name = name;
    for _ in 0..defs.len() {
        match body_of(defs, name) {
            Some(SyntaxBody::Fields(fields)) => return Some(fields),
            Some(SyntaxBody::Alias(ty)) => match next_name(ty) {
                Some(next) => name = next,
                None => return None,
            },
            Some(SyntaxBody::Variant(_)) | None => return None,
        }
    }
    None
}

/// A record of the named type.
pub fn record(
    alloc: Global,
    defs: &[IlDef],
    ty: &Name,
    parts: Row<Erased>,
) -> Result<Erased, NoMemory>
    ensures { IfOk result (λ found. found
        ≡ plain_form (node.Fields (fields (fields_of (length defs.now) defs.now ty.now) parts))) }
{
    let Some(names) = fields_of(defs, ty) else {
        return Ok(plain_form(Node::Fields(Row::new(alloc))));
    };
    let written = written_fields(alloc, names.as_slice(), parts)?;
    Ok(plain_form(Node::Fields(written)))
}

/// The fields of a record that are written, with these names and values in order.
fn written_fields(
    alloc: Global,
    names: &[(Name, Ty)],
    parts: Row<Erased>,
) -> Result<Row<(Name, Exp)>, NoMemory>
    ensures { IfOk result (λ written. written ≡ fields (map field_name names.now) parts) }
{
    let mut left = VecDeque::from_vec(parts.into_vec());
    let mut written = Row::new(alloc);
    for field in names {
        let Some(part) = next(&mut left) else {
            return Ok(written);
        };
        push_field(alloc, &field.0, part, &mut written)?;
    }
    Ok(written)
}

/// Adds a field, but none for a part that was left out.
fn push_field(
    alloc: Global,
    name: &Name,
    part: Erased,
    written: &mut Row<(Name, Exp)>,
) -> Result<(), NoMemory>
    ensures { OnOk result (written.new ≡ written.old ++ field_by name.now part) }
{
    match part.kind {
        ErasedKind::Absent => Ok(()),
        ErasedKind::Plain | ErasedKind::Arithmetic | ErasedKind::Run => {
            let name = name.copy(alloc)?;
            written.push((name, part.whole(alloc)?))
        }
    }
}
