//! The places of what is false of the parts of a syntax.

ghost use Rattle.std.specs.Prelude.{◌≡◌, ◌-◌, IfOk};
ghost use Rattle.st_elab_def.specs.Phases.{names_in};
ghost use Rattle.st_elab_def.specs.inner.Places.{name_place, bare_place, case_place, alternative_place, cases_place, field_place, fields_place};

use crate::names::{Named, hole_names_of, names_of};
use st_el::{NotNode, Notation, Typ};
use st_num::{Name, NoMemory, RuleId, Span};
use st_type_table::Broken;
use std::alloc::Global;

/// The place of the name of this number, or that of the part.
fn name_place(names: &[Named], number: u32, part: Span) -> Span
    ensures { result ≡ name_place names.now number part }
{
    match names.get(number as usize) {
        Some(named) => named.at,
        None => part,
    }
}

/// The place of what is false of an alias.
pub(crate) fn alias_place(alloc: Global, typ: &Typ, broken: Broken) -> Result<Span, NoMemory>
    ensures { IfOk result (λ at. at ≡ name_place (names_in typ.now) broken.name typ.now.at) }
{
    let names = names_of(alloc, typ)?;
    Ok(name_place(names.as_slice(), broken.name, typ.at))
}

/// The place in a type that is an alternative by itself.
fn bare_place(part: Span, typ: &Typ, rule: RuleId) -> Span
    ensures { result ≡ bare_place part typ.now rule }
{
    match rule {
        RuleId::B2 => typ.at,
        _ => part,
    }
}

/// The place in a case.
fn case_place(
    alloc: Global,
    notation: &Notation,
    number: u32,
    rule: RuleId,
) -> Result<Span, NoMemory>
    ensures { IfOk result (λ at. at ≡ case_place notation.now number rule) }
{
    match rule {
        RuleId::Y7 => Ok(notation.at),
        _ => {
            let names = hole_names_of(alloc, notation)?;
            Ok(name_place(names.as_slice(), number, notation.at))
        }
    }
}

/// The place of what is false of an alternative.
fn alternative_place(
    alloc: Global,
    notation: &Notation,
    number: u32,
    rule: RuleId,
) -> Result<Span, NoMemory>
    ensures { IfOk result (λ at. at ≡ alternative_place notation.now number rule) }
{
    match &notation.node {
        NotNode::Hole(typ) => Ok(bare_place(notation.at, typ, rule)),
        NotNode::Atom(_) | NotNode::Seq(_) => case_place(alloc, notation, number, rule),
        NotNode::Infix(_, _, _) | NotNode::Bracket(_, _) => {
            case_place(alloc, notation, number, rule)
        }
    }
}

/// The place of what is false of one of these alternatives, which stand behind so many others.
pub(crate) fn cases_place(
    alloc: Global,
    cases: &[Notation],
    from: usize,
    broken: Broken,
    whole: Span,
) -> Result<Span, NoMemory>
    ensures { IfOk result (λ at. at
        ≡ cases_place cases.now (broken.part - from) broken.name broken.rule whole) }
{
    match cases.get((broken.part as usize).saturating_sub(from)) {
        Some(notation) => alternative_place(alloc, notation, broken.name, broken.rule),
        None => Ok(whole),
    }
}

/// The place of what is false of a field.
fn field_place(
    alloc: Global,
    field: &(Name, Typ),
    broken: Broken,
    whole: Span,
) -> Result<Span, NoMemory>
    ensures { IfOk result (λ at. at ≡ field_place field.now broken.name broken.rule whole) }
{
    match broken.rule {
        RuleId::B2 => {
            let names = names_of(alloc, &field.1)?;
            Ok(name_place(names.as_slice(), broken.name, whole))
        }
        _ => Ok(whole),
    }
}

/// The place of what is false of one of these fields.
pub(crate) fn fields_place(
    alloc: Global,
    fields: &[(Name, Typ)],
    broken: Broken,
    whole: Span,
) -> Result<Span, NoMemory>
    ensures { IfOk result (λ at. at
        ≡ fields_place fields.now broken.part broken.name broken.rule whole) }
{
    match fields.get(broken.part as usize) {
        Some(field) => field_place(alloc, field, broken, whole),
        None => Ok(whole),
    }
}
