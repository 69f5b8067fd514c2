//! The conditions on parts of definitions, in their order.

ghost use Rattle.std.specs.Prelude.{◌≡◌, ◌↔◌, ◌<◌, ◌≤◌, ◌∷◌, [], None, map, take, length, IsTrue, IfOk};
ghost use Rattle.std.specs.List.{flat_map};
ghost use Rattle.st_il.specs.declared.definition.SyntaxBody.TheVariants as body;
ghost use Rattle.st_type_table.specs.Leads.{joined, names_in, included};
ghost use Rattle.st_type_table.specs.Breach.{Finds, AllHold, IsVariant, all_declared, on_alias, on_included, on_field, on_fields, on_parts, run, field_type};
ghost use Rattle.st_type_table.specs.inner.Graph.{AreRanks, graph_of};
ghost use Rattle.st_type_table.specs.inner.Flat.{IsReached};
ghost use Rattle.st_type_table.specs.inner.Checking.{Returns, NameBreaks, IsEnding, IsListed, ChecksAt};

use crate::definitions::Definitions;
use crate::fault::Broken;
use crate::graph::{is_numbered, is_ranked};
use crate::position::{push_all_names, push_names};
use crate::resolve::{body_of, meaning_in};
use st_il::{Alternative, SyntaxBody, Ty};
use st_num::{Name, NoMemory, Row, RuleId};
use std::alloc::Global;

/// The first condition that is false, where one is.
pub(crate) type Found = Option<Broken>;

/// The number in 32 bits. A list that has more members is too long for memory.
fn numbered(number: usize) -> Result<u32, NoMemory>
    ensures { IfOk result (λ same. same ≡ number) }
{
    match u32::try_from(number) {
        Ok(same) => Ok(same),
        Err(_) => Err(NoMemory),
    }
}

/// A condition on the part as a whole, or on its only name, is false.
pub(crate) fn whole(part: u32, rule: RuleId) -> Broken
    ensures { result ≡ record { part = part; name = 0; rule = rule } }
{
    Broken {
        part,
        name: 0,
        rule,
    }
}

/// Whether all the names are declared.
fn check_declared(defs: &Definitions, part: u32, names: &[Name]) -> Result<Found, NoMemory>
    ensures { IfOk result (λ found. Finds defs.now (all_declared part 0 names.now) found) }
{
    for (k, name) in names.iter().enumerate() {
        match defs.position_of(name) {
            Some(_) => {}
            None => {
                let name = numbered(k)?;
                let rule = RuleId::B2;
                return Ok(Some(Broken { part, name, rule }));
            }
        }
    }
    Ok(None)
}

/// The rule that a name in an alias breaks, where it breaks one.
fn rule_of_name(
    defs: &Definitions,
    target: &Name,
    numbers: &[usize],
    own: usize,
    name: &Name,
) -> Option<RuleId>
    requires { Returns defs.now target.now numbers.now own (name.now ∷ []) }
    ensures { NameBreaks defs.now target.now name.now result }
{
    match defs.position_of(name) {
        Some(position) => {
            if is_numbered(numbers, own, position) {
                return Some(RuleId::B4);
            }
            None
        }
        None => Some(RuleId::B2),
    }
}

/// The conditions on the names in an alias.
fn check_alias(
    defs: &Definitions,
    target: &Name,
    numbers: &[usize],
    own: usize,
    names: &[Name],
) -> Result<Found, NoMemory>
    requires { Returns defs.now target.now numbers.now own names.now }
    ensures { IfOk result (λ found. Finds defs.now (on_alias target.now 0 names.now) found) }
{
    for (k, name) in names.iter().enumerate() {
        match rule_of_name(defs, target, numbers, own, name) {
            Some(rule) => {
                let name = numbered(k)?;
                let part = 0;
                return Ok(Some(Broken { part, name, rule }));
            }
            None => {}
        }
    }
    Ok(None)
}

/// Whether the name is declared, and no way from it runs for ever.
fn is_ending(defs: &Definitions, ranks: &[usize], name: &Name) -> bool
    requires { AreRanks (graph_of defs.now) ranks.now }
    ensures { IsTrue result ↔ IsEnding defs.now name.now }
{
    match defs.position_of(name) {
        Some(position) => is_ranked(ranks, position),
        None => false,
    }
}

/// Whether what the name means is a variant, and no way from it runs for ever.
fn is_variant(
    alloc: Global,
    defs: &Definitions,
    ranks: &[usize],
    name: &Name,
) -> Result<bool, NoMemory>
    requires { AreRanks (graph_of defs.now) ranks.now }
    ensures { IfOk result (λ yes. IsTrue yes ↔ IsVariant defs.now name.now) }
{
    if !is_ending(defs, ranks, name) {
        return Ok(false);
    }
    let ty = Ty::Name(name.copy(alloc)?);
    let yes = is_variant_name(defs, meaning_in(defs, ranks, &ty));
    Ok(yes)
}

/// Whether the type is the name of a variant.
fn is_variant_name(defs: &Definitions, ty: &Ty) -> bool
    ensures { IsTrue result ↔ IsListed defs.now ty.now }
{
    match ty {
        Ty::Name(name) => match body_of(defs, name) {
            Some(SyntaxBody::Variant(_)) => true,
            Some(SyntaxBody::Alias(_)) => false,
            Some(SyntaxBody::Fields(_)) => false,
            None => false,
        },
        Ty::Bool | Ty::Nat | Ty::Int | Ty::Text => false,
        Ty::List(_) | Ty::Opt(_) | Ty::Tuple(_) => false,
    }
}

/// Whether one of the fields has this name.
fn has_field(fields: &[(Name, Ty)], name: &Name) -> bool
    ensures { IsTrue result ↔ field_type fields.now name.now }
{
    for field in fields {
        if *name == field.0 {
            return true;
        }
    }
    false
}

/// The conditions on an included variant, up to that on keys.
fn check_included(
    alloc: Global,
    defs: &Definitions,
    ranks: &[usize],
    target: &Name,
    numbers: &[usize],
    own: usize,
    part: u32,
    name: &Name,
) -> Result<Found, NoMemory>
    requires ranks { AreRanks (graph_of defs.now) ranks.now }
    requires numbers { Returns defs.now target.now numbers.now own (name.now ∷ []) }
    ensures { IfOk result (λ found. Finds defs.now (on_included target.now part name.now) found) }
{
    let Some(position) = defs.position_of(name) else {
        return Ok(Some(whole(part, RuleId::B2)));
    };
    if is_numbered(numbers, own, position) {
        return Ok(Some(whole(part, RuleId::B4)));
    }
    if !is_variant(alloc, defs, ranks, name)? {
        return Ok(Some(whole(part, RuleId::B5)));
    }
    Ok(None)
}

/// The conditions on the types of operands.
fn check_types(alloc: Global, defs: &Definitions, part: u32, tys: &[Ty]) -> Result<Found, NoMemory>
    ensures { IfOk result
        (λ found. Finds defs.now (all_declared part 0 (joined (map names_in tys.now))) found) }
{
    let mut names = Row::new(alloc);
    push_all_names(alloc, tys, &mut names)?;
    let found = check_declared(defs, part, names.as_slice())?;
    Ok(found)
}

/// The conditions on a field of a record, behind the fields before it.
fn check_field(
    alloc: Global,
    defs: &Definitions,
    part: u32,
    before: &[(Name, Ty)],
    field: &(Name, Ty),
) -> Result<Found, NoMemory>
    ensures { IfOk result (λ found. Finds defs.now (on_field part before.now field.now) found) }
{
    if has_field(before, &field.0) {
        return Ok(Some(whole(part, RuleId::B1)));
    }
    let mut names = Row::new(alloc);
    push_names(alloc, &field.1, &mut names)?;
    let found = check_declared(defs, part, names.as_slice())?;
    Ok(found)
}

/// The conditions on an alternative. The alternatives before it have cases with different keys,
/// and so have as many as are reached.
fn check_alternative(
    alloc: Global,
    defs: &Definitions,
    ranks: &[usize],
    target: &Name,
    numbers: &[usize],
    own: usize,
    reach: usize,
    parts: &[Alternative],
    at: usize,
) -> Result<Found, NoMemory>
    requires ranks { AreRanks (graph_of defs.now) ranks.now }
    requires numbers { Returns defs.now target.now numbers.now own (flat_map included parts.now) }
    requires reach { IsReached defs.now parts.now reach }
    requires within { at < length parts.now }
    requires so_far { at ≤ reach }
    ensures { IfOk result (λ found. ChecksAt defs.now target.now parts.now reach at found) }
{
    let part = numbered(at)?;
    match &parts[at] {
        Alternative::Case(_, operands) => {
            if at == reach {
                return Ok(Some(whole(part, RuleId::Y7)));
            }
            let found = check_types(alloc, defs, part, operands.as_slice())?;
            Ok(found)
        }
        Alternative::Incl(name) => {
            match check_included(alloc, defs, ranks, target, numbers, own, part, name)? {
                Some(found) => return Ok(Some(found)),
                None => {}
            }
            if at == reach {
                return Ok(Some(whole(part, RuleId::Y7)));
            }
            Ok(None)
        }
    }
}

/// The conditions on the alternatives of a variant from one number up to another.
pub(crate) fn check_alternatives(
    alloc: Global,
    defs: &Definitions,
    ranks: &[usize],
    target: &Name,
    numbers: &[usize],
    own: usize,
    reach: usize,
    parts: &[Alternative],
    from: usize,
    to: usize,
) -> Result<Found, NoMemory>
    requires ranks { AreRanks (graph_of defs.now) ranks.now }
    requires numbers { Returns defs.now target.now numbers.now own (flat_map included parts.now) }
    requires reach { IsReached defs.now parts.now reach }
    requires before { AllHold defs.now (on_parts target.now (body.Variant parts.now) 0 from) }
    ensures { IfOk result
        (λ found. Finds defs.now (on_parts target.now (body.Variant parts.now) from to) found) }
{
    for at in from..to.min(parts.len()) {
        match check_alternative(alloc, defs, ranks, target, numbers, own, reach, parts, at)? {
            Some(found) => return Ok(Some(found)),
            None => {}
        }
    }
    Ok(None)
}

/// The conditions on the fields of a record from one number up to another.
pub(crate) fn check_fields(
    alloc: Global,
    defs: &Definitions,
    fields: &[(Name, Ty)],
    from: usize,
    to: usize,
) -> Result<Found, NoMemory>
    ensures { IfOk result
        (λ found. Finds defs.now (on_fields from (take from fields.now) (run from to fields.now))
        found) }
{
    for at in from..to.min(fields.len()) {
        let part = numbered(at)?;
        match check_field(alloc, defs, part, &fields[..at], &fields[at])? {
            Some(found) => return Ok(Some(found)),
            None => {}
        }
    }
    Ok(None)
}

/// The conditions on the names of an alias, where its one part is among those asked.
pub(crate) fn check_whole_alias(
    alloc: Global,
    defs: &Definitions,
    name: &Name,
    numbers: &[usize],
    own: usize,
    ty: &Ty,
    from: usize,
    to: usize,
) -> Result<Found, NoMemory>
    requires { Returns defs.now name.now numbers.now own (names_in ty.now) }
    ensures { IfOk result
        (λ found. Finds defs.now (on_parts name.now (body.Alias ty.now) from to) found) }
{
    if from > 0 || to == 0 {
        return Ok(None);
    }
    let mut names = Row::new(alloc);
    push_names(alloc, ty, &mut names)?;
    let found = check_alias(defs, name, numbers, own, names.as_slice())?;
    Ok(found)
}
