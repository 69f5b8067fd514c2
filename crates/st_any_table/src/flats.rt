//! The cases of syntaxes, with those that they include, each once.
//!
//! Each case that is written has a number. For each definition the numbers of its cases are found
//! once those of all that it includes are known: in passes, until no more can be known. What is
//! not known then includes itself, or what does.

ghost use Rattle.std.specs.Prelude.{◌≡◌, ◌↔◌, ◌<◌, ◌++◌, ◌||◌, [], ◌∷◌, List, IsTrue, IfOk, OnOk, Some, None, MatchOption, is_some, length, replicate, slice_get, true, false};
ghost use Rattle.std.specs.Option.{option_copied};
ghost use Rattle.st_il.specs.declared.definition.Alternative.{Alternative};
ghost use Rattle.st_il.specs.declared.definition.Alternative.TheVariants as alternative;
ghost use Rattle.st_il.specs.declared.definition.SyntaxDef.{SyntaxDef};
ghost use Rattle.st_il.specs.declared.ty.Ty.{out-Ty};
ghost use Rattle.st_type_table.specs.declared.entry.CaseDef.{CaseDef};
ghost use Rattle.st_type_table.specs.Meaning.{listed};
ghost use Rattle.st_type_table.specs.Cases.{HasCases, operands_of};
ghost use Rattle.st_type_table.specs.inner.Graph.{IsOne, AreRanks, position_of};
ghost use Rattle.st_any_table.specs.inner.Heads.{head_graph};
ghost use Rattle.st_any_table.specs.inner.Flats.{one_case, cases_at, IsAdded, IsAdding, Grows, sources, source_at, source_of, IsFlat, flat_at, flat_of_position, where_listed, AreFlats, IsKnown, AllKnown, AreFilled, left, Fills, IsFlatHere, NoFlatHere, HasFlat};

use crate::definitions::Definitions;
use crate::heads::{head_of, meaning_of};
use st_il::{Alternative, SyntaxBody, Ty, copy_tys};
use st_num::{Name, NoMemory, Row};
use st_type_table::CaseDef;
use std::alloc::Global;

/// The numbers of the cases of a definition, where they are known.
pub(crate) type Flat = Option<Row<usize>>;

/// The cases that are written, and for each definition the numbers of those that it has.
#[derive(Drop)]
pub(crate) struct Flattened {
    pub(crate) cases: Row<CaseDef>,
    pub(crate) flats: Row<Flat>,
}

/// Whether the number is one of these.
fn is_one(numbers: &[usize], number: usize) -> bool
    ensures { IsTrue result ↔ IsOne numbers.now number }
{
    numbers.contains(&number)
}

/// Adds a number, where it is new.
fn add_number(numbers: &mut Row<usize>, number: usize) -> Result<(), NoMemory>
    ensures { OnOk result (IsAdded numbers.old numbers.new number) }
{
    if is_one(numbers.as_slice(), number) {
        return Ok(());
    }
    numbers.push(number)?;
    Ok(())
}

/// Adds those numbers that are new.
fn add_numbers(numbers: &mut Row<usize>, more: &[usize]) -> Result<(), NoMemory>
    ensures { OnOk result (IsAdding numbers.old more.now numbers.new) }
{
    for number in more {
        add_number(numbers, *number)?;
    }
    Ok(())
}

/// Adds a case that is written, and its number.
fn add_case(
    alloc: Global,
    cases: &mut Row<CaseDef>,
    numbers: &mut Row<usize>,
    tag: &Name,
    operands: &Row<Ty>,
) -> Result<(), NoMemory>
    ensures cases { OnOk result (cases.new
        ≡ cases.old ++ record { tag = tag.now; operands = operands.now } ∷ []) }
    ensures numbers { OnOk result (numbers.new ≡ numbers.old ++ length cases.old ∷ []) }
{
    let number = cases.len();
    let tag = tag.copy(alloc)?;
    let operands = copy_tys(alloc, operands.as_slice())?;
    cases.push(CaseDef { tag, operands })?;
    numbers.push(number)?;
    Ok(())
}

/// The numbers of the cases of a definition, where there is one and they are known.
fn flat_at<'a>(flats: &'a [Flat], position: usize) -> Option<&'a Row<usize>>
    ensures { option_copied result ≡ flat_at flats.now position }
{
    match flats.get(position) {
        Some(Some(numbers)) => Some(numbers),
        Some(None) => None,
        None => None,
    }
}

/// The numbers of the cases of this name, where it is declared and they are known.
fn flat_named<'a>(defs: &Definitions, flats: &'a [Flat], name: &Name) -> Option<&'a Row<usize>>
    ensures { option_copied result ≡ flat_of_position flats.now (position_of defs.now name.now) }
{
    match defs.position_of(name) {
        Some(position) => flat_at(flats, position),
        None => None,
    }
}

/// Whether the cases of a definition are known.
fn is_known_at(flats: &[Flat], position: usize) -> bool
    ensures { result ≡ is_some (flat_at flats.now position) }
{
    match flat_at(flats, position) {
        Some(_) => true,
        None => false,
    }
}

/// Whether the cases of the name are known, where it is declared.
fn is_known(defs: &Definitions, flats: &[Flat], name: &Name) -> bool
    requires { length flats.now ≡ length defs.now }
    ensures { IsTrue result ↔ IsKnown defs.now flats.now name.now }
{
    match defs.position_of(name) {
        Some(position) => is_known_at(flats, position),
        None => true,
    }
}

/// Whether the cases of what the alternative includes are known.
fn is_ready(defs: &Definitions, flats: &[Flat], alternative: &Alternative) -> bool
    requires { length flats.now ≡ length defs.now }
    ensures { IsTrue result ↔ AllKnown defs.now flats.now (alternative.now ∷ []) }
{
    match alternative {
        Alternative::Case(_, _) => true,
        Alternative::Incl(name) => is_known(defs, flats, name),
    }
}

/// Whether the cases of all that the alternatives include are known.
fn are_ready(defs: &Definitions, flats: &[Flat], alternatives: &[Alternative]) -> bool
    requires { length flats.now ≡ length defs.now }
    ensures { IsTrue result ↔ AllKnown defs.now flats.now alternatives.now }
{
    for i in 0..alternatives.len() {
        if !is_ready(defs, flats, &alternatives[i]) {
            return false;
        }
    }
    true
}

/// The name of a type that is one.
fn name_of(ty: &Ty) -> Option<&Name>
    ensures { source_of (option_copied result) ≡ source_at (out-Ty ty.now) }
{
    match ty {
        Ty::Name(name) => Some(name),
        Ty::Bool | Ty::Nat | Ty::Int | Ty::Text => None,
        Ty::List(_) | Ty::Opt(_) | Ty::Tuple(_) => None,
    }
}

/// Whether the cases of what an alias of this type brings are known.
fn is_source_ready(defs: &Definitions, flats: &[Flat], ty: &Ty) -> bool
    requires { length flats.now ≡ length defs.now }
    ensures { IsTrue result ↔ AllKnown defs.now flats.now (source_at (out-Ty ty.now)) }
{
    match name_of(ty) {
        Some(name) => is_known(defs, flats, name),
        None => true,
    }
}

/// Whether the cases of all that a body brings are known.
fn is_body_ready(defs: &Definitions, flats: &[Flat], body: &SyntaxBody) -> bool
    requires { length flats.now ≡ length defs.now }
    ensures { IsTrue result ↔ AllKnown defs.now flats.now (sources body.now) }
{
    match body {
        SyntaxBody::Alias(ty) => is_source_ready(defs, flats, ty),
        SyntaxBody::Variant(alternatives) => are_ready(defs, flats, alternatives.as_slice()),
        SyntaxBody::Fields(_) => true,
    }
}

/// Adds the numbers of the cases of this name, which are known where it is declared.
fn add_included(
    defs: &Definitions,
    flats: &[Flat],
    numbers: &mut Row<usize>,
    name: &Name,
) -> Result<(), NoMemory>
    requires size { length flats.now ≡ length defs.now }
    requires known { IsKnown defs.now flats.now name.now }
    ensures { OnOk result ((cases : List CaseDef) (done : List Alternative)
        → AreFlats defs.now flats.now cases → IsFlat defs.now cases numbers.old done
        → IsFlat defs.now cases numbers.new (done ++ alternative.Incl name.now ∷ [])) }
{
    match flat_named(defs, flats, name) {
        Some(more) => {
            add_numbers(numbers, more.as_slice())?;
            Ok(())
        }
        None => Ok(()),
    }
}

/// Adds the cases of an alternative.
fn add_alternative(
    alloc: Global,
    defs: &Definitions,
    flats: &[Flat],
    cases: &mut Row<CaseDef>,
    numbers: &mut Row<usize>,
    alternative: &Alternative,
) -> Result<(), NoMemory>
    requires flats { AreFlats defs.now flats.now cases.old }
    requires known { AllKnown defs.now flats.now (alternative.now ∷ []) }
    ensures grows { OnOk result (Grows cases.old cases.new) }
    ensures flats { OnOk result (AreFlats defs.now flats.now cases.new) }
    ensures adds { OnOk result ((done : List Alternative)
        → IsFlat defs.now cases.old numbers.old done
        → IsFlat defs.now cases.new numbers.new (done ++ alternative.now ∷ [])) }
{
    match alternative {
        Alternative::Case(tag, operands) => {
            add_case(alloc, cases, numbers, tag, operands)?;
            Ok(())
        }
        Alternative::Incl(name) => {
            add_included(defs, flats, numbers, name)?;
            Ok(())
        }
    }
}

/// The numbers of the cases of alternatives.
fn flat_of_alternatives(
    alloc: Global,
    defs: &Definitions,
    flats: &[Flat],
    cases: &mut Row<CaseDef>,
    alternatives: &[Alternative],
) -> Result<Row<usize>, NoMemory>
    requires flats { AreFlats defs.now flats.now cases.old }
    requires known { AllKnown defs.now flats.now alternatives.now }
    ensures flats { OnOk result (AreFlats defs.now flats.now cases.new) }
    ensures flat { IfOk result
        (λ numbers. IsFlat defs.now cases.new numbers alternatives.now) }
{
    let mut numbers = Row::new(alloc);
    for i in 0..alternatives.len() {
        add_alternative(alloc, defs, flats, cases, &mut numbers, &alternatives[i])?;
    }
    Ok(numbers)
}

/// The numbers of the cases that an alias of this type brings.
fn flat_of_source(
    alloc: Global,
    defs: &Definitions,
    flats: &[Flat],
    ty: &Ty,
) -> Result<Row<usize>, NoMemory>
    requires size { length flats.now ≡ length defs.now }
    requires known { AllKnown defs.now flats.now (source_at (out-Ty ty.now)) }
    ensures { IfOk result (λ numbers. (cases : List CaseDef) → AreFlats defs.now flats.now cases
        → IsFlat defs.now cases numbers (source_at (out-Ty ty.now))) }
{
    match name_of(ty) {
        Some(name) => {
            let mut numbers = Row::new(alloc);
            add_included(defs, flats, &mut numbers, name)?;
            Ok(numbers)
        }
        None => Ok(Row::new(alloc)),
    }
}

/// The numbers of the cases of a body.
fn flat_of(
    alloc: Global,
    defs: &Definitions,
    flats: &[Flat],
    cases: &mut Row<CaseDef>,
    body: &SyntaxBody,
) -> Result<Row<usize>, NoMemory>
    requires flats { AreFlats defs.now flats.now cases.old }
    requires known { AllKnown defs.now flats.now (sources body.now) }
    ensures flats { OnOk result (AreFlats defs.now flats.now cases.new) }
    ensures flat { IfOk result (λ numbers. IsFlat defs.now cases.new numbers (sources body.now)) }
{
    match body {
        SyntaxBody::Alias(ty) => {
            let numbers = flat_of_source(alloc, defs, flats, ty)?;
            Ok(numbers)
        }
        SyntaxBody::Variant(alternatives) => {
            let alternatives = alternatives.as_slice();
            let numbers = flat_of_alternatives(alloc, defs, flats, cases, alternatives)?;
            Ok(numbers)
        }
        SyntaxBody::Fields(_) => Ok(Row::new(alloc)),
    }
}

/// Keeps the numbers of the cases of a definition, where they can be known and are not yet; and
/// whether it does.
fn fill_one(
    alloc: Global,
    defs: &Definitions,
    flats: &mut [Flat],
    cases: &mut Row<CaseDef>,
    at: usize,
) -> Result<bool, NoMemory>
    requires flats { AreFlats defs.now flats.old cases.old }
    requires within { at < length defs.now }
    ensures flats { OnOk result (AreFlats defs.now flats.new cases.new) }
    ensures fills { IfOk result (λ filled. Fills defs.now at flats.old flats.new filled) }
{
    if is_known_at(flats, at) {
        return Ok(false);
    }
    let body = &defs.nth(at).body;
    if !is_body_ready(defs, flats, body) {
        return Ok(false);
    }
    let numbers = flat_of(alloc, defs, flats, cases, body)?;
    flats[at] = Some(numbers);
    Ok(true)
}

/// Whether one of both is so.
fn either(one: bool, other: bool) -> bool
    ensures { result ≡ (one || other) }
{
    one || other
}

/// Keeps the numbers of the cases of definitions, in their order; and whether any were new.
fn fill(
    alloc: Global,
    defs: &Definitions,
    flats: &mut [Flat],
    cases: &mut Row<CaseDef>,
) -> Result<bool, NoMemory>
    requires { AreFlats defs.now flats.old cases.old }
    ensures flats { OnOk result (AreFlats defs.now flats.new cases.new) }
    ensures falls { IfOk result (λ changed. left changed flats.new < left true flats.old) }
    ensures filled { IfOk result (λ changed. changed ≡ false → AreFilled defs.now flats.new) }
{
    let mut changed = false;
    for at in 0..defs.len() {
        let filled = fill_one(alloc, defs, flats, cases, at)?;
        changed = either(changed, filled);
    }
    Ok(changed)
}

/// So many definitions whose cases are not known.
fn none_known(alloc: Global, len: usize) -> Result<Vec<Flat>, NoMemory>
    ensures { IfOk result (λ flats. flats.items ≡ replicate len None) }
{
    let mut flats = Vec::new(alloc);
    'rows: while flats.len() < len {
        flats.push(None)?;
    }
    Ok(flats)
}

/// The cases of all definitions.
pub(crate) fn flats_of(alloc: Global, defs: &Definitions) -> Result<Flattened, NoMemory>
    ensures flats { IfOk result (λ all. AreFlats defs.now all.flats all.cases) }
    ensures filled { IfOk result (λ all. AreFilled defs.now all.flats) }
{
    let mut cases = Row::new(alloc);
    let mut flats = none_known(alloc, defs.len())?;
    let mut changed = true;
    'passes: while changed {
        changed = fill(alloc, defs, &mut flats, &mut cases)?;
    }
    let flats = Row::from_vec(flats);
    Ok(Flattened { cases, flats })
}

/// The numbers of the cases of a definition, where it is a variant.
fn flat_of_variant<'a>(
    defs: &Definitions,
    flats: &'a [Flat],
    position: usize,
) -> Option<&'a Row<usize>>
    requires { position < length defs.now }
    ensures { (d : SyntaxDef) → slice_get defs.now position ≡ Some d
        → option_copied result ≡ where_listed (listed (Some d.body)) (flat_at flats.now position) }
{
    match &defs.nth(position).body {
        SyntaxBody::Variant(_) => flat_at(flats, position),
        SyntaxBody::Alias(_) => None,
        SyntaxBody::Fields(_) => None,
    }
}

/// The numbers of the cases of the variant that the type is the name of.
fn flat_here<'a>(defs: &Definitions, flats: &'a [Flat], ty: &Ty) -> Option<&'a Row<usize>>
    requires size { length flats.now ≡ length defs.now }
    requires filled { AreFilled defs.now flats.now }
    ensures { MatchOption result (NoFlatHere defs.now ty.now)
        (λ numbers. (cases : List CaseDef) → AreFlats defs.now flats.now cases
        → IsFlatHere defs.now cases ty.now numbers.now) }
{
    match head_of(defs, ty) {
        Some(position) => flat_of_variant(defs, flats, position),
        None => None,
    }
}

/// The numbers of the cases of a variant type.
pub(crate) fn flat_of_type<'a>(
    defs: &Definitions,
    heads: &[usize],
    flats: &'a [Flat],
    ty: &Ty,
) -> Option<&'a Row<usize>>
    requires heads { AreRanks (head_graph defs.now) heads.now }
    requires size { length flats.now ≡ length defs.now }
    requires filled { AreFilled defs.now flats.now }
    ensures { MatchOption result
        ((whole : List CaseDef) → HasCases defs.now ty.now whole → ⊥)
        (λ numbers. (cases : List CaseDef) → AreFlats defs.now flats.now cases
        → HasFlat defs.now cases ty.now numbers.now) }
{
    match meaning_of(defs, heads, ty) {
        Some(meaning) => flat_here(defs, flats, meaning),
        None => None,
    }
}

/// The types of the operands of the case of this number, where it has this tag.
fn operands_at<'a>(cases: &'a [CaseDef], number: usize, tag: &Name) -> Option<&'a Row<Ty>>
    ensures { option_copied result
        ≡ operands_of (one_case (slice_get cases.now number)) tag.now }
{
    match cases.get(number) {
        Some(case) => {
            if case.tag == *tag {
                return Some(&case.operands);
            }
            None
        }
        None => None,
    }
}

/// The types of the operands of the first of these cases with this tag.
pub(crate) fn first_operands<'a>(
    cases: &'a [CaseDef],
    numbers: &[usize],
    tag: &Name,
) -> Option<&'a Row<Ty>>
    ensures { option_copied result ≡ operands_of (cases_at cases.now numbers.now) tag.now }
{
    for number in numbers {
        if let Some(operands) = operands_at(cases, *number, tag) {
            return Some(operands);
        }
    }
    None
}
