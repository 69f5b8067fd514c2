//! The rows of records and of notation.

ghost use Rattle.std.specs.Prelude.{◌≡◌, ◌∷◌, List, ℕ, Err, IfOk, MatchOption, None};
ghost use Rattle.st_num.specs.declared.rule.RuleId.TheVariants.{Y2};
ghost use Rattle.st_num.specs.declared.fault.Fault.TheVariants as fault;
ghost use Rattle.std.specs.Option.{option_map};
ghost use Rattle.st_il.specs.declared.ty.Ty.{Ty, out-Ty};
ghost use Rattle.st_il.specs.declared.ty.Ty.TheVariants as typ;
ghost use Rattle.st_type_table.specs.Cases.{HasFields};
ghost use Rattle.st_type_table.specs.Meaning.{Means, fields_of};
ghost use Rattle.st_notation.specs.declared.filled.Shape.{Shape};
ghost use Rattle.st_notation.specs.Fits.{Filling};
ghost use Rattle.st_notation.specs.Fitted.{plain, fillings};
ghost use Rattle.st_elab_table.specs.Records.{is_omissible, omitted, aligned, field_names, fields_of_record, record_row, case_row, variant_row, notation_row};
ghost use Rattle.st_elab_rows.specs.Asking.{manner, LeadsTo};

use crate::collection::{all_holes, other_row};
use st_dims::is_among;
use st_el::Exp;
use st_elab_rows::asking::{Context, Found, Part};
use st_elab_rows::choice::{chosen_case, fill, shapes_of, takes_whole};
use st_elab_rows::elaborator::Elaborator;
use st_elab_rows::fitting::give_at;
use st_elab_rows::passed::passed_on;
use st_elab_rows::record::field_types;
use st_elab_table::ExpFault;
use st_il::{IlExp, Ty};
use st_notation::{Filled, Shape};
use st_num::{Name, NoMemory, Row, RuleId, Span};
use std::alloc::Global;

/// Whether a field of this shape may be left out.
fn is_omissible(shape: Shape) -> bool
    ensures { result ≡ is_omissible shape }
{
    match shape {
        Shape::Plain => false,
        Shape::List | Shape::Opt => true,
    }
}

/// What fills a declared field, and the written fields behind it.
#[derive(Clone, Copy)]
struct Placed<'e> {
    filling: Filled<'e>,
    rest: &'e [(Name, Exp)],
}

/// The first written field, where it has this name.
fn first_named<'e>(name: &Name, written: &'e [(Name, Exp)]) -> Option<Placed<'e>>
    ensures { (names : List (List ℕ)) (s : Shape) (ss : List Shape) → MatchOption result
        (aligned (name.now ∷ names) (s ∷ ss) written.now
        ≡ omitted s (aligned names ss written.now))
        (λ placed. aligned (name.now ∷ names) (s ∷ ss) written.now
        ≡ option_map (λ (fs : List Filling). plain placed.filling ∷ fs)
        (aligned names ss placed.rest.now)) }
{
    let (first, rest) = written.split_first()?;
    if *name == first.0 {
        return Some(Placed {
            filling: Filled::One(&first.1),
            rest,
        });
    }
    None
}

/// The first written field fills the declared field of this name, or else it is left out.
fn place_field<'e>(name: &Name, shape: Shape, written: &'e [(Name, Exp)]) -> Option<Placed<'e>>
    ensures { (names : List (List ℕ)) (ss : List Shape) → MatchOption result
        (aligned (name.now ∷ names) (shape ∷ ss) written.now ≡ None)
        (λ placed. aligned (name.now ∷ names) (shape ∷ ss) written.now
        ≡ option_map (λ (fs : List Filling). plain placed.filling ∷ fs)
        (aligned names ss placed.rest.now)) }
{
    if let Some(placed) = first_named(name, written) {
        return Some(placed);
    }
    if is_omissible(shape) {
        return Some(Placed {
            filling: Filled::Missing,
            rest: written,
        });
    }
    None
}

/// What fills the declared fields, in their order.
fn aligned<'e>(
    alloc: Global,
    fields: &[(Name, Ty)],
    shapes: &[Shape],
    written: &'e [(Name, Exp)],
) -> Result<Option<Row<Filled<'e>>>, NoMemory>
    ensures { IfOk result (λ found. option_map fillings found
        ≡ aligned (field_names fields.now) shapes.now written.now) }
{
    let mut filled = Row::new(alloc);
    let mut left = shapes;
    let mut rest = written;
    for field in fields {
        let Some((shape, others)) = left.split_first() else {
            return Ok(None);
        };
        let Some(placed) = place_field(&field.0, *shape, rest) else {
            return Ok(None);
        };
        filled.push(placed.filling)?;
        left = others;
        rest = placed.rest;
    }
    if rest.is_empty() {
        return Ok(Some(filled));
    }
    Ok(None)
}

/// The written fields, at the record type of this name.
fn fields_of_record<E: Elaborator>(
    context: &Context<'_>,
    elaborator: &E,
    at: Span,
    name: &Name,
    written: &[(Name, Exp)],
    ty: &Ty,
    fields: &[(Name, Ty)],
) -> Result<Found, ExpFault>
    requires answers { E.AnswersByTable elaborator.now }
    ensures { LeadsTo context.now (fields_of_record context.now.within.now at name.now written.now
        ty.now fields.now) result }
{
    let tys = field_types(context.alloc, fields)?;
    let shapes = shapes_of(context.alloc, &context.decls.types, tys.as_slice())?;
    let Some(filled) = aligned(context.alloc, fields, shapes.as_slice(), written)? else {
        return Err(ExpFault::Refused {
            at,
            rule: RuleId::Y4,
        });
    };
    let all = all_holes(
        context,
        elaborator,
        at,
        &[],
        filled.as_slice(),
        tys.as_slice(),
    )?;
    let exp = IlExp::Fields(name.copy(context.alloc)?, all);
    let given = give_at(context.alloc, exp, ty)?;
    Ok(given)
}

/// A record, at a type of this meaning.
pub fn record_row<E: Elaborator>(
    context: &Context<'_>,
    elaborator: &E,
    part: &Part<'_>,
    written: &[(Name, Exp)],
    ty: &Ty,
    meaning: &Ty,
) -> Result<Found, ExpFault>
    requires answers { E.AnswersByTable elaborator.now }
    requires means { Means context.now.decls.now.types ty.now meaning.now }
    ensures { LeadsTo context.now (record_row context.now.decls.now context.now.within.now
        part.now.at (manner part.now) part.now.exp.now written.now ty.now meaning.now)
        result }
{
    match ty {
        Ty::Name(name) => match context.decls.types.fields(ty) {
            Some(fields) => fields_of_record(
                context, elaborator, part.at, name, written, ty, fields,
            ),
            None => other_row(context, elaborator, part, ty, meaning),
        },
        _ => other_row(context, elaborator, part, ty, meaning),
    }
}

/// The case of the variant of this name, which the type means, that the expression is.
fn case_row<E: Elaborator>(
    context: &Context<'_>,
    elaborator: &E,
    part: &Part<'_>,
    ty: &Ty,
    variant: &Name,
) -> Result<Found, ExpFault>
    requires { E.AnswersByTable elaborator.now }
    ensures { LeadsTo context.now (case_row context.now.within.now part.now.at part.now.passed.now
        part.now.exp.now ty.now variant.now) result }
{
    let Ty::Name(name) = ty else {
        return unfit(part.at);
    };
    let Some(case) = chosen_case(&context.decls.types, ty, part.exp) else {
        return unfit(part.at);
    };
    let Some(filled) = fill(context.alloc, &context.decls.types, case, part.exp)? else {
        return unfit(part.at);
    };
    let whole = takes_whole(context.alloc, case, part.exp)?;
    let passed = passed_on(context.alloc, whole, part.passed, variant)?;
    let all = all_holes(
        context,
        elaborator,
        part.at,
        passed.as_slice(),
        filled.as_slice(),
        case.operands.as_slice(),
    )?;
    let name = name.copy(context.alloc)?;
    let tag = case.tag.copy(context.alloc)?;
    let given = give_at(context.alloc, IlExp::Case(name, tag, all), ty)?;
    Ok(given)
}

/// The breach of Y2: the expression is no case of the type.
fn unfit(at: Span) -> Result<Found, ExpFault>
    ensures { result ≡ Err (fault.Refused at Y2) }
{
    Err(ExpFault::Refused {
        at,
        rule: RuleId::Y2,
    })
}

/// The case of a variant of this meaning; none where the expression itself is being asked at this
/// variant already.
fn variant_row<E: Elaborator>(
    context: &Context<'_>,
    elaborator: &E,
    part: &Part<'_>,
    ty: &Ty,
    meaning: &Ty,
) -> Result<Found, ExpFault>
    requires { E.AnswersByTable elaborator.now }
    ensures { LeadsTo context.now (variant_row context.now.within.now part.now.at
        part.now.passed.now part.now.exp.now ty.now (out-Ty meaning.now)) result }
{
    let Ty::Name(variant) = meaning else {
        return unfit(part.at);
    };
    if is_among(variant, part.passed) {
        return unfit(part.at);
    }
    case_row(context, elaborator, part, ty, variant)
}

/// An atom, a sequence, a sign of notation or a bracket, at a type of this meaning.
pub fn notation_row<E: Elaborator>(
    context: &Context<'_>,
    elaborator: &E,
    part: &Part<'_>,
    ty: &Ty,
    meaning: &Ty,
) -> Result<Found, ExpFault>
    requires answers { E.AnswersByTable elaborator.now }
    ensures { LeadsTo context.now (notation_row context.now.within.now part.now.at
        (manner part.now) part.now.exp.now ty.now meaning.now) result }
{
    match context.decls.types.cases(ty) {
        Some(_) => variant_row(context, elaborator, part, ty, meaning),
        None => other_row(context, elaborator, part, ty, meaning),
    }
}
