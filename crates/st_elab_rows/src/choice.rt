//! Which case of a variant an expression is, and what fills its holes.

ghost use Rattle.std.specs.Prelude.{◌≡◌, MatchOption, List, IfOk, IfSome, IfNone};
ghost use Rattle.st_type_table.specs.declared.entry.CaseDef.{CaseDef};
ghost use Rattle.st_notation.specs.Key.{key_of};
ghost use Rattle.st_notation.specs.Fits.{Filling};
ghost use Rattle.st_notation.specs.Fitted.{fillings};
ghost use Rattle.st_il.specs.declared.template.Template.{Template, out-Template};
ghost use Rattle.st_il.specs.Template.{HasTag};
ghost use Rattle.st_elab_table.specs.Choice.{HasShape, HaveShapes, IsChosenAt, FillsCase, shape_of, is_hole, takes_whole_at, takes_whole};

use crate::form::is_single;
use st_el::Exp;
use st_il::{Key, Template, Ty, template_of};
use st_notation::{Filled, FitFault, Shape, fit, key_of_exp};
use st_num::{NoMemory, Row};
use st_types::{CaseDef, TypeTable};
use std::alloc::Global;

/// What a type is through aliases, to a notation.
pub fn shape_of(types: &TypeTable, ty: &Ty) -> Shape
    ensures { HasShape types.now ty.now result }
{
    shape_at(types.meaning(ty))
}

/// What a type is to a notation, where it is no alias.
fn shape_at(meaning: &Ty) -> Shape
    ensures { result ≡ shape_of meaning.now }
{
    match meaning {
        Ty::List(_) => Shape::List,
        Ty::Opt(_) => Shape::Opt,
        Ty::Bool | Ty::Nat | Ty::Int | Ty::Text => Shape::Plain,
        Ty::Name(_) | Ty::Tuple(_) => Shape::Plain,
    }
}

/// What each of these types is to a notation.
pub fn shapes_of(alloc: Global, types: &TypeTable, tys: &[Ty]) -> Result<Row<Shape>, NoMemory>
    ensures { IfOk result (HaveShapes types.now tys.now) }
{
    let mut shapes = Row::new(alloc);
    for ty in tys {
        shapes.push(shape_of(types, ty))?;
    }
    Ok(shapes)
}

/// The case of the type that is chosen by the key of the expression, or else the one without a key.
pub fn chosen_case<'a>(types: &'a TypeTable, ty: &Ty, exp: &Exp) -> Option<&'a CaseDef>
    ensures some { IfSome result (λ case. IsChosenAt types.now ty.now (key_of exp.now) case.now) }
    ensures none { IfNone result
        ((case : CaseDef) → IsChosenAt types.now ty.now (key_of exp.now) case → ⊥) }
{
    let key = key_of_exp(exp);
    if let Some(case) = types.case_with(ty, &key) {
        return Some(case);
    }
    types.case_with(ty, &Key::Free)
}

/// What fills the holes of the case, where the expression fits it.
pub fn fill<'e>(
    alloc: Global,
    types: &TypeTable,
    case: &CaseDef,
    exp: &'e Exp,
) -> Result<Option<Row<Filled<'e>>>, NoMemory>
    ensures { IfOk result (λ found. MatchOption found
        ((fs : List Filling) → FillsCase types.now case.now exp.now fs → ⊥)
        (λ filled. FillsCase types.now case.now exp.now (fillings filled))) }
{
    let Some(template) = template_of(alloc, &case.tag)? else {
        return Ok(None);
    };
    let shapes = shapes_of(alloc, types, case.operands.as_slice())?;
    match fit(alloc, &template, &shapes, exp) {
        Ok(filled) => {
            if filled.len() == case.operands.len() {
                return Ok(Some(filled));
            }
            Ok(None)
        }
        Err(FitFault::NoFit(_)) => Ok(None),
        Err(FitFault::Memory) => Err(NoMemory),
    }
}

/// Whether a part of a notation is a hole.
fn is_hole(template: &Template) -> bool
    ensures { result ≡ is_hole (out-Template template.now) }
{
    match template {
        Template::Hole => true,
        Template::Atom(_) | Template::Seq(_) | Template::Infix(_, _, _) => false,
        Template::Bracket(_, _) => false,
    }
}

/// Whether a hole of the notation takes the whole of an expression, if this is one element.
fn takes_whole_at(template: &Template, single: bool) -> bool
    ensures { result ≡ takes_whole_at (out-Template template.now) single }
{
    match template {
        Template::Hole => true,
        Template::Seq(parts) => match parts.as_slice() {
            [first, ..] => is_hole(first) && single,
            [] => false,
        },
        Template::Atom(_) | Template::Infix(_, _, _) | Template::Bracket(_, _) => false,
    }
}

/// Whether a hole of the case takes the whole of the expression, where its tag is a notation.
pub fn takes_whole(alloc: Global, case: &CaseDef, exp: &Exp) -> Result<bool, NoMemory>
    ensures { IfOk result (λ whole. (t : Template) → HasTag t case.now.tag
        → whole ≡ takes_whole t exp.now) }
{
    match template_of(alloc, &case.tag)? {
        Some(template) => Ok(takes_whole_at(&template, is_single(exp))),
        None => Ok(false),
    }
}
