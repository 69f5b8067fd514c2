//! The fit of an expression to a template.

ghost use Rattle.std.specs.Prelude.{◌≡◌, ◌++◌, [], ◌∷◌, length, IfOk};
ghost use Rattle.st_notation.specs.Fits.{Fits, FitInOrder, FitsWhole};
ghost use Rattle.st_il.specs.Template.{holes};
ghost use Rattle.st_notation.specs.Fitted.{Fitted, IsOnly};
ghost use Rattle.st_notation.specs.inner.Steps.{Took};

use crate::element::{bare, begins, behind, elements, inside, is_atom, sides};
use crate::share::share_of;
use crate::{Filled, FitFault, Shape};
use st_el::Exp;
use st_il::Template;
use st_num::{Mark, NoMemory, Row, Span};
use std::alloc::Global;

/// What the first part of a sequence takes: what fills its holes, and how many elements.
#[derive(Drop)]
struct Taken<'a> {
    filled: Row<Filled<'a>>,
    count: usize,
}

/// What fills the holes of the template where the expression fits it: one filling for each hole.
/// The shapes are those of its holes.
pub fn fit<'a>(
    alloc: Global,
    template: &Template,
    shapes: &Row<Shape>,
    exp: &'a Exp,
) -> Result<Row<Filled<'a>>, FitFault>
    ensures fitted { Fitted exp.now.at (FitsWhole template.now shapes.now exp.now) result }
    ensures only { IfOk result (IsOnly (FitsWhole template.now shapes.now exp.now)) }
    ensures each { IfOk result (λ found. length found ≡ holes template.now) }
{
    let filled = fit_side(alloc, template, shapes.as_slice(), bare(exp), exp.at)?;
    Ok(filled)
}

/// What fills the holes of a template where the expression fits it, parentheses or not.
#[cycle(fit)]
fn fit_side<'a>(
    alloc: Global,
    template: &Template,
    shapes: &[Shape],
    exp: &'a Exp,
    at: Span,
) -> Result<Row<Filled<'a>>, FitFault>
    ensures { Fitted at (Fits template.now shapes.now exp.now) result }
{
    match template {
        Template::Atom(name) => {
            if is_atom(bare(exp), name) {
                Ok(Row::new(alloc))
            } else {
                Err(FitFault::NoFit(at))
            }
        }
        Template::Hole => Ok(only(alloc, Filled::One(exp))?),
        Template::Seq(parts) => {
            fit_sequence(alloc, parts.as_slice(), shapes, elements(bare(exp)), at)
        }
        Template::Infix(left, sign, right) => {
            let Some(both) = sides(bare(exp), *sign) else {
                return Err(FitFault::NoFit(at));
            };
            let before = fit_side(alloc, left.get(), shapes, both.0, at)?;
            let shapes = behind(shapes, before.len());
            let after = fit_side(alloc, right.get(), shapes, both.1, at)?;
            Ok(joined(before, after)?)
        }
        Template::Bracket(opening, inside_it) => {
            let Some(inner) = inside(bare(exp), *opening) else {
                return Err(FitFault::NoFit(at));
            };
            fit_side(alloc, inside_it.get(), shapes, inner, at)
        }
    }
}

/// What fills the holes of a sequence where the elements fit its parts one after another.
#[cycle(fit)]
fn fit_sequence<'a>(
    alloc: Global,
    parts: &[Template],
    shapes: &[Shape],
    elements: &'a [Exp],
    at: Span,
) -> Result<Row<Filled<'a>>, FitFault>
    ensures { Fitted at (FitInOrder parts.now shapes.now elements.now) result }
{
    let mut filled = Row::new(alloc);
    let mut shapes_left = shapes;
    let mut left = elements;
    for index in 0..parts.len() {
        let next = behind(parts, index + 1);
        let taken = fit_part(alloc, &parts[index], next, shapes_left, left, at)?;
        shapes_left = behind(shapes_left, taken.filled.len());
        left = behind(left, taken.count);
        filled = joined(filled, taken.filled)?;
    }
    if left.is_empty() {
        Ok(filled)
    } else {
        Err(FitFault::NoFit(at))
    }
}

/// What the first part of a sequence takes of the elements that are left.
#[cycle(fit)]
fn fit_part<'a>(
    alloc: Global,
    part: &Template,
    next: &[Template],
    shapes: &[Shape],
    elements: &'a [Exp],
    at: Span,
) -> Result<Taken<'a>, FitFault>
    ensures { Took at part.now next.now shapes.now elements.now result }
{
    match part {
        Template::Atom(name) => {
            if begins(elements, name) {
                let filled = Row::new(alloc);
                Ok(Taken { filled, count: 1 })
            } else {
                Err(FitFault::NoFit(at))
            }
        }
        Template::Hole => {
            let Some(shape) = shapes.first() else {
                return Err(FitFault::NoFit(at));
            };
            let Some(share) = share_of(*shape, next, elements) else {
                return Err(FitFault::NoFit(at));
            };
            let filled = only(alloc, share.filling)?;
            Ok(Taken {
                filled,
                count: share.count,
            })
        }
        Template::Bracket(opening, inside_it) => {
            let Some(first) = elements.first() else {
                return Err(FitFault::NoFit(at));
            };
            let Some(inner) = inside(first, *opening) else {
                return Err(FitFault::NoFit(at));
            };
            let filled = fit_side(alloc, inside_it.get(), shapes, inner, at)?;
            Ok(Taken { filled, count: 1 })
        }
        Template::Seq(_) => Err(FitFault::NoFit(at)),
        Template::Infix(_, _, _) => Err(FitFault::NoFit(at)),
    }
}

/// One filling, in a row.
fn only<'a>(alloc: Global, filling: Filled<'a>) -> Result<Row<Filled<'a>>, NoMemory>
    ensures { IfOk result (λ row. row ≡ filling.entry ∷ []) }
{
    let mut row = Row::new(alloc);
    row.push(filling)?;
    Ok(row)
}

/// The fillings of the front, and those of the back behind them.
fn joined<'a>(front: Row<Filled<'a>>, back: Row<Filled<'a>>) -> Result<Row<Filled<'a>>, NoMemory>
    ensures { IfOk result (λ row. row ≡ front.entry ++ back.entry) }
{
    let mut row = front;
    for filling in back.as_slice() {
        row.push(*filling)?;
    }
    Ok(row)
}
