//! The rows of expressions that are asked at a type.

ghost use Rattle.st_el.specs.declared.expression.Node.{out-Node};
ghost use Rattle.st_il.specs.declared.ty.Ty.{out-Ty};
ghost use Rattle.st_type_table.specs.Meaning.{Means};
ghost use Rattle.st_notation.specs.Elements.{opened};
ghost use Rattle.st_elab_table.specs.Checked.{sequence_at, form_row, plain_row, tuple_at, checked_row};
ghost use Rattle.st_elab_rows.specs.Asking.{manner, LeadsTo};

use crate::collection::{eps_row, other_row, sequence};
use crate::inferred::arguments;
use crate::record_row::{notation_row, record_row};
use crate::turn::iteration_row;
use st_el::{Exp, Node};
use st_elab_rows::ask::{asked_at, found_at};
use st_elab_rows::asking::{Context, Found, Part};
use st_elab_rows::elaborator::Elaborator;
use st_elab_rows::fitting::{concatenation_row, fitted, give_at};
use st_elab_rows::form::{inferable, is_run};
use st_elab_table::{ExpFault, Operator, operator_of};
use st_il::{IlExp, Ty};

/// A sequence: at a list type its items, or one element; at any other type by its notation.
fn sequence_at<E: Elaborator>(
    context: &Context<'_>,
    elaborator: &E,
    part: &Part<'_>,
    parts: &[Exp],
    ty: &Ty,
    meaning: &Ty,
) -> Result<Found, ExpFault>
    requires answers { E.AnswersByTable elaborator.now }
    ensures { LeadsTo context.now (sequence_at context.now.within.now part.now.at
        (manner part.now) part.now.exp.now parts.now ty.now meaning.now (out-Ty meaning.now))
        result }
{
    match meaning {
        Ty::List(of) => {
            if is_run(parts, part.in_parentheses) {
                return sequence(context, elaborator, part.at, parts, ty, of.get());
            }
            other_row(context, elaborator, part, ty, meaning)
        }
        _ => notation_row(context, elaborator, part, ty, meaning),
    }
}

/// An expression without a type of its own, at a type of this meaning.
fn form_row<E: Elaborator>(
    context: &Context<'_>,
    elaborator: &E,
    part: &Part<'_>,
    node: &Node,
    ty: &Ty,
    meaning: &Ty,
) -> Result<Found, ExpFault>
    requires answers { E.AnswersByTable elaborator.now }
    requires means { Means context.now.decls.now.types ty.now meaning.now }
    ensures { LeadsTo context.now (form_row context.now.decls.now context.now.scope.now
        context.now.within.now part.now.at (manner part.now) part.now.exp.now ty.now
        meaning.now (out-Node node.now)) result }
{
    match node {
        Node::Eps => eps_row(context, part.at, ty, meaning),
        Node::Binary(left, sign, right) => match operator_of(*sign) {
            Operator::Concatenation => {
                concatenation_row(context, elaborator, part.at, left.get(), right.get(), ty)
            }
            _ => other_row(context, elaborator, part, ty, meaning),
        },
        Node::Iter(body, count) => {
            iteration_row(context, elaborator, part, body.get(), count, ty, meaning)
        }
        Node::Seq(parts) => sequence_at(context, elaborator, part, parts.as_slice(), ty, meaning),
        Node::Fields(written) => {
            record_row(context, elaborator, part, written.as_slice(), ty, meaning)
        }
        Node::Atom(_) => notation_row(context, elaborator, part, ty, meaning),
        Node::Infix(_, _, _) => notation_row(context, elaborator, part, ty, meaning),
        Node::Bracket(_, _) => notation_row(context, elaborator, part, ty, meaning),
        _ => other_row(context, elaborator, part, ty, meaning),
    }
}

/// An expression at a type: an inferable one is fitted to it, any other goes by its form.
fn plain_row<E: Elaborator>(
    context: &Context<'_>,
    elaborator: &E,
    part: &Part<'_>,
    ty: &Ty,
) -> Result<Found, ExpFault>
    requires answers { E.AnswersByTable elaborator.now }
    ensures { LeadsTo context.now (plain_row context.now.decls.now context.now.scope.now
        context.now.within.now part.now.at (manner part.now) part.now.exp.now ty.now)
        result }
{
    if inferable(part.exp) {
        let given = found_at(context, elaborator, part.at, part.exp)?;
        return fitted(context, part.at, given, ty);
    }
    let meaning = context.decls.types.meaning(ty);
    form_row(context, elaborator, part, &part.exp.node, ty, meaning)
}

/// A tuple: by parts at a tuple type of its length, and else as any other expression.
fn tuple_at<E: Elaborator>(
    context: &Context<'_>,
    elaborator: &E,
    part: &Part<'_>,
    parts: &[Exp],
    ty: &Ty,
    meaning: &Ty,
) -> Result<Found, ExpFault>
    requires answers { E.AnswersByTable elaborator.now }
    ensures { LeadsTo context.now (tuple_at context.now.decls.now context.now.scope.now
        context.now.within.now part.now.at (manner part.now) part.now.exp.now parts.now
        ty.now (out-Ty meaning.now)) result }
{
    match meaning {
        Ty::Tuple(tys) => {
            if parts.len() == tys.len() {
                let all = arguments(context, elaborator, parts, tys.as_slice())?;
                let given = give_at(context.alloc, IlExp::Tuple(all), ty)?;
                return Ok(given);
            }
            plain_row(context, elaborator, part, ty)
        }
        _ => plain_row(context, elaborator, part, ty),
    }
}

/// A part at a type, by its form. Parentheses change nothing but the place.
pub fn checked_row<E: Elaborator>(
    context: &Context<'_>,
    elaborator: &E,
    part: &Part<'_>,
    ty: &Ty,
) -> Result<Found, ExpFault>
    requires answers { E.AnswersByTable elaborator.now }
    ensures { LeadsTo context.now (checked_row context.now.decls.now context.now.scope.now
        context.now.within.now part.now.at (manner part.now) part.now.exp.now ty.now
        (opened part.now.exp.now)) result }
{
    match &part.exp.node {
        Node::Paren(inner) => asked_at(
            context,
            elaborator,
            &Part {
                at: part.at,
                in_parentheses: true,
                passed: part.passed,
                exp: inner.get(),
            },
            ty,
        ),
        Node::Tuple(parts) => {
            let meaning = context.decls.types.meaning(ty);
            tuple_at(context, elaborator, part, parts.as_slice(), ty, meaning)
        }
        _ => plain_row(context, elaborator, part, ty),
    }
}
