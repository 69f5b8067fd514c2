//! The rows of expressions that have a type of their own.

ghost use Rattle.std.specs.Prelude.{◌≡◌, IfOk, Err, map};
ghost use Rattle.st_num.specs.declared.rule.RuleId.TheVariants.{Y3};
ghost use Rattle.st_il.specs.declared.ty.Ty.TheVariants as typ;
ghost use Rattle.st_il.specs.declared.expression.IlExp.TheVariants as il;
ghost use Rattle.st_num.specs.declared.fault.Fault.TheVariants as fault;
ghost use Rattle.st_el.specs.declared.expression.Node.{out-Node};
ghost use Rattle.st_notation.specs.Elements.{opened};
ghost use Rattle.st_elab_table.specs.Operators.{operator_of};
ghost use Rattle.st_elab_table.specs.Operands.{binary_row};
ghost use Rattle.st_elab_table.specs.Inferred.{variable_type, variable_row, fun_named, call_row, inferred_tuple, inferred_at, inferred_row};
ghost use Rattle.st_elab_table.specs.Steps.{made, give, found, each_asked, exp_of};
ghost use Rattle.st_elab_rows.specs.Asking.{LeadsTo, made_by};
ghost use Rattle.st_elab_rows.specs.Told.{TellsAll};
ghost use Rattle.st_elab_exp.specs.inner.Pairs.{TellsPairs};

use crate::turn::inferred_iteration;
use st_dims::is_among;
use st_el::{Exp, Node};
use st_elab_rows::ask::{asked, found, found_at};
use st_elab_rows::asking::{Context, Found, give};
use st_elab_rows::elaborator::Elaborator;
use st_elab_rows::fitting::{give_at, inferred_concatenation};
use st_elab_rows::form::inferable;
use st_elab_rows::number::{arithmetic_row, negation_row, order_row, power_row};
use st_elab_rows::operand::{equation_row, logic_row, membership_row, not_row};
use st_elab_rows::part::{field_row, length_row, position_row, slice_row};
use st_elab_rows::path::{extension_row, update_row};
use st_elab_rows::variable::{fun_named, scoped_type, type_of_name};
use st_elab_table::{ExpFault, Operator, operator_of};
use st_il::{IlExp, Ty, copy_ty};
use st_num::{Mark, Name, NoMemory, Row, RuleId, Span};

/// The type of a variable, by its scope or by its name, if it has one.
fn variable_type(context: &Context<'_>, name: &Name) -> Result<Option<Ty>, NoMemory>
    ensures { IfOk result (λ ty. ty ≡ variable_type context.now.decls.now context.now.scope.now
        context.now.within.now name.now) }
{
    if is_among(name, context.within.indices.as_slice()) {
        return Ok(Some(Ty::Nat));
    }
    if let Some(ty) = scoped_type(context.scope.variables.as_slice(), name) {
        return Ok(Some(copy_ty(context.alloc, ty)?));
    }
    type_of_name(context.alloc, context.decls, name)
}

/// A variable, of the type that its scope or its name gives it; B3 where none does.
fn variable_row(context: &Context<'_>, at: Span, name: &Name) -> Result<Found, ExpFault>
    ensures { LeadsTo context.now (variable_row at name.now (variable_type context.now.decls.now
        context.now.scope.now context.now.within.now name.now)) result }
{
    let Some(ty) = variable_type(context, name)? else {
        return Err(ExpFault::Refused {
            at,
            rule: RuleId::B3,
        });
    };
    let exp = IlExp::Var(name.copy(context.alloc)?);
    let given = give(context.alloc, exp, ty)?;
    Ok(given)
}

/// A truth value, of type `bool`.
fn bool_row(context: &Context<'_>, truth: bool) -> Result<Found, ExpFault>
    ensures { LeadsTo context.now (give (il.Bool truth) typ.Bool) result }
{
    let given = give(context.alloc, IlExp::Bool(truth), Ty::Bool)?;
    Ok(given)
}

/// A number, of type `nat`.
fn number_row(context: &Context<'_>, number: u128) -> Result<Found, ExpFault>
    ensures { LeadsTo context.now (give (il.Number number) typ.Nat) result }
{
    let given = give(context.alloc, IlExp::Number(number), Ty::Nat)?;
    Ok(given)
}

/// A text, of type `text`.
fn text_row(context: &Context<'_>, text: &Name) -> Result<Found, ExpFault>
    ensures { LeadsTo context.now (give (il.Text text.now) typ.Text) result }
{
    let exp = IlExp::Text(text.copy(context.alloc)?);
    let given = give(context.alloc, exp, Ty::Text)?;
    Ok(given)
}

/// What each expression is at its type.
pub fn arguments<E: Elaborator>(
    context: &Context<'_>,
    elaborator: &E,
    exps: &[Exp],
    tys: &[Ty],
) -> Result<Row<IlExp>, ExpFault>
    requires answers { E.AnswersByTable elaborator.now }
    ensures { TellsAll context.now.decls.now context.now.scope.now
        (each_asked context.now.within.now exps.now tys.now) exp_of result }
{
    let mut all = Row::new(context.alloc);
    let mut rest = tys;
    for exp in exps {
        let Some((ty, others)) = rest.split_first() else {
            return Ok(all);
        };
        let one = asked(context, elaborator, exp, ty)?;
        all.push(one.exp.into_inner())?;
        rest = others;
    }
    Ok(all)
}

/// A call of a declared function, its arguments at the types of the parameters.
fn call_row<E: Elaborator>(
    context: &Context<'_>,
    elaborator: &E,
    at: Span,
    name: &Name,
    exps: &[Exp],
) -> Result<Found, ExpFault>
    requires answers { E.AnswersByTable elaborator.now }
    ensures { LeadsTo context.now (call_row context.now.within.now at exps.now
        (fun_named context.now.decls.now.funs name.now)) result }
{
    let Some(fun) = fun_named(&context.decls.funs, name) else {
        return Err(ExpFault::Refused {
            at,
            rule: RuleId::B2,
        });
    };
    if exps.len() != fun.params.len() {
        return Err(ExpFault::Refused {
            at,
            rule: RuleId::Y6,
        });
    }
    let all = arguments(context, elaborator, exps, fun.params.as_slice())?;
    let exp = IlExp::Call(fun.name.copy(context.alloc)?, all);
    let given = give_at(context.alloc, exp, &fun.result)?;
    Ok(given)
}

/// Expressions, and their types.
#[derive(Drop)]
pub struct FoundAll {
    pub exps: Row<IlExp>,
    pub tys: Row<Ty>,
}

/// Each expression with its inferred type.
fn each_found<E: Elaborator>(
    context: &Context<'_>,
    elaborator: &E,
    exps: &[Exp],
) -> Result<FoundAll, ExpFault>
    requires answers { E.AnswersByTable elaborator.now }
    ensures { TellsPairs context.now (map (found context.now.within.now) exps.now) result }
{
    let mut parts = Row::new(context.alloc);
    let mut tys = Row::new(context.alloc);
    for exp in exps {
        let one = found(context, elaborator, exp)?;
        parts.push(one.exp.into_inner())?;
        tys.push(one.ty)?;
    }
    Ok(FoundAll { exps: parts, tys })
}

/// A tuple of inferred parts, of the tuple of their types.
fn tuple_row<E: Elaborator>(
    context: &Context<'_>,
    elaborator: &E,
    exps: &[Exp],
) -> Result<Found, ExpFault>
    requires answers { E.AnswersByTable elaborator.now }
    ensures { LeadsTo context.now (inferred_tuple context.now.within.now exps.now) result }
{
    let all = each_found(context, elaborator, exps)?;
    let given = give(context.alloc, IlExp::Tuple(all.exps), Ty::Tuple(all.tys))?;
    Ok(given)
}

/// Two operands of a sign, by the kind of operator that it is.
fn binary_row<E: Elaborator>(
    context: &Context<'_>,
    elaborator: &E,
    at: Span,
    left: &Exp,
    sign: Mark,
    right: &Exp,
) -> Result<Found, ExpFault>
    requires answers { E.AnswersByTable elaborator.now }
    ensures { LeadsTo context.now (binary_row context.now.within.now at sign left.now right.now
        (operator_of sign)) result }
{
    match operator_of(sign) {
        Operator::Logic => logic_row(context, elaborator, sign, left, right),
        Operator::Equation => equation_row(context, elaborator, at, sign, left, right),
        Operator::Order => order_row(context, elaborator, sign, left, right),
        Operator::Membership => membership_row(context, elaborator, at, left, right),
        Operator::Concatenation => inferred_concatenation(context, elaborator, at, left, right),
        Operator::Arithmetic => arithmetic_row(context, elaborator, sign, left, right),
        Operator::Power => power_row(context, elaborator, left, right),
        Operator::Other => Err(ExpFault::Refused {
            at,
            rule: RuleId::Y3,
        }),
    }
}

/// An expression of a form that has a type of its own, or Y3.
fn inferred_at<E: Elaborator>(
    context: &Context<'_>,
    elaborator: &E,
    at: Span,
    node: &Node,
) -> Result<Found, ExpFault>
    requires answers { E.AnswersByTable elaborator.now }
    ensures { LeadsTo context.now (inferred_at context.now.decls.now context.now.scope.now
        context.now.within.now at (out-Node node.now)) result }
{
    match node {
        Node::Name(name) => variable_row(context, at, name),
        Node::Bool(truth) => bool_row(context, *truth),
        Node::Number(number) => number_row(context, *number),
        Node::Text(text) => text_row(context, text),
        Node::Binary(left, sign, right) => {
            binary_row(context, elaborator, at, left.get(), *sign, right.get())
        }
        Node::Not(inner) => not_row(context, elaborator, inner.get()),
        Node::Neg(operand) => negation_row(context, elaborator, operand.get()),
        Node::Arith(inner) => found(context, elaborator, inner.get()),
        Node::Paren(inner) => found_at(context, elaborator, at, inner.get()),
        Node::Tuple(parts) => tuple_row(context, elaborator, parts.as_slice()),
        Node::Dot(operand, name) => field_row(context, elaborator, at, operand.get(), name),
        Node::At(operand, from) => position_row(context, elaborator, operand.get(), from.get()),
        Node::Slice(operand, from, length) => {
            slice_row(context, elaborator, operand.get(), from.get(), length.get())
        }
        Node::Update(operand, path, value) => {
            let path = path.as_slice();
            update_row(context, elaborator, at, operand.get(), path, value.get())
        }
        Node::Extend(operand, path, list) => {
            let path = path.as_slice();
            extension_row(context, elaborator, at, operand.get(), path, list.get())
        }
        Node::Len(operand) => length_row(context, elaborator, operand.get()),
        Node::Call(name, parts) => call_row(context, elaborator, at, name, parts.as_slice()),
        Node::Iter(body, count) => inferred_iteration(context, elaborator, body.get(), count),
        Node::Atom(_) | Node::Eps | Node::Seq(_) | Node::Infix(_, _, _) => untyped(at),
        Node::Bracket(_, _) | Node::Fields(_) => untyped(at),
    }
}

/// The breach of Y3: no type of its own can be found.
fn untyped(at: Span) -> Result<Found, ExpFault>
    ensures { result ≡ Err (fault.Refused at Y3) }
{
    Err(ExpFault::Refused {
        at,
        rule: RuleId::Y3,
    })
}

/// What an expression is, and its type; Y3 where it is not inferable.
pub fn inferred_row<E: Elaborator>(
    context: &Context<'_>,
    elaborator: &E,
    at: Span,
    exp: &Exp,
) -> Result<Found, ExpFault>
    requires answers { E.AnswersByTable elaborator.now }
    ensures { LeadsTo context.now (inferred_row context.now.decls.now context.now.scope.now
        context.now.within.now at exp.now (opened exp.now)) result }
{
    if inferable(exp) {
        return inferred_at(context, elaborator, at, &exp.node);
    }
    untyped(at)
}
