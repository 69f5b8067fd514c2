//! Premises of the open definition.

ghost use Rattle.std.specs.Prelude.{◌≡◌, [], ◌∷◌, ◌++◌, true, None, Some, slice_get, IfOk};
ghost use Rattle.st_el.specs.declared.definition.PremNode.TheVariants as prem;
ghost use Rattle.st_parse_builder.specs.Names.{name_of};
ghost use Rattle.st_parse_builder.specs.Definitions.{prem_at};
ghost use Rattle.st_parse.specs.inner.Drafts as spec;

use crate::draft::{Draft, Premises};
use st_el::{Count, Exp, Prem, PremNode};
use st_num::{Boxed, Mark, Name, NoMemory, Row, Span, Token};
use st_parse_automaton::Shape;
use st_parse_builder::{copy_name, mark_count};
use std::alloc::Global;

/// Whole premises alone.
pub(crate) fn premises_so_far(alloc: Global, whole: Row<Prem>) -> Premises
    ensures { result ≡ spec.premises_so_far whole }
{
    Premises {
        whole,
        at: Span::NOWHERE,
        opened: Row::new(alloc),
        start: Span::NOWHERE,
        goal: None,
        prem: None,
    }
}

/// The premise so far is whole, and begins with its `--`.
fn end_condition(premises: &mut Premises) -> Result<(), NoMemory>
    ensures whole { IfOk result (λ _. premises.new.whole ≡ spec.prem_whole true premises.old) }
{
    let at = premises.at;
    if let Some(prem) = premises.prem.take() {
        let node = prem.node;
        premises.whole.push(Prem { at, node })?;
    }
    Ok(())
}

/// All premises, also that which is read where a condition ends with it.
pub(crate) fn whole_premises(mut premises: Premises, condition: bool) -> Result<Row<Prem>, NoMemory>
    ensures { IfOk result (λ whole. whole ≡ spec.prem_whole condition premises) }
{
    if condition {
        end_condition(&mut premises)?;
    }
    Ok(premises.whole)
}

/// A premise begins, behind one that ends or behind none.
fn begin(
    alloc: Global,
    premises: &mut Premises,
    condition: bool,
    token: &Token,
) -> Result<(), NoMemory>
    ensures { IfOk result (λ _.
        premises.new ≡ spec.premise_begun condition token.now premises.old) }
{
    let old = std::mem::replace(premises, premises_so_far(alloc, Row::new(alloc)));
    premises.whole = whole_premises(old, condition)?;
    premises.at = token.at;
    Ok(())
}

/// `--` is read, and whether a condition ends before it.
pub(crate) fn begin_premise(
    alloc: Global,
    draft: &mut Draft,
    condition: bool,
    token: &Token,
) -> Result<(), NoMemory>
    ensures { IfOk result (λ _. draft.new
        ≡ spec.with_premises (spec.premise_begun condition token.now draft.old.premises)
        draft.old) }
{
    begin(alloc, &mut draft.premises, condition, token)
}

/// A `(` before a condition is read.
pub(crate) fn put_parenthesis(draft: &mut Draft, token: &Token) -> Result<(), NoMemory>
    ensures { IfOk result (λ _. draft.new
        ≡ spec.with_premises (spec.premise_opened token.now draft.old.premises) draft.old) }
{
    draft.premises.opened.push(token.at)?;
    Ok(())
}

/// The `if` of a condition is read.
pub(crate) fn put_if(draft: &mut Draft, token: &Token)
    ensures { draft.new
        ≡ spec.with_premises (spec.condition_begun token.now None draft.old.premises) draft.old }
{
    draft.premises.start = token.at;
    draft.premises.goal = None;
}

/// The relation of a judgement is read.
pub(crate) fn put_goal(alloc: Global, draft: &mut Draft, token: &Token) -> Result<(), NoMemory>
    ensures { IfOk result (λ _. draft.new
        ≡ spec.with_premises
        (spec.condition_begun token.now (Some (name_of token.now.kind)) draft.old.premises)
        draft.old) }
{
    let name = copy_name(alloc, &token.kind)?;
    draft.premises.start = token.at;
    draft.premises.goal = Some(name);
    Ok(())
}

/// All premises, where the open one is `otherwise`.
fn with_otherwise(premises: Premises) -> Result<Row<Prem>, NoMemory>
    ensures { IfOk result (λ whole.
        whole ≡ premises.whole ++ prem_at premises.at prem.Otherwise ∷ []) }
{
    let at = premises.at;
    let mut whole = premises.whole;
    whole.push(Prem {
        at,
        node: PremNode::Otherwise,
    })?;
    Ok(whole)
}

/// `otherwise` is read.
pub(crate) fn put_otherwise(alloc: Global, draft: &mut Draft) -> Result<(), NoMemory>
    ensures { IfOk result (λ _. draft.new
        ≡ spec.with_premises (spec.otherwise_put draft.old.premises) draft.old) }
{
    let none = premises_so_far(alloc, Row::new(alloc));
    let old = std::mem::replace(&mut draft.premises, none);
    draft.premises.whole = with_otherwise(old)?;
    Ok(())
}

/// What a condition asks: that an expression holds, or that the relation of this name does.
fn condition_node(goal: Option<Name>, exp: Exp) -> PremNode
    ensures { result ≡ spec.condition_node goal exp }
{
    match goal {
        None => PremNode::If(exp),
        Some(name) => PremNode::Goal(name, exp),
    }
}

/// A condition is read.
pub(crate) fn put_condition(draft: &mut Draft, exp: Exp)
    ensures { draft.new ≡ spec.condition_filled exp draft.old }
{
    let goal = draft.premises.goal.take();
    draft.premises.prem = Some(Prem {
        at: draft.premises.start,
        node: condition_node(goal, exp),
    });
}

/// What stands in parentheses is iterated.
fn each_of(
    alloc: Global,
    at: Span,
    count: Count,
    prem: Option<Prem>,
) -> Result<Option<Prem>, NoMemory>
    ensures { IfOk result (λ each. each ≡ spec.each_of at count prem) }
{
    let Some(prem) = prem else {
        return Ok(None);
    };
    let node = PremNode::Each(Boxed::new(alloc, prem)?, count);
    Ok(Some(Prem { at, node }))
}

/// The place of the innermost `(` that is closed, where so many are open round it.
fn opened_at(opened: &[Span], around: usize) -> Span
    ensures { result ≡ spec.span_or (slice_get opened.now around) }
{
    match opened.get(around) {
        Some(at) => *at,
        None => Span::NOWHERE,
    }
}

/// An iteration sign, or `^` and a count, behind a premise in parentheses is read.
pub(crate) fn put_each(
    alloc: Global,
    draft: &mut Draft,
    around: usize,
    count: Count,
) -> Result<(), NoMemory>
    ensures { IfOk result (λ _. draft.new ≡ spec.count_filled around count draft.old) }
{
    let at = opened_at(draft.premises.opened.as_slice(), around);
    let prem = draft.premises.prem.take();
    draft.premises.prem = each_of(alloc, at, count, prem)?;
    Ok(())
}

/// The count that an iteration sign stands for.
pub(crate) fn shape_count(shape: Shape) -> Count
    ensures { result ≡ spec.shape_count shape }
{
    match shape {
        Shape::Sign(mark) => mark_count(mark),
        _ => mark_count(Mark::Question),
    }
}
