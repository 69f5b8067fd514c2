//! The operands of an expression, as they stand in the text.

ghost use Rattle.std.specs.Prelude.{◌≡◌, ◌++◌, [], ◌∷◌, map, IfOk};
ghost use Rattle.st_il.specs.declared.expression.IlExp.{out-IlExp};
ghost use Rattle.st_semantics.specs.Operands.{operands_at, sides, number_sides, item_exp, segment_exps};
ghost use Rattle.st_il.specs.Names.{flattened};
ghost use Rattle.st_semantics.specs.Iterations.{count_of};
ghost use Rattle.st_semantics.specs.References.{exps_now};

use st_il::{IlExp, Iteration, ListItem, PathSeg};
use st_num::{NoMemory, Row};
use std::alloc::Global;

/// One expression.
fn one<'a>(alloc: Global, exp: &'a IlExp) -> Result<Row<&'a IlExp>, NoMemory>
    ensures { IfOk result (λ exps. exps_now exps ≡ exp.now ∷ []) }
{
    let mut exps = Row::new(alloc);
    exps.push(exp)?;
    Ok(exps)
}

/// Two expressions.
fn pair<'a>(alloc: Global, left: &'a IlExp, right: &'a IlExp) -> Result<Row<&'a IlExp>, NoMemory>
    ensures { IfOk result (λ exps. exps_now exps ≡ left.now ∷ right.now ∷ []) }
{
    let mut exps = Row::new(alloc);
    exps.push(left)?;
    exps.push(right)?;
    Ok(exps)
}

/// Three expressions.
fn triple<'a>(
    alloc: Global,
    first: &'a IlExp,
    second: &'a IlExp,
    third: &'a IlExp,
) -> Result<Row<&'a IlExp>, NoMemory>
    ensures { IfOk result (λ exps. exps_now exps ≡ first.now ∷ second.now ∷ third.now ∷ []) }
{
    let mut exps = Row::new(alloc);
    exps.push(first)?;
    exps.push(second)?;
    exps.push(third)?;
    Ok(exps)
}

/// References to these expressions.
pub fn each<'a>(alloc: Global, exps: &'a [IlExp]) -> Result<Row<&'a IlExp>, NoMemory>
    ensures { IfOk result (λ found. exps_now found ≡ exps.now) }
{
    let mut found = Row::new(alloc);
    for exp in exps {
        found.push(exp)?;
    }
    Ok(found)
}

/// The expressions in the parts of a list.
fn in_items<'a>(alloc: Global, items: &'a [ListItem]) -> Result<Row<&'a IlExp>, NoMemory>
    ensures { IfOk result (λ found. exps_now found ≡ map item_exp items.now) }
{
    let mut found = Row::new(alloc);
    for item in items {
        match item {
            ListItem::One(exp) | ListItem::All(exp) => found.push(exp)?,
        }
    }
    Ok(found)
}

/// The expressions with those in a step of a path behind them.
fn with_segment<'a>(exps: Row<&'a IlExp>, segment: &'a PathSeg) -> Result<Row<&'a IlExp>, NoMemory>
    ensures { IfOk result (λ longer. exps_now longer ≡ exps_now exps.entry ++ segment_exps segment.now) }
{
    let mut longer = exps;
    match segment {
        PathSeg::Field(_) => Ok(longer),
        PathSeg::At(position) => {
            longer.push(position)?;
            Ok(longer)
        }
        PathSeg::Slice(from, size) => {
            longer.push(from)?;
            longer.push(size)?;
            Ok(longer)
        }
    }
}

/// A value, the positions in a path, and what is new at its end.
fn on_path<'a>(
    alloc: Global,
    value: &'a IlExp,
    path: &'a [PathSeg],
    new: &'a IlExp,
) -> Result<Row<&'a IlExp>, NoMemory>
    ensures { IfOk result (λ exps. exps_now exps
        ≡ value.now ∷ flattened (map segment_exps path.now) ++ new.now ∷ []) }
{
    let mut exps = one(alloc, value)?;
    for segment in path {
        exps = with_segment(exps, segment)?;
    }
    exps.push(new)?;
    Ok(exps)
}

/// The two sides of arithmetic and of an order comparison.
fn number_sides<'a>(alloc: Global, exp: &'a IlExp) -> Result<Row<&'a IlExp>, NoMemory>
    ensures { IfOk result (λ exps. exps_now exps ≡ number_sides (out-IlExp exp.now)) }
{
    match exp {
        IlExp::Add(_, left, right) | IlExp::Sub(_, left, right) => {
            pair(alloc, left.get(), right.get())
        }
        IlExp::Mul(_, left, right) | IlExp::Div(_, left, right) => {
            pair(alloc, left.get(), right.get())
        }
        IlExp::Rem(_, left, right) | IlExp::Pow(_, left, right) => {
            pair(alloc, left.get(), right.get())
        }
        IlExp::Lt(left, right) | IlExp::Gt(left, right) => pair(alloc, left.get(), right.get()),
        IlExp::Le(left, right) | IlExp::Ge(left, right) => pair(alloc, left.get(), right.get()),
        _ => Ok(Row::new(alloc)),
    }
}

/// The two sides of every operator that has two.
fn sides<'a>(alloc: Global, exp: &'a IlExp) -> Result<Row<&'a IlExp>, NoMemory>
    ensures { IfOk result (λ exps. exps_now exps ≡ sides (out-IlExp exp.now)) }
{
    match exp {
        IlExp::And(left, right) | IlExp::Or(left, right) => pair(alloc, left.get(), right.get()),
        IlExp::Imp(left, right) | IlExp::Iff(left, right) => pair(alloc, left.get(), right.get()),
        IlExp::Eq(left, right) | IlExp::Ne(left, right) => pair(alloc, left.get(), right.get()),
        IlExp::Member(left, right) | IlExp::At(left, right) => {
            pair(alloc, left.get(), right.get())
        }
        IlExp::Cat(left, right) | IlExp::Join(left, right) => pair(alloc, left.get(), right.get()),
        _ => number_sides(alloc, exp),
    }
}

/// The operands of an expression. Those of an iteration are none of them.
pub fn operands<'a>(alloc: Global, exp: &'a IlExp) -> Result<Row<&'a IlExp>, NoMemory>
    ensures { IfOk result (λ exps.
        exps_now exps ≡ operands_at item_exp segment_exps (out-IlExp exp.now)) }
{
    match exp {
        IlExp::Not(part) | IlExp::Neg(part) | IlExp::Dot(part, _) => one(alloc, part.get()),
        IlExp::Present(part) | IlExp::Len(part) | IlExp::Up(_, part) => one(alloc, part.get()),
        IlExp::Slice(list, from, size) => triple(alloc, list.get(), from.get(), size.get()),
        IlExp::Set(value, path, new) | IlExp::Extend(value, path, new) => {
            on_path(alloc, value.get(), path.as_slice(), new.get())
        }
        IlExp::Case(_, _, parts) | IlExp::Fields(_, parts) => each(alloc, parts.as_slice()),
        IlExp::Tuple(parts) | IlExp::Call(_, parts) => each(alloc, parts.as_slice()),
        IlExp::List(_, items) => in_items(alloc, items.as_slice()),
        _ => sides(alloc, exp),
    }
}

/// The count of an iteration, if it has one.
pub fn count_of<'a>(alloc: Global, how: &'a Iteration) -> Result<Row<&'a IlExp>, NoMemory>
    ensures { IfOk result (λ exps. exps_now exps ≡ count_of how.now) }
{
    match how {
        Iteration::Times(count) | Iteration::Below(_, count) => one(alloc, count.get()),
        Iteration::Star | Iteration::Plus | Iteration::Quest => Ok(Row::new(alloc)),
    }
}
