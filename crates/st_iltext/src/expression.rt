//! The trees of expressions.

ghost use Rattle.std.specs.Prelude.{◌≡◌, ◌++◌, [], ◌∷◌, map, IfOk, OnOk};
ghost use Rattle.st_il.specs.declared.expression.IlExp.{out-IlExp};
ghost use Rattle.st_iltext.specs.Expressions.{form, group, ty_tree, exp_tree, item_tree, segment_tree, iteration_tree};
ghost use Rattle.st_iltext.specs.inner.Heads.{head_at, operator_head_at};
ghost use Rattle.st_text.specs.Text.{quote};
ghost use Rattle.st_text.specs.Trees.{tree_of};

use crate::form::{
    binary, headed, names_tree, number_tree, number_type_tree, quote_tree, ternary, truth_tree,
    unary, word_tree,
};
use crate::head::head_of;
use crate::ty::ty_tree;
use st_il::{IlExp, Iteration, ListItem, NumTy, PathSeg, Ty};
use st_num::{Boxed, Name, NoMemory, Row};
use st_text::TextTree;
use std::alloc::Global;

/// The tree of an expression.
#[cycle(exp)]
pub fn exp_tree(alloc: Global, exp: &IlExp) -> Result<TextTree, NoMemory>
    ensures { IfOk result (λ tree. tree_of tree ≡ exp_tree exp.now) }
{
    let head = head_of(exp);
    match exp {
        IlExp::Not(x) | IlExp::Neg(x) => unary(alloc, head, part(alloc, x)?),
        IlExp::And(x, y) | IlExp::Or(x, y) | IlExp::Imp(x, y) | IlExp::Iff(x, y) => {
            binary(alloc, head, part(alloc, x)?, part(alloc, y)?)
        }
        IlExp::Eq(x, y) | IlExp::Ne(x, y) | IlExp::Lt(x, y) | IlExp::Gt(x, y) => {
            binary(alloc, head, part(alloc, x)?, part(alloc, y)?)
        }
        IlExp::Le(x, y) | IlExp::Ge(x, y) | IlExp::Member(x, y) => {
            binary(alloc, head, part(alloc, x)?, part(alloc, y)?)
        }
        IlExp::Cat(x, y) | IlExp::Join(x, y) => {
            binary(alloc, head, part(alloc, x)?, part(alloc, y)?)
        }
        IlExp::Add(ty, x, y) | IlExp::Sub(ty, x, y) | IlExp::Mul(ty, x, y) => {
            let ty = number_type_tree(alloc, *ty)?;
            ternary(alloc, head, ty, part(alloc, x)?, part(alloc, y)?)
        }
        IlExp::Div(ty, x, y) | IlExp::Rem(ty, x, y) | IlExp::Pow(ty, x, y) => {
            let ty = number_type_tree(alloc, *ty)?;
            ternary(alloc, head, ty, part(alloc, x)?, part(alloc, y)?)
        }
        _ => form_tree(alloc, exp, head),
    }
}

/// The tree of an expression that is no operator.
#[cycle(exp)]
fn form_tree(alloc: Global, exp: &IlExp, head: &[u8]) -> Result<TextTree, NoMemory>
    requires form { operator_head_at (out-IlExp exp.now) ≡ [] }
    requires head { head.now ≡ head_at (out-IlExp exp.now) }
    ensures { IfOk result (λ tree. tree_of tree ≡ exp_tree exp.now) }
{
    match exp {
        IlExp::Bool(is_true) => truth_tree(alloc, *is_true),
        IlExp::Number(number) => number_tree(alloc, *number),
        IlExp::Text(text) => quote_tree(alloc, text),
        IlExp::Var(name) => unary(alloc, head, quote_tree(alloc, name)?),
        IlExp::Empty(ty) | IlExp::Absent(ty) => unary(alloc, head, ty_tree(alloc, ty)?),
        IlExp::Present(x) | IlExp::Len(x) => unary(alloc, head, part(alloc, x)?),
        IlExp::Dot(x, field) => binary(alloc, head, part(alloc, x)?, quote_tree(alloc, field)?),
        IlExp::At(x, y) => binary(alloc, head, part(alloc, x)?, part(alloc, y)?),
        IlExp::Up(ty, x) => binary(alloc, head, ty_tree(alloc, ty)?, part(alloc, x)?),
        IlExp::Slice(x, y, z) => {
            let x = part(alloc, x)?;
            ternary(alloc, head, x, part(alloc, y)?, part(alloc, z)?)
        }
        IlExp::Set(x, path, y) | IlExp::Extend(x, path, y) => {
            let x = part(alloc, x)?;
            let path = path_tree(alloc, path.as_slice())?;
            ternary(alloc, head, x, path, part(alloc, y)?)
        }
        IlExp::Case(ty, tag, exps) => case_tree(alloc, head, ty, tag, exps.as_slice()),
        IlExp::Fields(name, exps) | IlExp::Call(name, exps) => {
            named_tree(alloc, head, name, exps.as_slice())
        }
        IlExp::Tuple(exps) => tuple_tree(alloc, head, exps.as_slice()),
        IlExp::List(ty, items) => list_tree(alloc, head, items.as_slice(), ty),
        IlExp::Iter(count, names, x) => {
            let count = iteration_tree(alloc, count)?;
            let names = names_tree(alloc, names.as_slice())?;
            ternary(alloc, head, count, names, part(alloc, x)?)
        }
        _ => unreachable!(),
    }
}

/// The tree of a part of an expression.
#[cycle(exp)]
fn part(alloc: Global, exp: &Boxed<IlExp>) -> Result<TextTree, NoMemory>
    ensures { IfOk result (λ tree. tree_of tree ≡ exp_tree exp.now) }
{
    exp_tree(alloc, exp.get())
}

/// The tree of a case: its type, its tag and its operands.
#[cycle(exp)]
fn case_tree(
    alloc: Global,
    head: &[u8],
    ty: &Name,
    tag: &Name,
    exps: &[IlExp],
) -> Result<TextTree, NoMemory>
    ensures { IfOk result (λ tree. tree_of tree
        ≡ form head.now (quote ty.now ∷ quote tag.now ∷ map exp_tree exps.now)) }
{
    let mut trees = headed(alloc, head)?;
    trees.push(quote_tree(alloc, ty)?)?;
    trees.push(quote_tree(alloc, tag)?)?;
    push_exps(alloc, exps, &mut trees)?;
    Ok(TextTree::List(trees))
}

/// The tree of a record of a type, and of a call of a function.
#[cycle(exp)]
fn named_tree(alloc: Global, head: &[u8], name: &Name, exps: &[IlExp]) -> Result<TextTree, NoMemory>
    ensures { IfOk result (λ tree.
        tree_of tree ≡ form head.now (quote name.now ∷ map exp_tree exps.now)) }
{
    let mut trees = headed(alloc, head)?;
    trees.push(quote_tree(alloc, name)?)?;
    push_exps(alloc, exps, &mut trees)?;
    Ok(TextTree::List(trees))
}

/// The tree of a tuple.
#[cycle(exp)]
fn tuple_tree(alloc: Global, head: &[u8], exps: &[IlExp]) -> Result<TextTree, NoMemory>
    ensures { IfOk result (λ tree. tree_of tree ≡ form head.now (map exp_tree exps.now)) }
{
    let mut trees = headed(alloc, head)?;
    push_exps(alloc, exps, &mut trees)?;
    Ok(TextTree::List(trees))
}

/// The tree of a list of elements of a type.
#[cycle(exp)]
fn list_tree(alloc: Global, head: &[u8], items: &[ListItem], ty: &Ty) -> Result<TextTree, NoMemory>
    ensures { IfOk result (λ tree.
        tree_of tree ≡ form head.now (ty_tree ty.now ∷ map item_tree items.now)) }
{
    let mut trees = headed(alloc, head)?;
    trees.push(ty_tree(alloc, ty)?)?;
    push_items(alloc, items, &mut trees)?;
    Ok(TextTree::List(trees))
}

/// Adds the trees of these expressions.
#[cycle(exp)]
pub fn push_exps(alloc: Global, exps: &[IlExp], trees: &mut Row<TextTree>) -> Result<(), NoMemory>
    ensures { OnOk result (map tree_of trees.new ≡ map tree_of trees.old ++ map exp_tree exps.now) }
{
    for exp in exps {
        trees.push(exp_tree(alloc, exp)?)?;
    }
    Ok(())
}

/// Adds the trees of these items of a list.
#[cycle(exp)]
fn push_items(alloc: Global, items: &[ListItem], trees: &mut Row<TextTree>) -> Result<(), NoMemory>
    ensures { OnOk result
        (map tree_of trees.new ≡ map tree_of trees.old ++ map item_tree items.now) }
{
    for item in items {
        trees.push(item_tree(alloc, item)?)?;
    }
    Ok(())
}

/// The tree of an item of a list.
#[cycle(exp)]
fn item_tree(alloc: Global, item: &ListItem) -> Result<TextTree, NoMemory>
    ensures { IfOk result (λ tree. tree_of tree ≡ item_tree item.now) }
{
    match item {
        ListItem::One(x) => unary(alloc, b"one", exp_tree(alloc, x)?),
        ListItem::All(x) => unary(alloc, b"all", exp_tree(alloc, x)?),
    }
}

/// The tree of a path.
#[cycle(exp)]
fn path_tree(alloc: Global, path: &[PathSeg]) -> Result<TextTree, NoMemory>
    ensures { IfOk result (λ tree. tree_of tree ≡ group (map segment_tree path.now)) }
{
    let mut trees = Row::new(alloc);
    for segment in path {
        trees.push(segment_tree(alloc, segment)?)?;
    }
    Ok(TextTree::List(trees))
}

/// The tree of a step of a path.
#[cycle(exp)]
fn segment_tree(alloc: Global, segment: &PathSeg) -> Result<TextTree, NoMemory>
    ensures { IfOk result (λ tree. tree_of tree ≡ segment_tree segment.now) }
{
    match segment {
        PathSeg::Field(field) => unary(alloc, b"f", quote_tree(alloc, field)?),
        PathSeg::At(x) => unary(alloc, b"i", exp_tree(alloc, x)?),
        PathSeg::Slice(x, y) => { binary(alloc, b"s", exp_tree(alloc, x)?, exp_tree(alloc, y)?) }
    }
}

/// The tree of how often an iteration goes.
#[cycle(exp)]
pub fn iteration_tree(alloc: Global, count: &Iteration) -> Result<TextTree, NoMemory>
    ensures { IfOk result (λ tree. tree_of tree ≡ iteration_tree count.now) }
{
    match count {
        Iteration::Star => word_tree(alloc, b"*"),
        Iteration::Plus => word_tree(alloc, b"+"),
        Iteration::Quest => word_tree(alloc, b"?"),
        Iteration::Times(x) => unary(alloc, b"^", exp_tree(alloc, x.get())?),
        Iteration::Below(index, x) => {
            let index = quote_tree(alloc, index)?;
            binary(alloc, b"^", index, exp_tree(alloc, x.get())?)
        }
    }
}

/// The list of these expressions.
pub fn exps_tree(alloc: Global, exps: &[IlExp]) -> Result<TextTree, NoMemory>
    ensures { IfOk result (λ tree. tree_of tree ≡ group (map exp_tree exps.now)) }
{
    let mut trees = Row::new(alloc);
    push_exps(alloc, exps, &mut trees)?;
    Ok(TextTree::List(trees))
}
