//! How expressions are read from text trees.

ghost use Rattle.std.specs.Prelude.{codes};
ghost use Rattle.std.specs.List.{list_all};
ghost use Rattle.st_iltext.specs.Expressions.{exp_tree, item_tree, iteration_tree, segment_tree};
ghost use Rattle.st_iltext.specs.Written.{exp_written, item_written, iteration_written, segment_written};
ghost use Rattle.st_iltext.specs.inner.ExpReading.{AreTwo, AreNoTwo};
ghost use Rattle.st_iltext.specs.inner.KindWords.{kind_word, unary_word, binary_word, arithmetic_word};
ghost use Rattle.st_iltext.specs.inner.Reading.{Reads, ReadsAll};
ghost use Rattle.st_ilread.specs.inner.Parts.{row_tree, ReadsOnly, AreNamed, AreNoneNamed, AreUpdate, AreNoUpdate, path_written};
ghost use Rattle.st_text.specs.Reading.{Answers};
ghost use Rattle.st_text.specs.Text.{word, list, more};
ghost use Rattle.st_text.specs.Trees.{tree_of, trees_of};

use crate::leaf::{read_absent, read_empty, read_field_step, read_literal, read_var};
use crate::name::{read_name, read_names};
use crate::part::{behind_one, behind_two};
use st_il::{IlExp, Iteration, ListItem, PathSeg};
use st_iltext::fault::MALFORMED;
use st_iltext::kind::{Arithmetic, Binary, Kind, Unary, kind_of};
use st_iltext::shape::{form_parts, is_word, list_parts, one, three, two};
use st_iltext::type_reader::{read_number_type, read_ty};
use st_num::{Boxed, Name, Row};
use st_text::{TextFault, TextTree};
use std::alloc::Global;

/// The expression that the tree is.
#[cycle(read)]
pub fn read_exp(alloc: Global, tree: &TextTree) -> Result<IlExp, TextFault>
    ensures { Reads exp_tree exp_written (tree_of tree.now) result }
{
    match tree {
        TextTree::Word(bytes) => match read_literal(bytes.as_slice()) {
            Some(literal) => Ok(literal),
            None => Err(MALFORMED),
        },
        TextTree::Quote(text) => Ok(IlExp::Text(text.copy(alloc)?)),
        TextTree::List(trees) => {
            let Some((head, parts)) = behind_one(trees.as_slice()) else {
                return Err(MALFORMED);
            };
            let Some(kind) = kind_of(head) else {
                return Err(MALFORMED);
            };
            read_kind(alloc, kind, parts)
        }
    }
}

/// The expression that the tree is, in a box.
#[cycle(read)]
fn read_boxed(alloc: Global, tree: &TextTree) -> Result<Boxed<IlExp>, TextFault>
    ensures { Reads exp_tree exp_written (tree_of tree.now) result }
{
    let exp = read_exp(alloc, tree)?;
    Ok(Boxed::new(alloc, exp)?)
}

/// The only expression that the trees are.
#[cycle(read)]
pub fn read_only(alloc: Global, trees: &[TextTree]) -> Result<IlExp, TextFault>
    ensures { ReadsOnly exp_tree exp_written (trees_of trees.now) result }
{
    let Some(tree) = one(trees) else {
        return Err(MALFORMED);
    };
    read_exp(alloc, tree)
}

/// The expression of this kind that the parts are.
#[cycle(read)]
fn read_kind(alloc: Global, kind: Kind, parts: &[TextTree]) -> Result<IlExp, TextFault>
    ensures { Reads exp_tree exp_written
        (list (more (word (kind_word kind)) (trees_of parts.now))) result }
{
    match kind {
        Kind::Var => read_var(alloc, parts),
        Kind::Unary(operator) => read_unary(alloc, operator, parts),
        Kind::Binary(operator) => read_binary(alloc, operator, parts),
        Kind::Arithmetic(operator) => read_arithmetic(alloc, operator, parts),
        Kind::Case => read_case(alloc, parts),
        Kind::Fields => read_fields(alloc, parts),
        Kind::Call => read_call(alloc, parts),
        Kind::Dot => read_dot(alloc, parts),
        Kind::Set => read_set(alloc, parts),
        Kind::Extend => read_extend(alloc, parts),
        Kind::Tuple => read_tuple(alloc, parts),
        Kind::List => read_list(alloc, parts),
        Kind::Empty => read_empty(alloc, parts),
        Kind::Absent => read_absent(alloc, parts),
        Kind::Slice => read_slice(alloc, parts),
        Kind::Up => read_up(alloc, parts),
        Kind::Iter => read_iter(alloc, parts),
    }
}

/// The operator on the operand that the parts are.
#[cycle(read)]
fn read_unary(alloc: Global, operator: Unary, parts: &[TextTree]) -> Result<IlExp, TextFault>
    ensures { Reads exp_tree exp_written
        (list (more (word (unary_word operator)) (trees_of parts.now))) result }
{
    let Some(operand) = one(parts) else {
        return Err(MALFORMED);
    };
    let operand = read_boxed(alloc, operand)?;
    Ok(operator.of(operand))
}

/// The two expressions that the trees are.
#[cycle(read)]
fn read_two(alloc: Global, trees: &[TextTree]) -> Result<(Boxed<IlExp>, Boxed<IlExp>), TextFault>
    ensures { Answers result (λ read. AreTwo (trees_of trees.now) read.0 read.1)
        (AreNoTwo (trees_of trees.now)) }
{
    let Some((first, second)) = two(trees) else {
        return Err(MALFORMED);
    };
    let first = read_boxed(alloc, first)?;
    let second = read_boxed(alloc, second)?;
    Ok((first, second))
}

/// The operator on the two operands that the parts are.
#[cycle(read)]
fn read_binary(alloc: Global, operator: Binary, parts: &[TextTree]) -> Result<IlExp, TextFault>
    ensures { Reads exp_tree exp_written
        (list (more (word (binary_word operator)) (trees_of parts.now))) result }
{
    let (first, second) = read_two(alloc, parts)?;
    Ok(operator.of(first, second))
}

/// The operator at the type and on the two operands that the parts are.
#[cycle(read)]
fn read_arithmetic(
    alloc: Global,
    operator: Arithmetic,
    parts: &[TextTree],
) -> Result<IlExp, TextFault>
    ensures { Reads exp_tree exp_written
        (list (more (word (arithmetic_word operator)) (trees_of parts.now))) result }
{
    let Some((ty, operands)) = behind_one(parts) else {
        return Err(MALFORMED);
    };
    let Some(ty) = read_number_type(ty) else {
        return Err(MALFORMED);
    };
    let (first, second) = read_two(alloc, operands)?;
    Ok(operator.of(ty, first, second))
}

/// The case that the parts are.
#[cycle(read)]
fn read_case(alloc: Global, parts: &[TextTree]) -> Result<IlExp, TextFault>
    ensures { Reads exp_tree exp_written (list (more (word (codes "case")) (trees_of parts.now)))
        result }
{
    let Some((ty, tag, operands)) = behind_two(parts) else {
        return Err(MALFORMED);
    };
    let ty = read_name(alloc, ty)?;
    let tag = read_name(alloc, tag)?;
    let operands = read_exps(alloc, operands)?;
    Ok(IlExp::Case(ty, tag, operands))
}

/// The name, and the expressions behind it, that the trees are.
#[cycle(read)]
pub fn read_named(alloc: Global, trees: &[TextTree]) -> Result<(Name, Row<IlExp>), TextFault>
    ensures { Answers result (λ read. AreNamed (trees_of trees.now) read.0 read.1)
        (AreNoneNamed (trees_of trees.now)) }
{
    let Some((name, others)) = behind_one(trees) else {
        return Err(MALFORMED);
    };
    let name = read_name(alloc, name)?;
    let exps = read_exps(alloc, others)?;
    Ok((name, exps))
}

/// The record that the parts are.
#[cycle(read)]
fn read_fields(alloc: Global, parts: &[TextTree]) -> Result<IlExp, TextFault>
    ensures { Reads exp_tree exp_written (list (more (word (codes "fields")) (trees_of parts.now)))
        result }
{
    let (ty, fields) = read_named(alloc, parts)?;
    Ok(IlExp::Fields(ty, fields))
}

/// The call that the parts are.
#[cycle(read)]
fn read_call(alloc: Global, parts: &[TextTree]) -> Result<IlExp, TextFault>
    ensures { Reads exp_tree exp_written (list (more (word (codes "call")) (trees_of parts.now)))
        result }
{
    let (fun, args) = read_named(alloc, parts)?;
    Ok(IlExp::Call(fun, args))
}

/// The field of an expression that the parts are.
#[cycle(read)]
fn read_dot(alloc: Global, parts: &[TextTree]) -> Result<IlExp, TextFault>
    ensures { Reads exp_tree exp_written (list (more (word (codes "dot")) (trees_of parts.now)))
        result }
{
    let Some((exp, field)) = two(parts) else {
        return Err(MALFORMED);
    };
    let exp = read_boxed(alloc, exp)?;
    let field = read_name(alloc, field)?;
    Ok(IlExp::Dot(exp, field))
}

/// The expression, the path into its value, and the other expression that the trees are.
#[cycle(read)]
fn read_update(
    alloc: Global,
    trees: &[TextTree],
) -> Result<(Boxed<IlExp>, Row<PathSeg>, Boxed<IlExp>), TextFault>
    ensures { Answers result (λ read. AreUpdate (trees_of trees.now) read.0 read.1 read.2)
        (AreNoUpdate (trees_of trees.now)) }
{
    let Some((exp, path, value)) = three(trees) else {
        return Err(MALFORMED);
    };
    let exp = read_boxed(alloc, exp)?;
    let path = read_path(alloc, path)?;
    let value = read_boxed(alloc, value)?;
    Ok((exp, path, value))
}

/// The update that the parts are.
#[cycle(read)]
fn read_set(alloc: Global, parts: &[TextTree]) -> Result<IlExp, TextFault>
    ensures { Reads exp_tree exp_written (list (more (word (codes "set")) (trees_of parts.now)))
        result }
{
    let (exp, path, value) = read_update(alloc, parts)?;
    Ok(IlExp::Set(exp, path, value))
}

/// The extension that the parts are.
#[cycle(read)]
fn read_extend(alloc: Global, parts: &[TextTree]) -> Result<IlExp, TextFault>
    ensures { Reads exp_tree exp_written (list (more (word (codes "extend")) (trees_of parts.now)))
        result }
{
    let (exp, path, value) = read_update(alloc, parts)?;
    Ok(IlExp::Extend(exp, path, value))
}

/// The tuple that the parts are, two or more.
#[cycle(read)]
fn read_tuple(alloc: Global, parts: &[TextTree]) -> Result<IlExp, TextFault>
    ensures { Reads exp_tree exp_written (list (more (word (codes "tuple")) (trees_of parts.now)))
        result }
{
    let exps = read_exps(alloc, parts)?;
    if exps.len() < 2 {
        return Err(MALFORMED);
    }
    Ok(IlExp::Tuple(exps))
}

/// The list that the parts are.
#[cycle(read)]
fn read_list(alloc: Global, parts: &[TextTree]) -> Result<IlExp, TextFault>
    ensures { Reads exp_tree exp_written (list (more (word (codes "list")) (trees_of parts.now)))
        result }
{
    let Some((ty, items)) = behind_one(parts) else {
        return Err(MALFORMED);
    };
    let ty = read_ty(alloc, ty)?;
    let items = read_items(alloc, items)?;
    Ok(IlExp::List(ty, items))
}

/// The slice that the parts are.
#[cycle(read)]
fn read_slice(alloc: Global, parts: &[TextTree]) -> Result<IlExp, TextFault>
    ensures { Reads exp_tree exp_written (list (more (word (codes "slice")) (trees_of parts.now)))
        result }
{
    let Some((exp, bounds)) = behind_one(parts) else {
        return Err(MALFORMED);
    };
    let exp = read_boxed(alloc, exp)?;
    let (start, count) = read_two(alloc, bounds)?;
    Ok(IlExp::Slice(exp, start, count))
}

/// The injection that the parts are.
#[cycle(read)]
fn read_up(alloc: Global, parts: &[TextTree]) -> Result<IlExp, TextFault>
    ensures { Reads exp_tree exp_written (list (more (word (codes "up")) (trees_of parts.now)))
        result }
{
    let Some((ty, exp)) = two(parts) else {
        return Err(MALFORMED);
    };
    let ty = read_ty(alloc, ty)?;
    let exp = read_boxed(alloc, exp)?;
    Ok(IlExp::Up(ty, exp))
}

/// The iteration that the parts are.
#[cycle(read)]
fn read_iter(alloc: Global, parts: &[TextTree]) -> Result<IlExp, TextFault>
    ensures { Reads exp_tree exp_written (list (more (word (codes "iter")) (trees_of parts.now)))
        result }
{
    let Some((count, names, body)) = three(parts) else {
        return Err(MALFORMED);
    };
    let count = read_iteration(alloc, count)?;
    let names = read_names(alloc, names)?;
    let body = read_boxed(alloc, body)?;
    Ok(IlExp::Iter(count, names, body))
}

/// The expressions that the trees are.
#[cycle(read)]
pub fn read_exps(alloc: Global, trees: &[TextTree]) -> Result<Row<IlExp>, TextFault>
    ensures { ReadsAll exp_tree exp_written (trees_of trees.now) result }
{
    let mut exps = Row::new(alloc);
    for tree in trees {
        exps.push(read_exp(alloc, tree)?)?;
    }
    Ok(exps)
}

/// The items of a list that the trees are.
#[cycle(read)]
fn read_items(alloc: Global, trees: &[TextTree]) -> Result<Row<ListItem>, TextFault>
    ensures { ReadsAll item_tree item_written (trees_of trees.now) result }
{
    let mut items = Row::new(alloc);
    for tree in trees {
        items.push(read_item(alloc, tree)?)?;
    }
    Ok(items)
}

/// The item of a list that the tree is.
#[cycle(read)]
fn read_item(alloc: Global, tree: &TextTree) -> Result<ListItem, TextFault>
    ensures { Reads item_tree item_written (tree_of tree.now) result }
{
    if let Some(parts) = form_parts(tree, b"one") {
        return read_element(alloc, parts);
    }
    if let Some(parts) = form_parts(tree, b"all") {
        return read_elements(alloc, parts);
    }
    Err(MALFORMED)
}

/// The element of a list that the parts are.
#[cycle(read)]
fn read_element(alloc: Global, parts: &[TextTree]) -> Result<ListItem, TextFault>
    ensures { Reads item_tree item_written (list (more (word (codes "one")) (trees_of parts.now)))
        result }
{
    let exp = read_only(alloc, parts)?;
    Ok(ListItem::One(exp))
}

/// The elements of another list that the parts are.
#[cycle(read)]
fn read_elements(alloc: Global, parts: &[TextTree]) -> Result<ListItem, TextFault>
    ensures { Reads item_tree item_written (list (more (word (codes "all")) (trees_of parts.now)))
        result }
{
    let exp = read_only(alloc, parts)?;
    Ok(ListItem::All(exp))
}

/// The path that the tree is, of one step or more.
#[cycle(read)]
fn read_path(alloc: Global, tree: &TextTree) -> Result<Row<PathSeg>, TextFault>
    ensures { Reads (row_tree segment_tree) path_written (tree_of tree.now) result }
{
    let Some(trees) = list_parts(tree) else {
        return Err(MALFORMED);
    };
    let path = read_segments(alloc, trees)?;
    if path.is_empty() {
        return Err(MALFORMED);
    }
    Ok(path)
}

/// The steps of a path that the trees are.
#[cycle(read)]
fn read_segments(alloc: Global, trees: &[TextTree]) -> Result<Row<PathSeg>, TextFault>
    ensures { ReadsAll segment_tree segment_written (trees_of trees.now) result }
{
    let mut segments = Row::new(alloc);
    for tree in trees {
        segments.push(read_segment(alloc, tree)?)?;
    }
    Ok(segments)
}

/// The step of a path that the tree is.
#[cycle(read)]
fn read_segment(alloc: Global, tree: &TextTree) -> Result<PathSeg, TextFault>
    ensures { Reads segment_tree segment_written (tree_of tree.now) result }
{
    if let Some(parts) = form_parts(tree, b"f") {
        return read_field_step(alloc, parts);
    }
    if let Some(parts) = form_parts(tree, b"i") {
        return read_index_step(alloc, parts);
    }
    if let Some(parts) = form_parts(tree, b"s") {
        return read_slice_step(alloc, parts);
    }
    Err(MALFORMED)
}

/// The step to an element that the parts are.
#[cycle(read)]
fn read_index_step(alloc: Global, parts: &[TextTree]) -> Result<PathSeg, TextFault>
    ensures { Reads segment_tree segment_written (list (more (word (codes "i")) (trees_of parts.now)))
        result }
{
    let index = read_only(alloc, parts)?;
    Ok(PathSeg::At(index))
}

/// The step to a slice that the parts are.
#[cycle(read)]
fn read_slice_step(alloc: Global, parts: &[TextTree]) -> Result<PathSeg, TextFault>
    ensures { Reads segment_tree segment_written (list (more (word (codes "s")) (trees_of parts.now)))
        result }
{
    let (start, count) = read_two(alloc, parts)?;
    Ok(PathSeg::Slice(start.into_inner(), count.into_inner()))
}

/// How often an iteration goes, which the tree is.
#[cycle(read)]
pub fn read_iteration(alloc: Global, tree: &TextTree) -> Result<Iteration, TextFault>
    ensures { Reads iteration_tree iteration_written (tree_of tree.now) result }
{
    if is_word(tree, b"*") {
        return Ok(Iteration::Star);
    }
    if is_word(tree, b"+") {
        return Ok(Iteration::Plus);
    }
    if is_word(tree, b"?") {
        return Ok(Iteration::Quest);
    }
    let Some(parts) = form_parts(tree, b"^") else {
        return Err(MALFORMED);
    };
    read_count(alloc, parts)
}

/// The count of an iteration that the parts are, with the name of an index before it or without.
#[cycle(read)]
fn read_count(alloc: Global, parts: &[TextTree]) -> Result<Iteration, TextFault>
    ensures { Reads iteration_tree iteration_written
        (list (more (word (codes "^")) (trees_of parts.now))) result }
{
    if let Some(count) = one(parts) {
        return Ok(Iteration::Times(read_boxed(alloc, count)?));
    }
    let Some((index, count)) = two(parts) else {
        return Err(MALFORMED);
    };
    let index = read_name(alloc, index)?;
    let count = read_boxed(alloc, count)?;
    Ok(Iteration::Below(index, count))
}

/// The expressions that the tree lists.
pub fn read_exp_list(alloc: Global, tree: &TextTree) -> Result<Row<IlExp>, TextFault>
    ensures { Reads (row_tree exp_tree) (list_all exp_written) (tree_of tree.now) result }
{
    let Some(trees) = list_parts(tree) else {
        return Err(MALFORMED);
    };
    read_exps(alloc, trees)
}
