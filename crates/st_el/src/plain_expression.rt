//! Expressions without their places, their parentheses and their `$( )`.

ghost use Rattle.std.specs.Prelude.{◌≡◌, map, IfOk};
ghost use Rattle.st_el.specs.Plain.{plain_exp, plain_node, plain_count, plain_seg};

use crate::{Count, Exp, Node, Seg};
use st_num::{Boxed, Name, NoMemory, Row, Span};
use std::alloc::Global;

/// The expression without its places, its parentheses and its `$( )`.
#[cycle(plain)]
pub fn plain_exp(alloc: Global, exp: &Exp) -> Result<Exp, NoMemory>
    ensures { IfOk result (λ plain. plain ≡ plain_exp exp.now) }
{
    let node = plain_node(alloc, &exp.node)?;
    Ok(Exp {
        at: Span::NOWHERE,
        node,
    })
}

/// The expression made plain, in a box of its own.
#[cycle(plain)]
fn plain_box(alloc: Global, exp: &Boxed<Exp>) -> Result<Boxed<Exp>, NoMemory>
    ensures { IfOk result (λ plain. plain ≡ plain_exp exp.now) }
{
    Boxed::new(alloc, plain_exp(alloc, exp.get())?)
}

/// What the expression is, without the parentheses and the `$( )` round it and in it.
#[cycle(plain)]
fn plain_node(alloc: Global, node: &Node) -> Result<Node, NoMemory>
    ensures { IfOk result (λ plain. plain ≡ plain_node node.now) }
{
    match node {
        Node::Name(name) => Ok(Node::Name(name.copy(alloc)?)),
        Node::Atom(name) => Ok(Node::Atom(name.copy(alloc)?)),
        Node::Bool(truth) => Ok(Node::Bool(*truth)),
        Node::Number(number) => Ok(Node::Number(*number)),
        Node::Text(text) => Ok(Node::Text(text.copy(alloc)?)),
        Node::Eps => Ok(Node::Eps),
        Node::Seq(parts) => Ok(Node::Seq(plain_exps(alloc, parts.as_slice())?)),
        Node::Infix(left, sign, right) => {
            Ok(Node::Infix(plain_box(alloc, left)?, *sign, plain_box(alloc, right)?))
        }
        Node::Binary(left, sign, right) => {
            Ok(Node::Binary(plain_box(alloc, left)?, *sign, plain_box(alloc, right)?))
        }
        Node::Not(inner) => Ok(Node::Not(plain_box(alloc, inner)?)),
        Node::Neg(inner) => Ok(Node::Neg(plain_box(alloc, inner)?)),
        Node::Arith(inner) | Node::Paren(inner) => plain_node(alloc, &inner.get().node),
        Node::Bracket(sign, inner) => Ok(Node::Bracket(*sign, plain_box(alloc, inner)?)),
        Node::Tuple(parts) => Ok(Node::Tuple(plain_exps(alloc, parts.as_slice())?)),
        Node::Fields(fields) => Ok(Node::Fields(plain_fields(alloc, fields.as_slice())?)),
        Node::Dot(whole, field) => Ok(Node::Dot(plain_box(alloc, whole)?, field.copy(alloc)?)),
        Node::At(whole, at) => Ok(Node::At(plain_box(alloc, whole)?, plain_box(alloc, at)?)),
        Node::Slice(whole, from, count) => {
            let from = plain_box(alloc, from)?;
            Ok(Node::Slice(plain_box(alloc, whole)?, from, plain_box(alloc, count)?))
        }
        Node::Update(whole, path, part) => {
            let path = plain_path(alloc, path.as_slice())?;
            Ok(Node::Update(plain_box(alloc, whole)?, path, plain_box(alloc, part)?))
        }
        Node::Extend(whole, path, part) => {
            let path = plain_path(alloc, path.as_slice())?;
            Ok(Node::Extend(plain_box(alloc, whole)?, path, plain_box(alloc, part)?))
        }
        Node::Len(inner) => Ok(Node::Len(plain_box(alloc, inner)?)),
        Node::Call(name, args) => {
            Ok(Node::Call(name.copy(alloc)?, plain_exps(alloc, args.as_slice())?))
        }
        Node::Iter(exp, by) => Ok(Node::Iter(plain_box(alloc, exp)?, plain_count(alloc, by)?)),
    }
}

/// The expressions made plain, in order.
#[cycle(plain)]
pub fn plain_exps(alloc: Global, exps: &[Exp]) -> Result<Row<Exp>, NoMemory>
    ensures { IfOk result (λ plain. plain ≡ map plain_exp exps.now) }
{
    let mut plain = Row::new(alloc);
    for exp in exps {
        plain.push(plain_exp(alloc, exp)?)?;
    }
    Ok(plain)
}

/// The fields of a record, with their expressions made plain.
#[cycle(plain)]
fn plain_fields(alloc: Global, fields: &[(Name, Exp)]) -> Result<Row<(Name, Exp)>, NoMemory>
    ensures { IfOk result
        (λ plain. plain ≡ map (λ field. (field.0, plain_exp field.1)) fields.now) }
{
    let mut plain = Row::new(alloc);
    for field in fields {
        let name = field.0.copy(alloc)?;
        plain.push((name, plain_exp(alloc, &field.1)?))?;
    }
    Ok(plain)
}

/// The steps of a path, with their expressions made plain.
#[cycle(plain)]
fn plain_path(alloc: Global, path: &[Seg]) -> Result<Row<Seg>, NoMemory>
    ensures { IfOk result (λ plain. plain ≡ map plain_seg path.now) }
{
    let mut plain = Row::new(alloc);
    for seg in path {
        plain.push(plain_seg(alloc, seg)?)?;
    }
    Ok(plain)
}

/// The step of a path, with its expressions made plain.
#[cycle(plain)]
fn plain_seg(alloc: Global, seg: &Seg) -> Result<Seg, NoMemory>
    ensures { IfOk result (λ plain. plain ≡ plain_seg seg.now) }
{
    match seg {
        Seg::Field(name) => Ok(Seg::Field(name.copy(alloc)?)),
        Seg::At(at) => Ok(Seg::At(plain_exp(alloc, at)?)),
        Seg::Slice(from, count) => {
            let from = plain_exp(alloc, from)?;
            Ok(Seg::Slice(from, plain_exp(alloc, count)?))
        }
    }
}

/// How often an iteration goes, with its expression made plain.
#[cycle(plain)]
pub fn plain_count(alloc: Global, count: &Count) -> Result<Count, NoMemory>
    ensures { IfOk result (λ plain. plain ≡ plain_count count.now) }
{
    match count {
        Count::Star => Ok(Count::Star),
        Count::Plus => Ok(Count::Plus),
        Count::Quest => Ok(Count::Quest),
        Count::Times(times) => Ok(Count::Times(plain_box(alloc, times)?)),
        Count::Below(index, times) => {
            let index = index.copy(alloc)?;
            Ok(Count::Below(index, plain_box(alloc, times)?))
        }
    }
}
