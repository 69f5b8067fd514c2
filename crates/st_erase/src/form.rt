//! How erased expressions are made of their parts.

ghost use Rattle.std.specs.Prelude.{◌≡◌, [], ◌∷◌, ◌++◌, IfOk, MatchOption};
ghost use Rattle.st_el.specs.declared.expression.Node.TheVariants as node;
ghost use Rattle.st_erase.specs.Places.{exp};
ghost use Rattle.st_erase.specs.Filling.{sequence};
ghost use Rattle.st_erase.specs.Erasure.{plain_form, arithmetic, absent, lifted};

use crate::{Erased, ErasedKind};
use st_el::{Count, Exp, Node, Seg};
use st_num::{Boxed, Mark, Name, NoMemory, Row, Span};
use std::alloc::Global;
use std::collections::VecDeque;

/// An expression that stands in no text.
pub fn unplaced(node: Node) -> Exp
    ensures { result ≡ exp node }
{
    Exp {
        at: Span::NOWHERE,
        node,
    }
}

/// The source with this at its top, which is no arithmetic.
pub fn plain_form(node: Node) -> Erased
    ensures { result ≡ plain_form node }
{
    Erased {
        exp: unplaced(node),
        kind: ErasedKind::Plain,
    }
}

/// The source with a sign of arithmetic at its top.
pub fn arithmetic(node: Node) -> Erased
    ensures { result ≡ arithmetic node }
{
    Erased {
        exp: unplaced(node),
        kind: ErasedKind::Arithmetic,
    }
}

/// Two sides of a sign of logic, comparison, membership or `++`.
pub fn binary(left: Boxed<Exp>, sign: Mark, right: Boxed<Exp>) -> Erased
    ensures { result ≡ plain_form (node.Binary left sign right) }
{
    plain_form(Node::Binary(left, sign, right))
}

/// Two operands of arithmetic.
pub fn operation(left: Boxed<Exp>, sign: Mark, right: Boxed<Exp>) -> Erased
    ensures { result ≡ arithmetic (node.Binary left sign right) }
{
    arithmetic(Node::Binary(left, sign, right))
}

/// The source of a field of a record.
pub fn dot(value: Boxed<Exp>, field: Name) -> Erased
    ensures { result ≡ plain_form (node.Dot value field) }
{
    plain_form(Node::Dot(value, field))
}

/// The source of an update: the whole with its part at the path replaced.
pub fn update(whole: Boxed<Exp>, path: Row<Seg>, part: Boxed<Exp>) -> Erased
    ensures { result ≡ plain_form (node.Update whole path part) }
{
    plain_form(Node::Update(whole, path, part))
}

/// The source of an extension: the whole with a list behind the one at the path.
pub fn extension(whole: Boxed<Exp>, path: Row<Seg>, part: Boxed<Exp>) -> Erased
    ensures { result ≡ plain_form (node.Extend whole path part) }
{
    plain_form(Node::Extend(whole, path, part))
}

/// The source of the element of a list at a position.
pub fn at(list: Boxed<Exp>, position: Boxed<Exp>) -> Erased
    ensures { result ≡ plain_form (node.At list position) }
{
    plain_form(Node::At(list, position))
}

/// The source of so many elements of a list, from a position on.
pub fn slice(list: Boxed<Exp>, from: Boxed<Exp>, length: Boxed<Exp>) -> Erased
    ensures { result ≡ plain_form (node.Slice list from length) }
{
    plain_form(Node::Slice(list, from, length))
}

/// The source of a call of the function of this name.
pub fn call(name: Name, arguments: Row<Exp>) -> Erased
    ensures { result ≡ plain_form (node.Call name arguments) }
{
    plain_form(Node::Call(name, arguments))
}

/// The source of an iteration of this body.
pub fn iterated(body: Boxed<Exp>, count: Count) -> Erased
    ensures { result ≡ plain_form (node.Iter body count) }
{
    plain_form(Node::Iter(body, count))
}

/// The source of a part that was left out.
pub fn absent() -> Erased
    ensures { result ≡ absent }
{
    Erased {
        exp: unplaced(Node::Eps),
        kind: ErasedKind::Absent,
    }
}

/// The element of a one-element list or option, in parentheses where it needs them.
pub fn lifted(alloc: Global, element: Exp) -> Result<Exp, NoMemory>
    ensures { IfOk result (λ lift. lift ≡ lifted element) }
{
    match &element.node {
        Node::Seq(_) | Node::Infix(_, _, _) => {
            let node = Node::Paren(Boxed::new(alloc, element)?);
            Ok(unplaced(node))
        }
        _ => Ok(element),
    }
}

/// A sequence of these elements. One stands by itself.
pub fn sequence(mut elements: Row<Exp>) -> Exp
    ensures { result ≡ sequence elements }
{
    if elements.len() == 1 {
        if let Some(element) = elements.pop() {
            return element;
        }
    }
    unplaced(Node::Seq(elements))
}

/// A row of one element.
pub fn only(alloc: Global, element: Exp) -> Result<Row<Exp>, NoMemory>
    ensures { IfOk result (λ row. row ≡ element ∷ []) }
{
    let mut row = Row::new(alloc);
    row.push(element)?;
    Ok(row)
}

/// These elements with the added ones behind them.
pub fn joined(elements: Row<Exp>, added: Row<Exp>) -> Result<Row<Exp>, NoMemory>
    ensures { IfOk result (λ row. row ≡ elements ++ added) }
{
    let mut all = elements.into_vec();
    let mut added = added.into_vec();
    all.append(&mut added)?;
    Ok(Row::from_vec(all))
}

/// Takes the next operand off.
pub fn next(operands: &mut VecDeque<Erased>) -> Option<Erased>
    ensures { MatchOption result ((operands.old.items ≡ []) × (operands.new.items ≡ []))
        (λ operand. operands.old.items ≡ operand ∷ operands.new.items) }
{
    operands.pop_front()
}
