//! Parts of an expression that a notation sees.

ghost use Rattle.std.specs.Prelude.{◌≡◌, MatchOption, drop};
ghost use Rattle.st_el.specs.declared.expression.Exp.{Exp};
ghost use Rattle.st_el.specs.declared.expression.Count.TheOpen.{Node-F};
ghost use Rattle.st_notation.specs.Elements.{opened, bare, elements, is_atom, begins, before};

use st_el::{Exp, Node};
use st_num::{Mark, Name};
use std::slice::from_ref;

/// The expression without the parentheses round the whole. It takes no memory.
pub fn bare<'a>(exp: &'a Exp) -> &'a Exp
    ensures { result.now ≡ bare exp.now }
{
    let mut inner = exp;
    while let Node::Paren(next) = &inner.node {
        inner = next.get();
    }
    inner
}

/// The elements of a sequence; any other expression is its one element.
pub fn elements<'a>(exp: &'a Exp) -> &'a [Exp]
    ensures { result.now ≡ elements exp.now }
{
    match &exp.node {
        Node::Seq(parts) => {
            if parts.len() == 1 {
                from_ref(exp)
            } else {
                parts.as_slice()
            }
        }
        _ => from_ref(exp),
    }
}

/// Whether the expression is this atom.
pub fn is_atom(exp: &Exp, name: &Name) -> bool
    ensures { result ≡ is_atom name.now exp.now }
{
    match &exp.node {
        Node::Atom(other) => *name == *other,
        _ => false,
    }
}

/// Whether the first element is this atom.
pub fn begins(elements: &[Exp], name: &Name) -> bool
    ensures { result ≡ begins name.now elements.now }
{
    match elements.first() {
        Some(first) => is_atom(first, name),
        None => false,
    }
}

/// How many elements stand before the first that is this atom.
pub fn before(elements: &[Exp], name: &Name) -> usize
    ensures { result ≡ before name.now elements.now }
{
    let mut count = 0;
    for element in elements {
        if is_atom(element, name) {
            return count;
        }
        count += 1;
    }
    count
}

/// What stands in backquoted brackets with this opening sign.
pub fn inside<'a>(exp: &'a Exp, opening: Mark) -> Option<&'a Exp>
    ensures { MatchOption result
        ((inner : Exp) → opened exp.now ≡ Node-F.Bracket opening inner → ⊥)
        (λ inner. opened exp.now ≡ Node-F.Bracket opening inner.now) }
{
    match &exp.node {
        Node::Bracket(sign, inner) => {
            if *sign == opening {
                Some(inner.get())
            } else {
                None
            }
        }
        _ => None,
    }
}

/// The two sides of this sign.
pub fn sides<'a>(exp: &'a Exp, sign: Mark) -> Option<(&'a Exp, &'a Exp)>
    ensures { MatchOption result
        ((left right : Exp) → opened exp.now ≡ Node-F.Infix left sign right → ⊥)
        (λ both. opened exp.now ≡ Node-F.Infix both.0.now sign both.1.now) }
{
    match &exp.node {
        Node::Infix(left, top, right) => {
            if *top == sign {
                Some((left.get(), right.get()))
            } else {
                None
            }
        }
        _ => None,
    }
}

/// What is left behind so many items.
pub fn behind<'a, T>(items: &'a [T], count: usize) -> &'a [T]
    ensures { result.now ≡ drop count items.now }
{
    if count <= items.len() {
        &items[count..]
    } else {
        &items[items.len()..]
    }
}
