//! Expressions by their forms.

ghost use Rattle.std.specs.Prelude.{◌≡◌, map};
ghost use Rattle.st_el.specs.declared.expression.Count.{out-Count};
ghost use Rattle.st_elab_table.specs.Collections.{is_run};
ghost use Rattle.st_elab_table.specs.Forms.{all_true, inferable, is_spliced, is_tuple, is_told_by_type, is_single, goes_over_list};

use st_el::{Count, Exp, Node};
use st_elab_table::{Operator, operator_of};

/// Whether the expression has a type of its own.
#[cycle(inferable)]
pub fn inferable(exp: &Exp) -> bool
    ensures { result ≡ inferable exp.now }
{
    match &exp.node {
        Node::Name(_) | Node::Bool(_) | Node::Number(_) | Node::Text(_) => true,
        Node::Not(_) | Node::Neg(_) | Node::Arith(_) | Node::Len(_) | Node::Call(_, _) => true,
        Node::Atom(_) | Node::Eps | Node::Seq(_) | Node::Infix(_, _, _) => false,
        Node::Bracket(_, _) | Node::Fields(_) => false,
        Node::Binary(left, sign, right) => match operator_of(*sign) {
            Operator::Concatenation => inferable(left.get()) && inferable(right.get()),
            Operator::Other => false,
            _ => true,
        },
        Node::Paren(inner) => inferable(inner.get()),
        Node::Tuple(parts) => all_inferable(parts.as_slice()),
        Node::Dot(operand, _) => inferable(operand.get()),
        Node::At(operand, _) => inferable(operand.get()),
        Node::Slice(operand, _, _) => inferable(operand.get()),
        Node::Update(operand, _, _) => inferable(operand.get()),
        Node::Extend(operand, _, _) => inferable(operand.get()),
        Node::Iter(body, _) => inferable(body.get()),
    }
}

/// Whether each of these expressions has a type of its own.
#[cycle(inferable)]
fn all_inferable(parts: &[Exp]) -> bool
    ensures { result ≡ all_true (map inferable parts.now) }
{
    for part in parts {
        if !inferable(part) {
            return false;
        }
    }
    true
}

/// Whether an iteration goes over a list.
pub fn goes_over_list(count: &Count) -> bool
    ensures { result ≡ goes_over_list (out-Count count.now) }
{
    match count {
        Count::Star | Count::Plus | Count::Times(_) | Count::Below(_, _) => true,
        Count::Quest => false,
    }
}

/// Whether the form of an item says that all elements are meant.
pub fn is_spliced(exp: &Exp) -> bool
    ensures { result ≡ is_spliced exp.now }
{
    match &exp.node {
        Node::Eps => true,
        Node::Binary(_, sign, _) => operator_of(*sign) == Operator::Concatenation,
        Node::Paren(inner) => is_spliced(inner.get()),
        Node::Iter(_, count) => goes_over_list(count),
        _ => false,
    }
}

/// Whether the expression is a tuple, in parentheses or not.
fn is_tuple(exp: &Exp) -> bool
    ensures { result ≡ is_tuple exp.now }
{
    match &exp.node {
        Node::Tuple(_) => true,
        Node::Paren(inner) => is_tuple(inner.get()),
        _ => false,
    }
}

/// Whether the type of an item says whether all its elements are meant.
pub fn is_told_by_type(exp: &Exp) -> bool
    ensures { result ≡ is_told_by_type exp.now }
{
    inferable(exp) && !is_tuple(exp)
}

/// Whether the expression is one element.
pub fn is_single(exp: &Exp) -> bool
    ensures { result ≡ is_single exp.now }
{
    match &exp.node {
        Node::Seq(parts) => parts.len() == 1,
        Node::Paren(inner) => is_single(inner.get()),
        _ => true,
    }
}

/// Two elements or more, not in parentheses.
pub fn is_run(parts: &[Exp], in_parentheses: bool) -> bool
    ensures { result ≡ is_run parts.now in_parentheses }
{
    parts.len() >= 2 && !in_parentheses
}
