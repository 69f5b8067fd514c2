//! Parts of terms that are no value forms.

ghost use Rattle.std.specs.Prelude.{◌≡◌, map};
ghost use Rattle.st_term.specs.Foreign.{part, part_node, first_foreign, first_place, field_foreign, field_part};

use st_el::{Exp, Node};
use st_num::{Name, Span};

/// Whether the expression is a number.
fn is_number(exp: &Exp) -> bool
    ensures { result ≡ (part exp.now).number }
{
    matches!(&exp.node, Node::Number(_))
}

/// Whether the expression is a number, or a number behind `-`.
fn is_signed(exp: &Exp) -> bool
    ensures { result ≡ (part exp.now).signed }
{
    match &exp.node {
        Node::Number(_) => true,
        Node::Neg(inner) => is_number(inner.get()),
        _ => false,
    }
}

/// The place of the first part of an expression that is no value form.
#[cycle(foreign)]
fn foreign(exp: &Exp) -> Option<Span>
    ensures { result ≡ (part exp.now).foreign }
{
    foreign_node(&exp.node, exp.at)
}

/// The place of the first part that is no value form, in what stands at this place.
#[cycle(foreign)]
fn foreign_node(node: &Node, at: Span) -> Option<Span>
    ensures { result ≡ (part_node node.now at).foreign }
{
    match node {
        Node::Atom(_) | Node::Number(_) | Node::Text(_) | Node::Bool(_) | Node::Eps => None,
        Node::Arith(inner) => {
            if is_signed(inner.get()) {
                None
            } else {
                Some(at)
            }
        }
        Node::Paren(inner) => foreign(inner.get()),
        Node::Bracket(_, inner) => foreign(inner.get()),
        Node::Infix(left, _, right) => match foreign(left.get()) {
            Some(at) => Some(at),
            None => foreign(right.get()),
        },
        Node::Seq(parts) => first_foreign(parts.as_slice()),
        Node::Tuple(parts) => first_foreign(parts.as_slice()),
        Node::Fields(fields) => first_in_fields(fields.as_slice()),
        Node::Name(_) | Node::Neg(_) | Node::Not(_) | Node::Len(_) | Node::Call(_, _) => Some(at),
        Node::Binary(_, _, _) | Node::Dot(_, _) | Node::At(_, _) | Node::Iter(_, _) => Some(at),
        Node::Slice(_, _, _) | Node::Update(_, _, _) | Node::Extend(_, _, _) => Some(at),
    }
}

/// The place of the first part of these expressions that is no value form.
#[cycle(foreign)]
pub(crate) fn first_foreign(exps: &[Exp]) -> Option<Span>
    ensures { result ≡ first_foreign exps.now }
{
    for exp in exps {
        if let Some(at) = foreign(exp) {
            return Some(at);
        }
    }
    None
}

/// The place of the first part of the fields of a record that is no value form.
#[cycle(foreign)]
fn first_in_fields(fields: &[(Name, Exp)]) -> Option<Span>
    ensures { result ≡ first_place (map field_foreign (map field_part fields.now)) }
{
    for field in fields {
        if let Some(at) = foreign(&field.1) {
            return Some(at);
        }
    }
    None
}
