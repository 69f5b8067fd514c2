//! Keys of expressions, by which a case of a variant is chosen.

ghost use Rattle.std.specs.Prelude.{◌≡◌};
ghost use Rattle.st_il.specs.Key.{plain};
ghost use Rattle.st_notation.specs.Key.{key_of, first_key};

use crate::element::{bare, elements};
use st_el::{Exp, Node};
use st_il::Key;

/// The top sign of an expression, or else its first element where that is an atom or a bracket.
/// It takes no memory.
pub fn key_of_exp<'a>(exp: &'a Exp) -> Key<'a>
    ensures { plain result ≡ key_of exp.now }
{
    let exp = bare(exp);
    match &exp.node {
        Node::Infix(_, sign, _) => Key::Sign(*sign),
        _ => key_of_first(elements(exp)),
    }
}

/// The key of the first element, where there is one.
fn key_of_first<'a>(elements: &'a [Exp]) -> Key<'a>
    ensures { plain result ≡ first_key elements.now }
{
    let Some(first) = elements.first() else {
        return Key::Free;
    };
    match &first.node {
        Node::Atom(name) => Key::Atom(name),
        Node::Bracket(opening, _) => Key::Bracket(*opening),
        _ => Key::Free,
    }
}
