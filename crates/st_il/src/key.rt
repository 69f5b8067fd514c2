//! Keys of templates, by which a case of a variant is chosen.

ghost use Rattle.std.specs.Prelude.{◌≡◌, ◌↔◌, IsTrue};
ghost use Rattle.st_il.specs.declared.template.Template.{out-Template};
ghost use Rattle.st_il.specs.Key.{key, element_key, plain};

use crate::Template;
use st_num::{Mark, Name};

/// The top sign of a template, or else its first element where that is an atom or a bracket.
#[derive(Clone, Copy)]
pub enum Key<'a> {
    Sign(Mark),
    /// The opening bracket.
    Bracket(Mark),
    Atom(&'a Name),
    Free,
}

/// The key of a template. It takes no memory.
pub fn key_of<'a>(template: &'a Template) -> Key<'a>
    ensures { plain result ≡ key template.now }
{
    match template {
        Template::Infix(_, sign, _) => Key::Sign(*sign),
        Template::Seq(parts) => match parts.as_slice().first() {
            Some(first) => key_of_element(first),
            None => Key::Free,
        },
        element => key_of_element(element),
    }
}

/// The key of an element of a sequence.
fn key_of_element<'a>(element: &'a Template) -> Key<'a>
    ensures { plain result ≡ element_key (out-Template element.now) }
{
    match element {
        Template::Atom(name) => Key::Atom(name),
        Template::Bracket(opening, _) => Key::Bracket(*opening),
        Template::Hole | Template::Seq(_) | Template::Infix(_, _, _) => Key::Free,
    }
}

/// Whether two keys are the same. It takes no memory.
pub fn same_key(a: &Key, b: &Key) -> bool
    ensures { IsTrue result ↔ (plain a.now ≡ plain b.now) }
{
    match (a, b) {
        (Key::Sign(one), Key::Sign(other)) => *one == *other,
        (Key::Bracket(one), Key::Bracket(other)) => *one == *other,
        (Key::Atom(one), Key::Atom(other)) => **one == **other,
        (Key::Free, Key::Free) => true,
        _ => false,
    }
}
