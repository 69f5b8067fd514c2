//! Where a value stands in a text.

ghost use Rattle.std.specs.Prelude.{◌≡◌};
ghost use Rattle.st_il.specs.declared.template.Template.{out-Template};
ghost use Rattle.st_term.specs.TermText.{is_element, needs_parens};

use st_il::Template;

/// Where a value stands.
#[derive(Clone, Copy, Debug, PartialEq, Eq)]
pub enum Place {
    /// By itself.
    Alone,
    /// As a whole side of a sign, or as the whole inside of a bracket.
    Side,
    /// As an element of a sequence or of a list.
    Element,
}

/// Whether the place is that of an element.
pub(crate) fn is_element(place: Place) -> bool
    ensures { result ≡ is_element place }
{
    matches!(place, Place::Element)
}

/// Whether a case of this notation needs parentheses there.
pub(crate) fn needs_parens(template: &Template, place: Place) -> bool
    ensures { result ≡ needs_parens (out-Template template.now) place }
{
    match place {
        Place::Alone => false,
        Place::Side => matches!(template, Template::Infix(_, _, _)),
        Place::Element => !matches!(template, Template::Atom(_) | Template::Bracket(_, _)),
    }
}
