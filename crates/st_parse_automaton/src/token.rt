//! What a token is between parts.

ghost use Rattle.std.specs.Prelude.{◌≡◌};
ghost use Rattle.st_grammar.specs.Definitions as grammar;
ghost use Rattle.st_grammar.specs.Levels as levels;
ghost use Rattle.st_parse_automaton.specs.inner.DefinitionAutomaton as definitions;

use crate::frame::agree;
use crate::part_automaton::Shape;
use crate::position::TokenClass;
use crate::step::is_label;
use st_grammar::{Bracket, Closing, Leaf};
use st_num::Mark;

/// Whether the token is `/`.
pub(crate) fn at_slash(class: TokenClass) -> bool
    ensures { result ≡ definitions.signed grammar.is_slash class }
{
    matches!(class.shape, Shape::Sign(Mark::Slash))
}

/// Whether the token is `-`.
pub(crate) fn at_minus(class: TokenClass) -> bool
    ensures { result ≡ definitions.signed grammar.is_minus class }
{
    matches!(class.shape, Shape::Sign(Mark::Minus))
}

/// Whether the token is `=`.
pub(crate) fn at_equal(class: TokenClass) -> bool
    ensures { result ≡ definitions.signed grammar.is_equal class }
{
    matches!(class.shape, Shape::Sign(Mark::Equal))
}

/// Whether the token is `...`.
pub(crate) fn at_dots(class: TokenClass) -> bool
    ensures { result ≡ definitions.signed grammar.is_dots class }
{
    matches!(class.shape, Shape::Sign(Mark::Ellipsis))
}

/// Whether the token is a comma.
pub(crate) fn at_comma(class: TokenClass) -> bool
    ensures { result ≡ definitions.signed levels.is_comma class }
{
    matches!(class.shape, Shape::Sign(Mark::Comma))
}

/// Whether the token is a colon.
pub(crate) fn at_colon(class: TokenClass) -> bool
    ensures { result ≡ definitions.signed levels.is_colon class }
{
    matches!(class.shape, Shape::Sign(Mark::Colon))
}

/// Whether the token is `^`.
pub(crate) fn at_caret(class: TokenClass) -> bool
    ensures { result ≡ definitions.signed levels.is_caret class }
{
    matches!(class.shape, Shape::Sign(Mark::Caret))
}

/// Whether the token iterates an expression.
pub(crate) fn at_iteration_sign(class: TokenClass) -> bool
    ensures { result ≡ definitions.signed levels.is_iteration_sign class }
{
    matches!(
        class.shape,
        Shape::Sign(Mark::Star | Mark::Plus | Mark::Question)
    )
}

/// Whether the token is a name that begins with a lower-case letter.
pub(crate) fn is_low(class: TokenClass) -> bool
    ensures { result ≡ definitions.is_low class }
{
    matches!(class.shape, Shape::Single(Leaf::Low))
}

/// Whether the token is a name right behind a dollar sign.
pub(crate) fn is_fun(class: TokenClass) -> bool
    ensures { result ≡ definitions.is_fun class }
{
    matches!(class.shape, Shape::Single(Leaf::Function))
}

/// Whether the token is the name of a relation.
pub(crate) fn names_relation(class: TokenClass) -> bool
    ensures { result ≡ definitions.names_relation class }
{
    class.mix || is_label(class.shape)
}

/// Whether the token is a name of any kind.
pub(crate) fn is_name(class: TokenClass) -> bool
    ensures { result ≡ definitions.is_name class }
{
    is_low(class) || names_relation(class)
}

/// Whether it is this closing token.
fn shape_closes(closing: Closing, shape: Shape) -> bool
    ensures { result ≡ definitions.shape_closes closing shape }
{
    match shape {
        Shape::Close(other) => agree(other, closing),
        _ => false,
    }
}

/// Whether the token is a bar.
pub(crate) fn is_bar(class: TokenClass) -> bool
    ensures { result ≡ definitions.is_bar class }
{
    shape_closes(Closing::ByBar, class.shape)
}

/// Whether it closes parentheses.
pub(crate) fn closes_round(class: TokenClass) -> bool
    ensures { result ≡ definitions.closes_round class }
{
    shape_closes(Closing::ByRound, class.shape)
}

/// Whether it closes braces.
pub(crate) fn closes_brace(class: TokenClass) -> bool
    ensures { result ≡ definitions.closes_brace class }
{
    shape_closes(Closing::ByBrace, class.shape)
}

/// Whether it opens parentheses.
pub fn opens_round(class: TokenClass) -> bool
    ensures { result ≡ definitions.opens_round class }
{
    matches!(class.shape, Shape::Open(Bracket::Round, _))
}

/// Whether it opens braces.
pub(crate) fn opens_brace(class: TokenClass) -> bool
    ensures { result ≡ definitions.opens_brace class }
{
    matches!(class.shape, Shape::Open(Bracket::Brace, _))
}

/// Whether a piece of a name is due behind the token, where it goes on with the name.
pub(crate) fn id_step(due: bool, class: TokenClass) -> Option<bool>
    ensures { result ≡ definitions.id_step due class }
{
    if due {
        if class.touching && class.piece {
            return Some(false);
        }
        return None;
    }
    if class.touching && at_minus(class) {
        return Some(true);
    }
    if class.touching && class.dot {
        return Some(false);
    }
    None
}
