//! Where a fault stands in the text.

ghost use Rattle.std.specs.Prelude.{◌≡◌};
ghost use Rattle.std.specs.Option.{option_copied};
ghost use Rattle.st_parse_faults.specs.Place.{place_of, place_at};

use st_num::{Span, Token};

/// The first line and column of the first file.
const START: Span = Span {
    file: 0,
    line: 1,
    column: 1,
};

/// The place of a token, or the start of the first file where there is none.
fn place_of(token: Option<&Token>) -> Span
    ensures { result ≡ place_of (option_copied token.entry) }
{
    match token {
        Some(token) => token.at,
        None => START,
    }
}

/// The place of the token of this number, counted from 0, or of the last token where there are no
/// more; the start of the first file where there is none.
pub fn place_at(tokens: &[Token], number: usize) -> Span
    ensures { result ≡ place_at tokens.now number }
{
    if number < tokens.len() {
        place_of(tokens.get(number))
    } else {
        place_of(tokens.last())
    }
}
