//! The signs of parts: what each may be, and how tightly it holds.

ghost use Rattle.std.specs.Prelude.{◌≡◌};
ghost use Rattle.st_grammar.specs.Levels as levels;

use st_num::Mark;

/// The least level to the left of a sign.
pub fn left_of(mark: Mark) -> u8
    ensures { result ≡ levels.left_of mark }
{
    mark.level() + mark.grouping().left_gap()
}

/// The least level to the right of a sign.
pub fn right_of(mark: Mark) -> u8
    ensures { result ≡ levels.right_of mark }
{
    mark.level() + mark.grouping().right_gap()
}

/// The least level behind a sign that has no left side.
pub fn prefix_right(mark: Mark) -> u8
    ensures { result ≡ levels.prefix_right mark }
{
    match mark {
        Mark::Turnstile => 8,
        _ => mark.prefix_level(),
    }
}

/// Whether the sign iterates an expression.
pub fn is_iteration_sign(mark: Mark) -> bool
    ensures { result ≡ levels.is_iteration_sign mark }
{
    matches!(mark, Mark::Star | Mark::Plus | Mark::Question)
}

/// Whether the sign iterates a type.
pub fn is_type_iteration_sign(mark: Mark) -> bool
    ensures { result ≡ levels.is_type_iteration_sign mark }
{
    matches!(mark, Mark::Star | Mark::Question)
}

/// Whether the sign is `^`, which stands before a count.
pub fn is_caret(mark: Mark) -> bool
    ensures { result ≡ levels.is_caret mark }
{
    matches!(mark, Mark::Caret)
}

/// Whether the sign is `,`, which sets off a next part.
pub fn is_comma(mark: Mark) -> bool
    ensures { result ≡ levels.is_comma mark }
{
    matches!(mark, Mark::Comma)
}

/// Whether the sign is `:`, which sets off the second end of a slice.
pub fn is_colon(mark: Mark) -> bool
    ensures { result ≡ levels.is_colon mark }
{
    matches!(mark, Mark::Colon)
}

/// Whether the sign is `<`, which stands before the bound of an index.
pub fn is_less(mark: Mark) -> bool
    ensures { result ≡ levels.is_less mark }
{
    matches!(mark, Mark::Less)
}

/// Whether the sign is `=`, which puts a new value at a path, or `=++`, which extends a list there.
pub fn is_change(mark: Mark) -> bool
    ensures { result ≡ levels.is_change mark }
{
    matches!(mark, Mark::Equal | Mark::ExtendBy)
}
