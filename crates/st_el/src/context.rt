//! Contexts in which parts are printed, and how tightly signs and parts hold together.

ghost use Rattle.std.specs.Prelude.{◌≡◌};
ghost use Rattle.st_num.specs.Signs.{level, prefix_level, left_of, right_of};
ghost use Rattle.st_el.specs.Contexts.{context_at, whole, operand_before, position, count, next_element, in_parens};
ghost use Rattle.st_el.specs.Wrappings.{opening, ending, around_in};

use st_num::Mark;

/// What the innermost brackets round a part are. A count stands behind `^` and has none.
#[derive(Clone, Copy)]
pub enum Around {
    Brackets,
    Bars,
    Arithmetic,
    Caret,
}

/// What stands right behind a part, where that may change how the part is read.
#[derive(Clone, Copy)]
pub enum Behind {
    Other,
    Dot,
    Plus,
}

/// The context of a part: what is round it, the loosest level that is allowed, whether a bar at its
/// front would close the bars round it, and what stands behind it.
#[derive(Clone, Copy)]
pub struct Context {
    pub around: Around,
    pub least: u8,
    pub bar_closes: bool,
    pub behind: Behind,
}

/// What is written round a part: nothing, `(` and `)`, or `$(` and `)`.
#[derive(Clone, Copy)]
pub enum Wrapping {
    Bare,
    Parens,
    Dollar,
}

/// The level of a sequence.
pub const SEQUENCE_LEVEL: u8 = 14;

/// The level of what holds together by itself.
pub const OPERAND_LEVEL: u8 = 20;

/// The loosest level that the sign allows to its left.
pub fn left_of(sign: Mark) -> u8
    ensures { result ≡ left_of (level sign) }
{
    sign.level() + sign.grouping().left_gap()
}

/// The loosest level that the sign allows to its right.
pub fn right_of(sign: Mark) -> u8
    ensures { result ≡ right_of (level sign) }
{
    sign.level() + sign.grouping().right_gap()
}

impl Context {
    /// A context for parts of this level and tighter ones.
    pub fn at(around: Around, least: u8) -> Context
        ensures { result ≡ context_at around least }
    {
        Context {
            around,
            least,
            bar_closes: false,
            behind: Behind::Other,
        }
    }

    /// A context for what stands behind a sign that has no left side.
    pub fn after(around: Around, sign: Mark) -> Context
        ensures { result ≡ context_at around (prefix_level sign) }
    {
        Context::at(around, sign.prefix_level())
    }

    /// A context for a whole expression.
    pub fn whole(around: Around) -> Context
        ensures { result ≡ whole around }
    {
        Context::at(around, 1)
    }

    /// A context for an operand with this behind it.
    pub fn operand_before(around: Around, behind: Behind) -> Context
        ensures { result ≡ operand_before around behind }
    {
        Context {
            around,
            least: OPERAND_LEVEL,
            bar_closes: false,
            behind,
        }
    }

    /// A context for an element of a sequence behind another.
    pub fn next_element(around: Around) -> Context
        ensures { result ≡ next_element around }
    {
        Context {
            around,
            least: OPERAND_LEVEL,
            bar_closes: matches!(around, Around::Bars),
            behind: Behind::Other,
        }
    }

    /// A context for a position or a length.
    pub fn position() -> Context
        ensures { result ≡ position }
    {
        Context::at(Around::Brackets, 13)
    }

    /// A context for the count of an iteration.
    pub fn count() -> Context
        ensures { result ≡ count }
    {
        Context::at(Around::Caret, 1)
    }
}

impl Wrapping {
    /// What the wrapping begins with.
    pub fn opening(self) -> &'static [u8]
        ensures { result.now ≡ opening self }
    {
        match self {
            Wrapping::Bare => b"",
            Wrapping::Parens => b"(",
            Wrapping::Dollar => b"$(",
        }
    }

    /// What the wrapping ends with.
    pub fn ending(self) -> &'static [u8]
        ensures { result.now ≡ ending self }
    {
        match self {
            Wrapping::Bare => b"",
            Wrapping::Parens | Wrapping::Dollar => b")",
        }
    }

    /// What the innermost brackets round a part are, where it is written in this wrapping.
    pub fn around_in(self, around: Around) -> Around
        ensures { result ≡ around_in self around }
    {
        match self {
            Wrapping::Bare => around,
            Wrapping::Parens => in_parens(around),
            Wrapping::Dollar => Around::Arithmetic,
        }
    }
}

/// What is round a part in parentheses.
pub fn in_parens(around: Around) -> Around
    ensures { result ≡ in_parens around }
{
    match around {
        Around::Arithmetic => Around::Arithmetic,
        Around::Brackets | Around::Bars | Around::Caret => Around::Brackets,
    }
}
