//! The limits of the language, as `docs/language.md` lists them under "Limits".

/// The greatest height of a source tree and of a template, and the most brackets and bars of a
/// length that are open at once.
pub const HIGHEST_TREE: u8 = 100;

/// The greatest height of a value.
pub const HIGHEST_VALUE: u32 = 1000;

/// The most infix signs between the same brackets, and the most prefix or postfix signs in a row.
pub const MOST_SIGNS: u8 = 32;

/// The most premises, and the most variables, of one rule or clause.
pub const MOST_PREMISES: u8 = 255;

/// The most elements of a sequence, tuple, record or list of arguments, and the most alternatives.
pub const MOST_PARTS: u16 = 4095;

/// The most definitions of a specification.
pub const MOST_DEFINITIONS: u16 = 65_535;

/// The most parentheses that are open at once in a text of the internal language.
pub const MOST_PARENTHESES: u16 = 2000;
