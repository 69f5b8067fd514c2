//! The base values of the language: numbers, names, places in a text, signs, tokens, rule ids and
//! lists.
//!
//! The one idea: what contracts speak of is plain data.
//! A `Row` is seen as the list of its elements, a `Boxed` as its value and a `Num` as a whole
//! number, so that two trees are equal where their parts are, wherever they lie in memory.
//!
//! Read `row` and `num` first, with `specs/Number.antt`. The rules are in `docs/language.md`
//! (signs, ids) and `docs/semantics.md` (numbers).
#![tactic(auto)]

mod arithmetic;
mod boxed;
mod compared;
mod dim;
mod fault;
mod limit;
mod mark;
mod memory;
mod num;
mod numeral;
mod row;
mod rule;
mod span;
mod token;
mod word;

pub use arithmetic::{add, compare, div_exact, mul, pow, rem, sub};
pub use boxed::Boxed;
pub use dim::{Dim, Kind};
pub use fault::Fault;
pub use limit::{
    HIGHEST_TREE, HIGHEST_VALUE, MOST_DEFINITIONS, MOST_PARENTHESES, MOST_PARTS, MOST_PREMISES,
    MOST_SIGNS,
};
pub use mark::{Grouping, Mark};
pub use memory::NoMemory;
pub use num::Num;
pub use numeral::{NumFault, print_number, read_number};
pub use row::{Name, Row, add_names, copy_names};
pub use rule::RuleId;
pub use span::Span;
pub use token::{Token, TokenKind};
pub use word::Word;
