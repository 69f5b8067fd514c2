//! The grammar of the parts of a definition: types, notations, expressions and arithmetic.
//!
//! The one idea: a part is a tree that keeps each of its tokens. Which trees there are is told by a
//! table of levels and by what may stand in each sort of part; their tokens are a function.
//!
//! Read `specs/Terminals.antt`, `specs/Grammar.antt` and `laws` first. The rules are in
//! `docs/language.md`, "Grammar".
#![tactic(auto)]

mod action;
mod keyword;
mod laws;
mod sign;
mod sort;

pub use action::{Action, TokenRef};
pub use keyword::Keyword;
pub use laws::{definitions_are_read, one_list, one_tree, parts_are_read, readings_emit};
pub use sign::{
    is_caret, is_change, is_colon, is_comma, is_iteration_sign, is_less, is_type_iteration_sign,
    left_of, prefix_right, right_of,
};
pub use sort::{Bracket, Closing, Leaf, Sort, Style};
