//! Rows of the table of elaboration: what the code does for one form of expression.
//!
//! A form of expression and an elaborator that answers come in, and an expression of the internal
//! language or the first breach goes out. The one idea: each function follows one row of the table
//! of `st_elab_table` and asks its questions in the same order, of an elaborator that it is passed,
//! so that no row recurses.
//!
//! Read `asking`, `elaborator` and `ask` first, with `specs/Told.antt` and `specs/Asking.antt`. The
//! rules are in `docs/elaboration.md`.
#![tactic(auto)]

pub mod ask;
pub mod asking;
pub mod choice;
pub mod elaborator;
pub mod fitting;
pub mod form;
pub mod found;
pub mod iteration;
pub mod number;
pub mod operand;
mod operator;
pub mod part;
pub mod passed;
pub mod path;
pub mod record;
pub mod variable;
