//! What the rules of a specification mean: definitions, the types that they speak of, and laws.
//! Beside them stands code that several crates above need: which expressions are patterns, the
//! operands of an expression (`operands`), over which evaluation and typing go, and the holes of a
//! template.
//!
//! Read `specs/Lib.antt` for the order in which to read them.
#![tactic(auto)]

mod holes;
mod laws;
mod notes;
pub mod operands;
mod outcome;
mod pattern;
mod unfit;
mod verify_rule;

pub use holes::push_holes;
pub use laws::meaning_of_rules;
pub use notes::{Judgement, Notes};
pub use outcome::{Outcome, Outcomes};
pub use pattern::is_pattern;
pub use unfit::{Unfit, Unordered};
pub use verify_rule::VerifyRule;
