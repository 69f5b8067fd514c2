//! What calls and expressions come to, where so many calls may be open at once.
//!
//! The clauses of a function, which an index of the language gives, are tried in their order,
//! each from the values of its arguments on, premise by premise, by laws that are proved here.
//!
//! Read `calls` and `clause` first, with `specs/Steps.antt`; then `meet` and `condition`. What a call
//! comes to is told by `Calls.antt` of `st_semantics`.
#![tactic(auto)]

mod calls;
mod clause;
mod condition;
pub mod each;
pub mod element;
mod evaluable;
pub mod known;
mod laws;
mod listing;
pub mod meet;
mod reading;
pub mod variables;

pub use calls::{call, call_in, value, value_in};
pub use condition::{Met, meet_condition, tested};
pub use evaluable::typed_languages_are_evaluable;
pub use laws::steps_of_clauses;
pub use listing::listed_inside;
pub use reading::{Setting, value_of};
