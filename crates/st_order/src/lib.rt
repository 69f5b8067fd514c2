//! How relations are run: which of their holes are inputs, and in which order the premises of a
//! rule are run.
//!
//! What comes in is an internal language. What goes out is, for each hole of a relation, whether
//! it is an input, and for each rule the order of its premises, or what is in the way.
//!
//! Read `direction` and `order_rule` first, with `Directions.antt`, `Executable.antt` and
//! `OrderOf.antt` of `st_semantics`, which say what a direction, a premise that can be run and an
//! order are, and with `specs/Answers.antt`.
#![tactic(auto)]

mod arrow;
pub mod bindings;
pub mod class;
pub mod directed;
pub mod directions;
mod fault;
pub mod index;
mod least;
pub mod masks;
mod order;
mod relation_modes;
pub mod rules;
pub mod selection;
mod step_types;
pub mod variables;

pub use directions::direction;
pub use fault::OrderFault;
pub use masks::{Directions, directions_of};
pub use order::{has_rule, order_by, order_rule};
pub use relation_modes::Modes;
pub use rules::{full_name, relations_of, rules_of};
pub use step_types::stepping;
