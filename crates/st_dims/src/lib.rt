//! Dimensions: how deep in iterations each variable of a rule or clause stands.
//!
//! What comes in are the expressions and premises of a rule or clause; what goes out is each
//! variable with its dimension, or the first place that breaks a rule on dimensions.
//!
//! The one idea: the trees are read once into the list of what bears on dimensions, in the order
//! of the text. All that is said of dimensions is said of that list.
//!
//! Read `mention` first, with `specs/Mentions.antt` and `specs/Dimensions.antt`. The rules are in
//! `docs/dimensions.md`.
#![tactic(auto)]

mod dimension;
mod expression;
mod fault;
mod mention;
mod premise;
mod table;
mod within;

pub use dimension::{dimensions_of, dims, mentions_of};
pub use fault::DimFault;
pub use mention::{Iteration, Mention, Occurrence};
pub use within::{Within, is_among, kind_of};
