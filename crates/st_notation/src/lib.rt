//! Notation in expressions: which key an expression has, and how it fills the holes of a template.
//!
//! An expression and a template come in, and what fills each hole goes out. The one idea: a fit is
//! a relation that follows the parts of the template, and there is at most one.
//!
//! Read `filled` and `fitting` first, then `specs/Fits.antt`. The rules are in `docs/language.md`,
//! "Notation".
#![tactic(auto)]

mod element;
mod filled;
mod fitting;
mod key;
mod share;

pub use filled::{Filled, FitFault, Shape};
pub use fitting::fit;
pub use key::key_of_exp;
