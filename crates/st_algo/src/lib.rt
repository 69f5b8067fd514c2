//! What an internal language is lowered to: for each rule the steps in which it is run, and for
//! each clause of a function those in which it is tried.
//!
//! What comes in is an internal language and the modes of its relations. What goes out are
//! algorithms: the match of the inputs, the premises in their order, and the outputs.
//!
//! Read `algorithm` first, which has the steps, and then `specs/Lowered.antt`, which says what the
//! algorithms of an internal language are, and `specs/Taken.antt`, which says what it is that a
//! step can be taken.
#![tactic(auto)]

mod algorithm;
mod copy;
mod functions;
mod groups;
mod laws;
mod lowered;
mod lowering;
mod references;
mod relations;
mod step;

pub use algorithm::{AlgoStep, Algorithm, Algos};
pub use laws::steps_can_be_taken;
pub use lowered::lower;
