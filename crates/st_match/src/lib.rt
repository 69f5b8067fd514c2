//! What expressions come to, and the environments under which patterns have values.
//!
//! *Values.* An expression comes to a value, to none, or to one that would be too high, in an
//! environment, where a caller answers calls of functions. What each form gives is told by the
//! definitions of `st_semantics`, from `Parts.antt` to `Evaluation.antt`; here it is computed.
//! Operands go from left to right, and the first outcome that is no value is the outcome. Recursion
//! goes as deep as expressions, values and paths are high, never as long as a list is.
//!
//! *Matching.* First the candidates of the patterns, one or several at once, are found: environments
//! that cover all that extend the given one and give the patterns the values. They need not give them
//! those values. Each candidate is put in the order of its names, and kept if the variables have
//! their types and the patterns come to the values, unless it was found before.
//!
//! Of values read `evaluation` and `caller` first, then `operations`. Of matching read `matching`
//! first, with `specs/Matches.antt` and `Matching.antt` of `st_semantics`, which say what is to be
//! found; then `covering`, with `specs/inner/Covering.antt`, `Rows.antt` and `Positions.antt`.
#![tactic(auto)]

mod arithmetic;
mod assembly;
mod caller;
mod column;
mod covering;
mod environment;
mod evaluation;
mod joining;
mod list;
mod made;
mod matching;
mod names;
mod operations;
mod path;
mod position;
mod proper;
mod record;
mod rows;
mod scope;
mod truth;
mod types;

pub use caller::{Caller, NoFunctions};
pub use column::{Elements, Table, element_scope, gathered, spread};
pub use evaluation::{value, values};
pub use matching::{all_match, extensions, matches};
pub use operations::operation;
pub use scope::{Bound, Held, scope_of};
