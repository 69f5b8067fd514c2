//! The specification in some files: from their bytes to an internal language that breaks no rule,
//! or to the answer that refuses them.
//!
//! What comes in are the names and the bytes of files. What goes out is a specification, as what
//! its definitions are elaborated to and the modes of its relations; or the text of the first fault
//! or breach.
//!
//! Read `specs/Specification.antt` and `specs/Refused.antt` first, and then `read_specification`.
//! Texts of refusals are told in `docs/refusals.md`.
#![tactic(auto)]

mod laws;
mod modes;
mod specification;

pub use laws::breaches_stand;
pub use specification::{Specification, read_specification};
