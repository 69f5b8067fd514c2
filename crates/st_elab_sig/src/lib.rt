//! Signatures: what written types, notations and `mode` hints are in the internal language.
//!
//! A notation comes in, and its tag and the types of its operands go out; the hints of a relation
//! give its mode. The one idea: a tag is the text of a notation with a hole for each type, so that
//! the tag and the types give the notation back.
//!
//! Read `signature` first, then `specs/Signatures.antt` and `specs/Modes.antt`. The rules are in
//! `docs/internal-language.md`, "Signatures".
#![tactic(auto)]

mod laws;
mod mode;
mod signature;
mod ty;

pub use laws::{one_mode, signatures_erase_back};
pub use mode::mode_of;
pub use signature::{Signature, signature_of};
pub use ty::{elaborate_typ, elaborate_typs};
