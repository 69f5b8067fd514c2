//! Elaboration of a source: its definitions in the internal language, or the first breach.
//!
//! The definitions of a source come in. The one idea: a source is a list of conditions, each at a
//! place, in the order of four phases (declarations, bodies, signatures, rules and clauses); the
//! first that is false is the breach, and where all hold there is one internal language.
//!
//! Read `specs/Conditions.antt` and `specs/Phases.antt` first, then `specs/Breaches.antt` and
//! `specs/Elaboration.antt`. The rules on syntaxes and signatures are in
//! `docs/internal-language.md`, and those on rules and clauses in `docs/elaboration.md`.
#![tactic(auto)]

mod assembly;
mod bodies;
mod breach;
mod contents;
mod declarations;
mod declared;
mod dots;
mod elaborated;
mod heads;
mod joining;
mod laws;
mod listing;
mod names;
mod numbered;
mod parts;
mod places;
mod signatures;
mod source;
mod tables;
mod whole;

pub use breach::{Breach, DefFault};
pub use elaborated::Elaborated;
pub use laws::{
    declares_its_own, elaborated_sources_are_typed, erases_back, indices_stay_inside,
    iterations_name_what_they_iterate, names_are_declared, one_outcome, variables_are_listed,
};
pub use source::elaborate;
pub use tables::decls;
