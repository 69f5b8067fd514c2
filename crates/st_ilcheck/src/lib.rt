//! The typing of an internal language, told as definitions: which type an expression has, found
//! without one being asked, which of the rules T1 to T14 a definition breaks, and the first
//! definition that breaks one, with the least rule that it breaks.
//!
//! The code decides it for every language (`typed`): also where syntaxes break a rule, by a table of
//! any syntaxes. What is proved besides is that the definitions tell one thing: an expression has
//! one type at most, and a language that is not typed one breach at most.
//!
//! Read `specs/FoundTypes.antt` and `specs/Rules.antt` first, then `specs/Typings.antt` and
//! `specs/Typed.antt`; of the code `breach`, `typing` and `keeping`. The language is told in
//! `docs/internal-language.md`.
#![tactic(auto)]

mod breach;
mod cited;
mod contents;
mod declarations;
mod declaring;
mod definitions;
mod found;
mod heads;
pub mod index;
mod keeping;
mod language;
mod laws;
mod least;
mod listed;
mod names;
mod naming;
mod once;
mod premise_contents;
mod premises;
mod rows;
mod scope;
mod shape;
mod tagged;
mod typing;
mod variables;

pub use breach::{IlFault, typed};
pub use laws::{one_breach, one_typing, small_typings};
pub use naming::{each_kept, names_kept};
pub use premise_contents::{indices_kept, variables_kept};
