//! The reading of definitions, one token after another, and the first token that they refuse.
//!
//! The one idea: the reader keeps what is open, and of what it has read only what later tokens
//! ask. That abbreviates the reading of `st_grammar`, so it stops at the same token.
//!
//! Read `reader` first, with `specs/inner/PartAutomaton.antt`. The rules are in
//! `docs/language.md`, "Grammar".
#![tactic(auto)]

mod actions;
mod begin;
mod class;
mod close;
mod definition_automaton;
mod frame;
mod heading;
mod laws;
mod name_index;
mod part_automaton;
mod position;
mod premise;
mod progress;
mod reader;
mod step;
mod token;

pub use actions::with_actions;
pub use class::{declared_names, token_class};
pub use definition_automaton::{advance, may_end};
pub use frame::{follows, top};
pub use laws::{refused_once, tokens_emit};
pub use name_index::NameIndex;
pub use part_automaton::{Expected, Filling, Frame, Lead, Part, PartKind, Reading, Shape};
pub use position::{
    Advance, At, CaseAt, Host, IterationState, Position, Progress, Slot, Step, TokenClass,
};
pub use progress::{filled, slot_sort};
pub use reader::first_refused;
pub use step::{end, finish as part_end};
pub use token::opens_round;
