//! The meaning of the grammar: which source trees the trees of the grammar are.
//!
//! The one idea: a tree of the grammar keeps each token, and its meaning is a function by cases on
//! it: parentheses round a type, commas and closing signs are gone, and places are kept.
//!
//! Read `specs/Meaning.antt` and `specs/Definitions.antt` first. The rules are in
//! `docs/source-trees.md`.
#![tactic(auto)]

mod builder;
mod built;
mod form;
mod laws;
mod leaf;
mod leave;
mod limit;
mod list;
mod make;
mod notation_builder;
mod notation_form;
mod notation_make;
mod notation_piece;
mod notation_pieces;
mod path;
mod piece;
mod pieces;

pub use builder::build;
pub use built::{Built, above, higher, no_parts, with_part};
pub use form::mark_count;
pub use laws::{notations_are_built, one_source, parts_are_built, types_are_built};
pub use leaf::{copy_name, name_of};
pub use leave::leave_out;
pub use limit::place_past;
pub use notation_builder::{build_notation, build_typ};
pub use notation_piece::NotationPiece;
pub use piece::Piece;
