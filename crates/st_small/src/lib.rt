//! Small specifications: which they are, the one whose text some bytes are, and whether an internal
//! language is that of one.
//!
//! The one idea: an internal language is first taken apart into what a small specification has, if
//! it has the form of one, and then asked what is asked of every small specification.
//!
//! What a small specification is, and what its internal language, is told by `specs/Small.antt` of
//! `st_il`, and what its text is by `specs/SmallText.antt`; read these first, and then `il` and
//! `reader`.
#![tactic(auto)]

mod il;
mod names;
mod part;
mod reader;
mod small;
mod word;

pub use il::is_small_il;
pub use reader::read_small;
pub use small::is_small;
