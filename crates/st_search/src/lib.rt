//! Searching: all that a relation derives from some inputs, each once, with a derivation.
//!
//! What comes in is an internal language that can be searched, with its algorithms, a relation without
//! a mark and inputs of its types. What goes out is each output that is derivable, in the order of
//! values, with a tree that is valid at the depth; or a chain of goals that leads to what is Deep.
//!
//! What each search needs of a language is made once (`language`), so that a search takes no longer
//! where the language has more definitions. Goals are searched by `search`, which passes itself, with
//! one goal less, to what runs the rules of a relation (`relation`, `rule`). The run of a rule begins
//! where its inputs match (`start`), goes on premise by premise (`advance`) and gives outputs at its
//! ends (`conclude`), each with its tree (`tree`), in the order of values (`ordered`). A premise is
//! run by `step`: a condition by `condition`, a goal by `goal`, an iterated premise element by
//! element, and then `gather`. What stands at the holes of a goal comes to values or is matched
//! (`holes`). Why a premise is not run to its end is told by `stop`, with its number by `orders`. Of
//! which languages relations can be searched is told by `searchable` and `literals`.
//!
//! The one idea: what a premise leads to is told apart from how it is found, as exactly the ways in which
//! it holds, where all goals that it asks are answered so. Read `specs/Searchable.antt` and
//! `specs/Answers.antt` first, then `specs/inner/Sought.antt`, `Steps.antt`, `Walks.antt` and
//! `Rules.antt`. What is derivable and what a chain is are told by `st_semantics`.
#![tactic(auto)]

mod advance;
mod answer;
mod conclude;
mod condition;
mod copy;
mod finder;
mod found;
mod gather;
mod goal;
mod holes;
mod language;
mod literals;
mod ordered;
mod orders;
mod relation;
mod rule;
mod search;
mod searchable;
mod setting;
mod start;
mod step;
mod stop;
mod tree;

pub use answer::{Chain, Output, Outputs, SearchFault};
pub use language::{SearchedLanguage, searched_language};
pub use literals::proper;
pub use search::{outputs, outputs_in};
pub use searchable::typed_languages_are_searchable;
