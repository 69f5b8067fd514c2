//! The laws of typing: what is elaborated is typed in the internal language.
//!
//! No code stands here that runs. The one idea: the table of `st_elab_table` is read row by row, as
//! in `st_elab_law`, and each row keeps that what it gives has the type that is asked or told; and
//! of names, what is elaborated has the variables, the indices and the iterations of its source, of
//! which the dimensions are known.
//!
//! Read `src/laws.rt` first, with the definitions of `st_ilcheck` that it cites; then
//! `proofs/AreListed.antt` and `proofs/NamesKept.antt` for names, and `proofs/Claims.antt` for
//! types. The rules are in `docs/elaboration.md`, and in `docs/internal-language.md`, "Typing".
#![tactic(auto)]

mod laws;

pub use laws::{
    elaborated_expressions_are_typed, elaborated_indices_stay_inside,
    elaborated_iterations_name_what_they_iterate, elaborated_names_are_declared,
    elaborated_rules_are_typed, elaborated_variables_are_listed,
};
