//! Short specifications, with what no command shows of them: which names cite which, the marks of
//! their relations, the order of one rule, and the steps to which rules and clauses are lowered.
//!
//! Nothing is called from here. The tests stand over elaboration, `st_deps`, `st_order` and
//! `st_algo`, so that each of these is proved once, without tests. The texts are worked out by hand
//! from `docs/semantics.md`.
//!
//! `told` says how a row is written; every other file is rows and what is told of them.
#![tactic(auto)]

#[cfg(test)]
mod citing;
#[cfg(test)]
mod lowering;
#[cfg(test)]
mod marking;
#[cfg(test)]
mod ordering;
#[cfg(test)]
mod told;
