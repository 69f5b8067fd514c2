//! Numbers, values and lines, and what is read and judged of them that no command shows.
//!
//! Nothing is called from here. The tests stand over the crates that check derivations, so that
//! each of these is proved once, without tests. The rows are worked out by hand. Which texts are
//! read is shown by `examples/il-texts` and `examples/derivations`.
#![tactic(auto)]

#[cfg(test)]
mod numbers;
#[cfg(test)]
mod values;
#[cfg(test)]
mod verdicts;
