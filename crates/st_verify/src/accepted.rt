//! The answer of the checker that is Ok.

/// How many lines an accepted derivation has, and how many of them are steps.
#[derive(Clone, Copy, Debug, PartialEq, Eq)]
pub struct Accepted {
    pub lines: u64,
    pub steps: u64,
}
