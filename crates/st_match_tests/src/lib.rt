//! Lists of instructions that are split into three, with the number of ways.
//!
//! Nothing is called from here. The tests stand over `st_match`, so that it is proved once, without
//! tests. The numbers are counted by hand: a list of `n` instructions has a way for each two cuts of
//! it, but the part in front has only values.
#![tactic(auto)]

#[cfg(test)]
mod splitting;
