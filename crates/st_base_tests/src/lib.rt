//! Numbers, devices and the words of commands, tried on values that are worked out by hand.
//!
//! Nothing is called from here. The tests stand over the crates of the base, so that each of these
//! is proved once, without tests.
#![tactic(auto)]

#[cfg(test)]
mod numbers;
#[cfg(test)]
mod outside;
#[cfg(test)]
mod words;
