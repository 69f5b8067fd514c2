//! Whole commands over files and a sink in memory: what no example shows, a load or a write that
//! fails, and a long derivation.
//!
//! Nothing is called from here. The tests stand over `serve`, so that its crate is proved once,
//! without tests. What commands print stands in `examples/`.
#![tactic(auto)]

#[cfg(test)]
mod commands;
