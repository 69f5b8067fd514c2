//! What no command shows of the middle: which texts are tags, and calls that the program does not
//! make.
//!
//! Nothing is called from here. That a call has an answer where there is enough memory is no
//! clause: `calls` makes each once. What expressions are elaborated to is shown by
//! `examples/expressions` and `examples/notation`.
#![tactic(auto)]

#[cfg(test)]
mod calls;
#[cfg(test)]
mod tags;
