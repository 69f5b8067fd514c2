//! What lies outside the program: the files that it loads and the sink that it writes to.
//!
//! Both are traits, so that everything above is proved once for every device. A device owns up
//! to each fault by a count that never falls, and may tell what it holds or has taken.
//! `MemFiles` and `MemSink` tell both; `DiskFiles` and `StdSink` tell neither.
//!
//! Read `files` and `sink` first, with `specs/Files.antt` and `specs/Sink.antt`. The rule on
//! counts is `docs/semantics.md`, "Faults".
#![tactic(auto)]

mod disk;
mod files;
mod memory;
mod sink;
mod stdout;

pub use disk::DiskFiles;
pub use files::{Files, LoadFault};
pub use memory::{MemFiles, MemSink};
pub use sink::{Sink, SinkFault, Wrote, write_all_of};
pub use stdout::StdSink;
