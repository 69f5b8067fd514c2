//! The program `spectec`: words in, files and standard output at hand, a status out.
//!
//! Nothing is written to standard error. All that it does is done by `serve` of `st_tool`.
#![tactic(auto)]

use st_outside::{DiskFiles, StdSink};
use st_tool::{Status, serve};
use std::io::ErrorKind;
use std::process::ExitCode;
use std::{env, io};

/// The words of the command line, without the program's name. A word that is not UTF-8 has no
/// reading.
fn command_words(rt: &(impl env::Env + AllocGlobal)) -> Result<Vec<String>, Status> {
    let mut args = match env::args(rt) {
        Ok(args) => args,
        Err(error) if error.kind() == ErrorKind::OutOfMemory => return Err(Status::Memory),
        Err(_) => return Err(Status::Usage),
    };
    let _program = args.next();
    match args.collect(rt.alloc()) {
        Ok(words) => Ok(words),
        Err(_) => Err(Status::Memory),
    }
}

/// Runs the command that the words of the command line ask for, and ends with its status.
fn main(rt: HostRuntime) -> ExitCode {
    let status = match command_words(&rt) {
        Ok(words) => {
            let mut files = DiskFiles::new(&rt);
            let mut out = StdSink::new(io::writer(&rt));
            serve(rt.alloc(), &words, &mut files, &mut out)
        }
        Err(status) => status,
    };
    ExitCode::from(status.number())
}
