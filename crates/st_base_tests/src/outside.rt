//! What no clause says: each device once, on values worked out by hand.

use st_num::{Name, NoMemory, Row};
use st_outside::{DiskFiles, Files, LoadFault, MemFiles, MemSink, StdSink, Wrote, write_all_of};
use std::alloc::Global;
use std::io::{ErrorKind, Write};
use std::process::Abort;
use std::test::Fail;
use std::{fs, io};

/// A name, the limit of its load, and what the load gives.
type Load = (&'static str, u32, Result<&'static str, LoadFault>);

const IN_MEMORY: [Load; 6] = [
    ("a", 3, Ok("abc")),
    ("a", 3, Err(LoadFault::Failed)),
    ("a", 2, Err(LoadFault::TooLong)),
    ("b", 9, Err(LoadFault::Failed)),
    ("empty", 9, Err(LoadFault::Failed)),
    ("empty", 0, Ok("")),
];

const ON_DISK: [Load; 5] = [
    ("short", 3, Ok("abc")),
    ("short", 2, Err(LoadFault::TooLong)),
    ("short", u32::MAX, Ok("abc")),
    ("absent", 9, Err(LoadFault::Failed)),
    (".", 9, Err(LoadFault::Failed)),
];

/// Whether a load gave these bytes, or this fault.
fn is_same(got: &Result<Vec<u8>, LoadFault>, wanted: &Result<&str, LoadFault>) -> bool {
    match (got, wanted) {
        (Ok(got), Ok(wanted)) => got.as_slice() == wanted.as_bytes(),
        (Err(got), Err(wanted)) => *got == *wanted,
        _ => false,
    }
}

fn expect_loads<F: Files>(rt: &impl Abort, alloc: Global, files: &mut F, loads: &[Load]) {
    for (name, limit, wanted) in loads {
        let got = files.load(alloc, name, *limit);
        assert!(rt; is_same(&got, wanted), "{name} up to {limit}");
    }
}

fn push_entry(
    alloc: Global,
    entries: &mut Row<(Name, Row<u8>)>,
    name: &str,
    text: &str,
) -> Result<(), NoMemory> {
    let name = Name::from_slice(alloc, name.as_bytes())?;
    entries.push((name, Row::from_slice(alloc, text.as_bytes())?))
}

/// The files `a`, with three bytes, a second `a`, and `empty`. Loads 1 and 4 fail.
fn three_files(alloc: Global) -> Result<MemFiles, NoMemory> {
    let mut entries = Row::new(alloc);
    push_entry(alloc, &mut entries, "a", "abc")?;
    push_entry(alloc, &mut entries, "a", "other")?;
    push_entry(alloc, &mut entries, "empty", "")?;
    Ok(MemFiles::new(entries, Row::from_slice(alloc, &[1, 4])?))
}

#[test]
fn files_in_memory(rt: HostRuntime) -> Result<(), Fail> {
    let mut files = three_files(rt.alloc())?;
    expect_loads(&rt, rt.alloc(), &mut files, &IN_MEMORY);
    assert!(rt; files.calls == 6 && files.faults == 3);
    Ok(())
}

#[test]
fn files_on_disk(rt: HostRuntime) -> Result<(), Fail> {
    fs::write(&rt, "short", "abc")?;
    let mut files = DiskFiles::new(&rt);
    expect_loads(&rt, rt.alloc(), &mut files, &ON_DISK);
    fs::remove_file(&rt, "short")?;
    Ok(())
}

/// A file of more bytes than one read gives.
#[test]
fn a_long_file_on_disk(rt: HostRuntime) -> Result<(), Fail> {
    let long = Vec::from_elem(rt.alloc(), b'x', 10_000)?;
    fs::write(&rt, "long", long.as_slice())?;
    let mut files = DiskFiles::new(&rt);
    let over = files.load(rt.alloc(), "long", 9_999);
    assert!(rt; is_same(&over, &Err(LoadFault::TooLong)));
    let whole = files.load(rt.alloc(), "long", 10_000)?;
    assert!(rt; whole.as_slice() == long.as_slice());
    fs::remove_file(&rt, "long")?;
    Ok(())
}

/// The room of a sink, how all of `abc` is written to it, and what it took.
const ROOMS: [(u64, Result<(), Wrote>, &str); 3] = [
    (0, Err(Wrote { out: 0 }), ""),
    (2, Err(Wrote { out: 2 }), "ab"),
    (3, Ok(()), "abc"),
];

#[test]
fn all_is_written_where_there_is_room(rt: HostRuntime) -> Result<(), Fail> {
    for (room, wanted, taken) in &ROOMS {
        let mut sink = MemSink::new(rt.alloc(), *room)?;
        assert!(rt; write_all_of(&mut sink, b"abc") == *wanted, "{room}");
        assert!(rt; sink.taken.as_slice() == taken.as_bytes(), "{room}");
    }
    Ok(())
}

/// What a device answers.
#[derive(Clone, Copy)]
enum Step {
    Takes(usize),
    Fails(ErrorKind),
}

/// A writer that follows a script, and keeps what it took.
#[derive(Drop)]
struct Script<'a> {
    steps: &'a [Step],
    /// How the first flush fails, if it does.
    flush: Option<ErrorKind>,
    taken: &'a mut Vec<u8>,
}

impl Write for Script<'_> {
    fn write(&mut self, buffer: &[u8]) -> io::Result<usize> {
        match self.steps {
            [] => Err(io::Error::from(ErrorKind::BrokenPipe)),
            [step, rest @ ..] => {
                self.steps = rest;
                match *step {
                    Step::Takes(most) => {
                        let count = most.min(buffer.len());
                        self.taken.extend_from_slice(&buffer[..count])?;
                        Ok(count)
                    }
                    Step::Fails(kind) => Err(io::Error::from(kind)),
                }
            }
        }
    }

    fn flush(&mut self) -> io::Result<()> {
        match self.flush.take() {
            None => Ok(()),
            Some(kind) => Err(io::Error::from(kind)),
        }
    }
}

const BROKEN: Step = Step::Fails(ErrorKind::BrokenPipe);

const AGAIN: Step = Step::Fails(ErrorKind::Interrupted);

/// The steps of a device, how its first flush fails, how five bytes are written to it, and what it
/// took.
type Device = (
    [Step; 3],
    Option<ErrorKind>,
    Result<(), Wrote>,
    &'static str,
);

const DEVICES: [Device; 7] = [
    ([Step::Takes(9), BROKEN, BROKEN], None, Ok(()), "abcde"),
    (
        [AGAIN, Step::Takes(3), Step::Takes(2)],
        None,
        Ok(()),
        "abcde",
    ),
    (
        [Step::Takes(2), AGAIN, Step::Takes(3)],
        None,
        Ok(()),
        "abcde",
    ),
    (
        [Step::Takes(2), BROKEN, Step::Takes(3)],
        None,
        Err(Wrote { out: 2 }),
        "ab",
    ),
    (
        [Step::Takes(2), Step::Takes(0), Step::Takes(3)],
        None,
        Err(Wrote { out: 2 }),
        "ab",
    ),
    (
        [Step::Takes(2), Step::Takes(3), BROKEN],
        Some(ErrorKind::Interrupted),
        Ok(()),
        "abcde",
    ),
    (
        [Step::Takes(2), Step::Takes(3), BROKEN],
        Some(ErrorKind::BrokenPipe),
        Err(Wrote { out: 0 }),
        "ab",
    ),
];

/// Writes five bytes to a device that follows these steps, and gives what it took.
fn write_by(steps: &[Step], flush: Option<ErrorKind>, taken: &mut Vec<u8>) -> Result<(), Wrote> {
    let mut sink = StdSink::new(Script {
        steps,
        flush,
        taken,
    });
    write_all_of(&mut sink, b"abcde")
}

#[test]
fn sink_over_a_writer(rt: HostRuntime) {
    for (steps, flush, wanted, text) in &DEVICES {
        let mut taken = Vec::new(rt.alloc());
        let wrote = write_by(steps, *flush, &mut taken);
        assert!(rt;
            wrote == *wanted && taken.as_slice() == text.as_bytes(),
            "{text}"
        );
    }
}
