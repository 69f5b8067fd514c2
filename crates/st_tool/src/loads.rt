//! The loads of a command.

ghost use Rattle.std.specs.Prelude.{◌≡◌, IfOk};
ghost use Rattle.st_tool.specs.Loads.{counts_of, LoadsTo};

use st_num::{NoMemory, Row};
use st_outside::{Files, LoadFault};
use st_words::CommandWord;
use std::alloc::Global;

/// What came of the loads of a command.
#[derive(Drop)]
pub enum Loaded {
    /// The bytes of every file.
    Given(Row<Row<u8>>),
    /// The load of this number, counted from 0, failed, and no later one was made.
    Failed(usize),
    /// The file of this number is longer than the limit, and no later load was made.
    TooLong(usize),
}

/// Loads the files of these names, in order, up to the first that is not given.
pub fn load_all<F: Files>(
    alloc: Global,
    files: &mut F,
    names: &[CommandWord],
    limit: u32,
) -> Result<Loaded, NoMemory>
    ensures same { F.held files.new ≡ F.held files.old }
    ensures loads { IfOk result (λ loaded. LoadsTo (F.held files.old) limit names.now
        (counts_of (F.loads files.old) (F.faults files.old) (F.last files.old))
        loaded
        (counts_of (F.loads files.new) (F.faults files.new) (F.last files.new))) }
{
    let mut given = Row::new(alloc);
    for (number, name) in names.iter().enumerate() {
        match files.load(alloc, name.as_str(), limit) {
            Ok(bytes) => given.push(Row::from_vec(bytes))?,
            Err(LoadFault::Failed) => return Ok(Loaded::Failed(number)),
            Err(LoadFault::TooLong) => return Ok(Loaded::TooLong(number)),
            Err(LoadFault::Memory) => return Err(NoMemory),
        }
    }
    Ok(Loaded::Given(given))
}
