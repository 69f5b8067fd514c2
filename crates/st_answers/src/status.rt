//! How a command ends.

ghost use Rattle.std.specs.Prelude.{◌≡◌};
ghost use Rattle.st_answers.specs.Status.{number_of};

/// How a command ended; its number is the status of the program.
#[derive(Clone, Copy, Debug, PartialEq, Eq)]
pub enum Status {
    /// All was done; a run ended where nothing more is derivable.
    Done,
    /// The words ask for no command.
    Usage,
    /// The specification is refused.
    Specification,
    /// The term is refused.
    Term,
    /// A run used up its steps.
    Fuel,
    /// A search came to its depth.
    Depth,
    /// The relation can not be run.
    NotRunnable,
    /// The derivation is refused.
    Verification,
    /// A file was not loaded.
    Load,
    /// The output was not written.
    Write,
    /// There was no memory.
    Memory,
    /// A file is too long, or there are too many.
    TooLarge,
    /// What is asked for is not built yet.
    Unbuilt,
}

impl Status {
    /// The status of the program, from 0 to 12.
    pub fn number(self) -> u8
        ensures { result ≡ number_of self }
    {
        self as u8
    }
}
