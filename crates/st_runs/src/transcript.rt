//! How runs end.

ghost use Rattle.std.specs.Prelude.{◌≡◌};
ghost use Rattle.st_runs.specs.RunTexts.{ending_word};
ghost use Rattle.st_runs.specs.Transcript.{status_of};

use st_answers::Status;

/// How a run ended.
#[derive(Clone, Copy)]
pub enum Ending {
    /// Nothing more is derivable.
    Stuck,
    /// The steps were used up, and more is derivable.
    Fuel,
}

impl Ending {
    /// The word with which the last line of the run begins.
    pub fn word(self) -> &'static str
        ensures { result.now ≡ ending_word self }
    {
        match self {
            Ending::Stuck => "stuck",
            Ending::Fuel => "fuel",
        }
    }

    /// The status with which the program ends.
    pub fn status(self) -> Status
        ensures { result ≡ status_of self }
    {
        match self {
            Ending::Stuck => Status::Done,
            Ending::Fuel => Status::Fuel,
        }
    }
}
