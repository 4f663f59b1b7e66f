ghost use Rattle.std.specs.Prelude.{◌≡◌};
ghost use Rattle.mbqi_values.specs.Status.{code_of};

use crate::fault::Refusal;

/// How a call of the program ends.
#[derive(Clone, Copy, Debug, PartialEq, Eq)]
pub enum Status {
    /// The script has a model, which was written.
    Sat,
    /// The script has none, and a refutation was written.
    Unsat,
    /// Neither is known, and the cause was written.
    Unknown,
    /// The work is done, or the answer to the question is yes.
    Done,
    /// The answer to the question is no, with its reason written.
    No,
    /// The words are no command.
    Words,
    /// The script is refused.
    ScriptRefused(Refusal),
    /// A file can't be read.
    ReadFault,
    /// A file is longer than the limit.
    TooLong,
    /// The answer can't be written.
    WriteFault,
    /// Memory ran out.
    Memory,
    /// The script's weight, carried here, is past the limit.
    TooWide(u128),
    /// The model text is refused.
    ModelRefused(Refusal),
    /// The refutation text is refused.
    RefutationRefused(Refusal),
}

impl Status {
    /// The exit status of the program.
    pub fn code(&self) -> u8
        ensures { result ≡ code_of self.now }
    {
        match self {
            Status::Sat => 10,
            Status::Unsat => 20,
            Status::Unknown => 30,
            Status::Done => 0,
            Status::No => 1,
            Status::Words => 2,
            Status::ScriptRefused(_) => 3,
            Status::ReadFault | Status::TooLong => 4,
            Status::WriteFault => 5,
            Status::Memory => 6,
            Status::TooWide(_) => 7,
            Status::ModelRefused(_) | Status::RefutationRefused(_) => 8,
        }
    }
}
