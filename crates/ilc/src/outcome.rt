ghost use Rattle.std.specs.Prelude.{◌≡◌};
ghost use Rattle.ilc.specs.Line.{status_of};

use crate::refusal::Refusal;
use num_core::Text;

/// How a command came out.
#[derive(Debug, Drop)]
pub enum Outcome {
    /// The words are no command, and this is the index of the first that is wrong or missing.
    Usage { index: usize },
    /// There is no file of this name.
    NoFile { name: Text },
    /// A file has more bytes than are read.
    TooLong { size: u64 },
    /// The input is refused.
    Refused(Refusal),
    /// A call of the store or of the input failed.
    ReadFault,
    /// A call of the store or of a sink failed.
    WriteFault,
    /// The program has ended.
    Ended { status: u8 },
    /// The file that was to be made was written, or the text was printed.
    Written,
    Memory,
}

impl Outcome {
    /// The status that the process ends with.
    pub fn status(&self) -> u8
        ensures { result ≡ status_of self.now }
    {
        match self {
            Outcome::Written => 0,
            Outcome::Ended { status } => *status,
            Outcome::Usage { .. } => 64,
            Outcome::NoFile { .. } => 66,
            Outcome::TooLong { .. } => 71,
            Outcome::Refused(refusal) => refusal.fault.row().status,
            Outcome::WriteFault => 73,
            Outcome::ReadFault => 74,
            Outcome::Memory => 75,
        }
    }
}
