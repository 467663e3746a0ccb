/// Why a machine can't do an instruction.
#[derive(Clone, Copy, Debug, PartialEq, Eq)]
pub enum Cause {
    /// The pc is no multiple of 4, or in no segment that may be executed.
    Fetch,
    /// The bytes to read are in no segment that may be read.
    Load,
    /// The bytes to write are in no segment that may be written.
    Store,
    /// The word is no instruction.
    Illegal,
    /// The environment has no such call.
    Call,
}

/// The end of a run that can't go on, at an instruction that wasn't done.
#[derive(Clone, Copy, Debug, PartialEq, Eq)]
pub struct Trap {
    /// The address of the instruction.
    pub pc: u64,
    pub cause: Cause,
}
