ghost use Rattle.std.specs.Prelude.{◌≡◌};
ghost use Rattle.rt_code.specs.Effects.{number_of};

/// A routine of the runtime. Its number is its place in this list, from 0 on.
#[derive(Clone, Copy, Debug, PartialEq, Eq)]
pub enum Routine {
    /// Where the file is entered: finds the root, and enters the first body.
    Start,
    /// Ends the program with the low byte of a word as its status.
    End,
    /// Writes the low byte of a word to the output.
    WriteByte,
    /// Takes a byte of the input, and gives it, or -1 at its end.
    ReadByte,
    /// The end at the bound of the stack.
    StackBound,
    /// The end at the bound of the heap.
    HeapBound,
    /// The end by an object that nothing catches.
    Unhandled,
}

impl Routine {
    /// Its number.
    pub fn number(self) -> u32
        ensures { result ≡ number_of self }
    {
        match self {
            Routine::Start => 0,
            Routine::End => 1,
            Routine::WriteByte => 2,
            Routine::ReadByte => 3,
            Routine::StackBound => 4,
            Routine::HeapBound => 5,
            Routine::Unhandled => 6,
        }
    }
}
