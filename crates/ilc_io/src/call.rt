/// A call of a store of files, as a store notes it.
#[derive(Clone, Copy, Debug, PartialEq, Eq)]
pub enum Call {
    Size,
    /// From which byte on, and how many bytes.
    Read(u64, usize),
    Create,
    /// How many bytes.
    Append(usize),
}
