use thiserror::Error;

/// Why a module is not written.
#[derive(Clone, Copy, Debug, PartialEq, Eq, Error)]
pub enum WriteFault {
    /// The table has 2^24 rows or more, which tokens cannot name (ECMA-335 III.1.9).
    #[error("8 TooManyRows {0}")]
    TooManyRows(u8),
    #[error("memory")]
    Memory,
}
