use thiserror::Error;

/// Why a file is no image.
#[derive(Clone, Copy, Debug, PartialEq, Eq, Error)]
pub enum PeFault {
    /// The file doesn't begin as a PE file does.
    #[error("1 NotPe")]
    NotPe,
    /// It holds no metadata, or code that isn't CIL.
    #[error("2 NoCliHeader")]
    NoCliHeader,
    /// The header or the range of bytes that begins here isn't whole.
    #[error("3 Cut {0}")]
    Cut(u64),
}
