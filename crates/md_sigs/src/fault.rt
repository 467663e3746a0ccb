use thiserror::Error;

/// Why a blob is no signature of the profile.
#[derive(Clone, Copy, Debug, PartialEq, Eq, Error)]
pub enum SigFault {
    /// The byte at this offset is the first with which no signature can begin; or the blob ends here, too early.
    #[error("6 BadSig {0}")]
    BadSig(u32),
    /// The first such byte stands for an element type that no type here has, where a type is wanted; or for BYREF (16)
    /// where the result of a method begins.
    #[error("7 SigOutside {0}")]
    SigOutside(u8),
    #[error("memory")]
    Memory,
}
