//! Why something has no layout.
use thiserror::Error;

/// Why the fields of a type have no layout.
#[derive(Clone, Copy, Debug, PartialEq, Eq, Error)]
pub enum ObjectFault {
    /// The object would have more than 65,536 bytes.
    #[error("too large")]
    TooLarge,
    #[error("memory")]
    Memory,
}

/// Why a type or a frame has no layout.
#[derive(Clone, Copy, Debug, PartialEq, Eq, Error)]
pub enum LayoutFault {
    /// The frame would have so many bytes, which is more than 65,536.
    #[error("19 FrameLimit {0}")]
    FrameLimit(u64),
}
