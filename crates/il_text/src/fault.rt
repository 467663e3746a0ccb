use thiserror::Error;

/// Why a text is no module's.
#[derive(Clone, Copy, Debug, PartialEq, Eq, Error)]
pub enum IlTextFault {
    /// The line, counted from 1, that can't go on with what stands before it, and the column of its first word that
    /// can't stand there, likewise.
    #[error("31 BadText {0} {1}")]
    BadText(usize, usize),
    #[error("memory")]
    Memory,
}
