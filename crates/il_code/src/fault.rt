use thiserror::Error;

/// Why bytes are no method body (ECMA-335 II.25.4).
#[derive(Clone, Copy, Debug, PartialEq, Eq, Error)]
pub enum BodyFault {
    /// The header or a section is wrong, or bytes are missing or left over. The number of the bytes.
    #[error("9 BadHeader {0}")]
    BadHeader(u32),
    /// No instruction stands whole at this offset of the code.
    #[error("10 BadOpcode {0}")]
    BadOpcode(u32),
    /// The instruction at this offset leads to where none stands.
    #[error("11 BadTarget {0}")]
    BadTarget(u32),
    /// The exception handling clause with this number, which begins with 0, is wrong.
    #[error("12 BadClause {0}")]
    BadClause(u32),
    #[error("memory")]
    Memory,
}
