use thiserror::Error;

/// Why a file doesn't load.
#[derive(Clone, Copy, Debug, PartialEq, Eq, Error)]
pub enum ElfFault {
    /// The header at this place of the file is cut, or asks for what can't be loaded: the ELF header stands at 0,
    /// a program header from e_phoff on.
    #[error("30 BadElf {0}")]
    BadElf(u64),
    #[error("memory")]
    Memory,
}
