use num_core::Bytes;

/// The address of the first byte of the file.
pub(crate) const BASE: u64 = 0x10000;

/// The size of the headers of a file that is written: the ELF header and two program headers.
pub(crate) const HEADERS_SIZE: u64 = 176;

/// The address of the first byte of the text of a file that is written, which stands behind the headers.
pub const TEXT_AT: u64 = 0x100B0;

/// What an executable file is made of.
///
/// The file begins with 176 bytes of headers. The text follows, and both are the first segment, at address
/// 0x10000, which may be read and executed. The rest begins at the next multiple of 4,096, in the file and in
/// memory, and is followed by zeros in memory: the second segment, which may be read and written.
#[derive(Debug, Drop)]
pub struct ElfLayout {
    pub text: Bytes,
    pub rest: Bytes,
    /// The number of zeros behind the rest.
    pub zeros: u64,
    /// The address of the first instruction.
    pub entry: u64,
}
