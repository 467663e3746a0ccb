/// The front of e_ident: the magic number, 64 bits (ELFCLASS64), the lowest byte first (ELFDATA2LSB), version 1.
pub(crate) const IDENTIFICATION: [u8; 7] = [0x7F, b'E', b'L', b'F', 2, 1, 1];

/// e_type of an executable file.
pub(crate) const ET_EXEC: u16 = 2;

/// e_machine of RISC-V.
pub(crate) const EM_RISCV: u16 = 243;

/// e_version.
pub(crate) const EV_CURRENT: u32 = 1;

/// e_ehsize: the size of the ELF header.
pub(crate) const ELF_HEADER: u16 = 64;

/// e_phentsize: the size of a program header.
pub(crate) const PROGRAM_HEADER: u16 = 56;

/// p_type of a part to load.
pub(crate) const PT_LOAD: u32 = 1;

/// A program header: where a part of the file belongs in memory.
#[derive(Clone, Copy, Debug, PartialEq, Eq)]
pub(crate) struct ProgramHeader {
    /// p_type.
    pub(crate) kind: u32,
    /// p_flags: the sum of 1 to execute, 2 to write and 4 to read.
    pub(crate) flags: u32,
    /// p_offset: the place of the part in the file.
    pub(crate) offset: u64,
    /// p_vaddr: the address of the part in memory.
    pub(crate) address: u64,
    /// p_filesz: the size of the part in the file.
    pub(crate) file_size: u64,
    /// p_memsz: its size in memory, where zeros stand behind what the file has.
    pub(crate) memory_size: u64,
}
