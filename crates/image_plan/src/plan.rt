use elf_file::ElfLayout;
use num_core::List;
use ty_terms::{MethodName, Part};

/// Where the code of a CIL instruction begins.
#[derive(Debug, Drop)]
pub struct MapRow {
    /// The address of its first instruction.
    pub address: u64,
    pub method: MethodName,
    /// The offset of the CIL instruction in the method's code.
    pub offset: u32,
}

/// An image whose pieces have their places.
#[derive(Debug, Drop)]
pub struct Plan {
    /// What the executable file is made of.
    pub layout: ElfLayout,
    /// The parts of the file, in order.
    pub parts: List<Part>,
    pub map: List<MapRow>,
}
