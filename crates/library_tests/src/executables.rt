use elf_file::{ElfFault, ElfLayout, TEXT_AT, load_elf, write_elf};
use num_core::{Bytes, Memory};
use std::alloc::Global;
use std::test::Fail;

/// lui a0, 0; addiw a0, a0, 42; addi a7, x0, 93; ecall
const TEXT: [u8; 16] = [
    0x37, 0x05, 0x00, 0x00, 0x1B, 0x05, 0xA5, 0x02, 0x93, 0x08, 0xD0, 0x05, 0x73, 0x00, 0x00, 0x00,
];

/// The headers of a file with that text, 3 bytes behind it and 5 zeros, packed by hand from the gABI's lists of fields.
const HEADERS: [u8; 176] = [
    0x7F, 0x45, 0x4C, 0x46, 0x02, 0x01, 0x01, 0x00, 0x00, 0x00, 0x00, 0x00, 0x00, 0x00, 0x00, 0x00,
    0x02, 0x00, 0xF3, 0x00, 0x01, 0x00, 0x00, 0x00, 0xB0, 0x00, 0x01, 0x00, 0x00, 0x00, 0x00, 0x00,
    0x40, 0x00, 0x00, 0x00, 0x00, 0x00, 0x00, 0x00, 0x00, 0x00, 0x00, 0x00, 0x00, 0x00, 0x00, 0x00,
    0x00, 0x00, 0x00, 0x00, 0x40, 0x00, 0x38, 0x00, 0x02, 0x00, 0x00, 0x00, 0x00, 0x00, 0x00, 0x00,
    0x01, 0x00, 0x00, 0x00, 0x05, 0x00, 0x00, 0x00, 0x00, 0x00, 0x00, 0x00, 0x00, 0x00, 0x00, 0x00,
    0x00, 0x00, 0x01, 0x00, 0x00, 0x00, 0x00, 0x00, 0x00, 0x00, 0x01, 0x00, 0x00, 0x00, 0x00, 0x00,
    0xC0, 0x00, 0x00, 0x00, 0x00, 0x00, 0x00, 0x00, 0xC0, 0x00, 0x00, 0x00, 0x00, 0x00, 0x00, 0x00,
    0x00, 0x10, 0x00, 0x00, 0x00, 0x00, 0x00, 0x00, 0x01, 0x00, 0x00, 0x00, 0x06, 0x00, 0x00, 0x00,
    0x00, 0x10, 0x00, 0x00, 0x00, 0x00, 0x00, 0x00, 0x00, 0x10, 0x01, 0x00, 0x00, 0x00, 0x00, 0x00,
    0x00, 0x10, 0x01, 0x00, 0x00, 0x00, 0x00, 0x00, 0x03, 0x00, 0x00, 0x00, 0x00, 0x00, 0x00, 0x00,
    0x08, 0x00, 0x00, 0x00, 0x00, 0x00, 0x00, 0x00, 0x00, 0x10, 0x00, 0x00, 0x00, 0x00, 0x00, 0x00,
];

/// What is put into the file from a place on, in hexadecimal digits, and the place at which it is refused then, if it
/// is: e_ident, e_type, e_machine, e_version, e_ehsize, e_phentsize and e_phnum; e_phoff, by which the first header
/// lies past the end of any file, or only the second past that of this one; p_offset; p_filesz past the file, p_memsz
/// below p_filesz, and of one byte more than 512 MiB; p_vaddr of the last addresses, one more, those behind the first
/// segment, and one less. A header that isn't of type PT_LOAD is only tested for being cut.
static ROWS: &str = "\
0  = -
0 7E = 0
4 01 = 0
5 02 = 0
6 00 = 0
16 03 = 0
18 3E = 0
20 02 = 0
52 3F = 0
54 39 = 0
56 11 = 0
32 F0FFFFFFFFFFFFFF = 18446744073709551600
32 C80F = 4096
72 F0FFFFFFFFFFFFFF = 64
128 0110 = 120
96 04100000000000000410 = 64
104 BF = 64
104 01000020 = 64
136 F8FFFFFFFFFFFFFF = -
136 F9FFFFFFFFFFFFFF = 120
136 C00001 = -
136 BF0001 = 120
120 0400000006000000F0FF = -
56 00 = -
56 01 = -
";

fn written(alloc: Global) -> Result<Bytes, Memory> {
    let layout = ElfLayout {
        text: Bytes::from_slice(alloc, &TEXT)?,
        rest: Bytes::from_slice(alloc, &[1, 2, 3])?,
        zeros: 5,
        entry: TEXT_AT,
    };
    write_elf(alloc, &layout)
}

/// The place at which a file is refused.
fn refused_at(alloc: Global, file: &[u8]) -> Result<Option<u64>, Memory> {
    match load_elf(alloc, file) {
        Ok(_) => Ok(None),
        Err(ElfFault::BadElf(place)) => Ok(Some(place)),
        Err(ElfFault::Memory) => Err(Memory),
    }
}

/// Where the file with these bytes from a place on is refused.
fn changed(alloc: Global, place: usize, bytes: &[u8]) -> Result<Option<u64>, Memory> {
    let mut file = written(alloc)?;
    if place < 4000 && bytes.len() < 16 && file.len() > 4016 {
        file.overwrite(place, bytes);
    }
    refused_at(alloc, file.as_slice())
}

#[test]
fn writes(rt: HostRuntime) -> Result<(), Fail> {
    let file = written(rt.alloc())?;
    let file = file.as_slice();
    assert_eq!(rt; file.len(), 4099);
    assert!(rt; file.starts_with(&HEADERS));
    assert!(rt; file.get(176..192) == Some(TEXT.as_slice()));
    assert!(rt; file.ends_with(&[0, 1, 2, 3]));
    Ok(())
}

#[test]
fn loads_and_refuses(rt: HostRuntime) -> Result<(), Fail> {
    for row in ROWS.lines() {
        let (place, rest) = row.split_once(' ').ok_or("no place")?;
        let (digits, refused) = rest.split_once(" = ").ok_or("no answer")?;
        let bytes = hex::decode(rt.alloc(), digits)?;
        let found = changed(rt.alloc(), place.parse::<usize>()?, bytes.as_slice())?;
        assert!(rt; found == refused.parse::<u64>().ok(), "{row}");
    }
    let file = written(rt.alloc())?;
    let cut = file.as_slice().get(..63).ok_or("a file is longer")?;
    assert_eq!(rt; refused_at(rt.alloc(), cut)?, Some(0));
    Ok(())
}
