ghost use Rattle.std.specs.Prelude.{◌≡◌, ◌+◌, ◌≤◌, ◌<◌, ◌^◌, ◌++◌, length, replicate, Ok, IfOk, OnOk};
ghost use Rattle.elf_file.specs.Elf.{half, word, xword, elf_header, load_header, text_size, headers_of, file_of};
ghost use Rattle.elf_file.specs.Elf.{machine_of, loaded, base};

use crate::header::{
    ELF_HEADER, EM_RISCV, ET_EXEC, EV_CURRENT, IDENTIFICATION, PROGRAM_HEADER, PT_LOAD,
};
use crate::layout::{BASE, ElfLayout, HEADERS_SIZE, TEXT_AT};
use byteorder::{ByteOrder, LittleEndian};
use num_core::{Bytes, Memory};
use std::alloc::Global;

/// p_flags of what may be read and executed.
const READ_EXECUTE: u32 = 5;

/// p_flags of what may be read and written.
const READ_WRITE: u32 = 6;

fn put_half(file: &mut Bytes, number: u16) -> Result<(), Memory>
    ensures { OnOk result (file.new ≡ file.old ++ half number) }
{
    let mut bytes = [0u8; 2];
    LittleEndian::write_u16(&mut bytes, number);
    file.extend_from_slice(&bytes)
}

fn put_word(file: &mut Bytes, number: u32) -> Result<(), Memory>
    ensures { OnOk result (file.new ≡ file.old ++ word number) }
{
    let mut bytes = [0u8; 4];
    LittleEndian::write_u32(&mut bytes, number);
    file.extend_from_slice(&bytes)
}

fn put_xword(file: &mut Bytes, number: u64) -> Result<(), Memory>
    ensures { OnOk result (file.new ≡ file.old ++ xword number) }
{
    let mut bytes = [0u8; 8];
    LittleEndian::write_u64(&mut bytes, number);
    file.extend_from_slice(&bytes)
}

/// Adds so many zeros, all at once.
pub(crate) fn put_zeros(bytes: &mut Bytes, count: u64) -> Result<(), Memory>
    ensures { OnOk result (bytes.new ≡ bytes.old ++ replicate count 0) }
{
    let Some(len) = bytes.len().checked_add(count as usize) else {
        return Err(Memory);
    };
    bytes.resize(len, 0)?;
    Ok(())
}

fn put_elf_header(file: &mut Bytes, entry: u64) -> Result<(), Memory>
    ensures { OnOk result (file.new ≡ file.old ++ elf_header entry) }
{
    file.extend_from_slice(&IDENTIFICATION)?;
    put_zeros(file, 9)?;
    put_half(file, ET_EXEC)?;
    put_half(file, EM_RISCV)?;
    put_word(file, EV_CURRENT)?;
    put_xword(file, entry)?;
    put_xword(file, ELF_HEADER as u64)?;
    put_xword(file, 0)?;
    put_word(file, 0)?;
    put_half(file, ELF_HEADER)?;
    put_half(file, PROGRAM_HEADER)?;
    put_half(file, 2)?;
    put_half(file, 0)?;
    put_half(file, 0)?;
    put_half(file, 0)?;
    Ok(())
}

fn put_load_header(
    file: &mut Bytes,
    flags: u32,
    offset: u64,
    file_size: u64,
    memory_size: u64,
) -> Result<(), Memory>
    requires { offset < 2 ^ 40 }
    ensures { OnOk result (file.new ≡ file.old ++ load_header flags offset file_size memory_size) }
{
    put_word(file, PT_LOAD)?;
    put_word(file, flags)?;
    put_xword(file, offset)?;
    put_xword(file, BASE + offset)?;
    put_xword(file, BASE + offset)?;
    put_xword(file, file_size)?;
    put_xword(file, memory_size)?;
    put_xword(file, 4096)?;
    Ok(())
}

/// The bytes of the file.
fn file(alloc: Global, layout: &ElfLayout) -> Result<Bytes, Memory>
    requires text_fits { text_size layout.now ≤ 536870912 }
    requires rest_fits { length layout.now.rest + layout.now.zeros ≤ 536870912 }
    ensures bytes { IfOk result (λ file. file ≡ file_of layout.now) }
    ensures entry { layout.now.entry < 2 ^ 64 }
{
    let text_size = HEADERS_SIZE + layout.text.len() as u64;
    let rest_at = text_size.div_ceil(4096) * 4096;
    let rest_size = layout.rest.len() as u64;
    let mut file = Bytes::new(alloc);
    put_elf_header(&mut file, layout.entry)?;
    put_load_header(&mut file, READ_EXECUTE, 0, text_size, text_size)?;
    put_load_header(
        &mut file,
        READ_WRITE,
        rest_at,
        rest_size,
        rest_size + layout.zeros,
    )?;
    file.extend_from_slice(layout.text.as_slice())?;
    put_zeros(&mut file, rest_at - text_size)?;
    file.extend_from_slice(layout.rest.as_slice())?;
    Ok(file)
}

/// The executable file of a layout, with two segments of at most 536,870,912 bytes each.
///
/// Linux loads it unchanged: each segment stands in the file at an offset that is congruent to its address modulo
/// the page of 4,096 bytes, and none may be both written and executed.
pub fn write_elf(alloc: Global, layout: &ElfLayout) -> Result<Bytes, Memory>
    requires text_fits { text_size layout.now ≤ 536870912 }
    requires rest_fits { length layout.now.rest + layout.now.zeros ≤ 536870912 }
    ensures bytes { IfOk result (λ file. file ≡ file_of layout.now) }
    // What was written loads.
    ensures loads { IfOk result (λ file. loaded file ≡ Ok (machine_of layout.now)) }
    // The headers take the addresses before the text's.
    ensures text_at { base + length (headers_of layout.now) ≡ TEXT_AT }
{
    file(alloc, layout)
}
