ghost use Rattle.std.specs.Prelude.{◌≡◌, ◌+◌, ◌≤◌, ◌&&◌, ◌^◌, length, nat_le, [], Ok, IfOk, OnOk, IsTrue, All};
ghost use Rattle.std.specs.Prelude.{AllPairs};
ghost use Rattle.std.specs.List.{list_any};
ghost use Rattle.elf_file.specs.Elf.{Gives, has_elf_header as has_elf_header_in, number_at};
ghost use Rattle.elf_file.specs.Elf.{program_header as program_header_in, segment_of, overlaps as overlaps_by};
ghost use Rattle.elf_file.specs.Elf.{with_header as with_header_in, with_headers as with_headers_in};
ghost use Rattle.elf_file.specs.Elf.{loaded};
ghost use Rattle.rv_step.specs.Machine.{MachineState};
ghost use Rattle.rv_step.specs.Segments.{AreDisjoint, DoesNotWrap, AreSegments};

use crate::fault::ElfFault;
use crate::header::{
    ELF_HEADER, EM_RISCV, ET_EXEC, EV_CURRENT, IDENTIFICATION, PROGRAM_HEADER, PT_LOAD,
    ProgramHeader,
};
use crate::write::put_zeros;
use byteorder::{ByteOrder, LittleEndian};
use num_core::{Bytes, List, Memory};
use rv_step::{Machine, Segment};
use std::alloc::Global;

/// The most program headers that a file may have.
const MOST_HEADERS: u16 = 16;

/// The greatest size of a segment.
const MOST_MEMORY: u64 = 536_870_912;

fn half_at(file: &[u8], at: usize) -> u16
    requires { at + 2 ≤ length file.now }
    ensures { result ≡ number_at file.now 2 at }
{
    LittleEndian::read_u16(&file[at..])
}

fn word_at(file: &[u8], at: usize) -> u32
    requires { at + 4 ≤ length file.now }
    ensures { result ≡ number_at file.now 4 at }
{
    LittleEndian::read_u32(&file[at..])
}

fn xword_at(file: &[u8], at: usize) -> u64
    requires { at + 8 ≤ length file.now }
    ensures { result ≡ number_at file.now 8 at }
{
    LittleEndian::read_u64(&file[at..])
}

fn has_elf_header(file: &[u8]) -> bool
    ensures value { result ≡ has_elf_header_in file.now }
    ensures whole { IsTrue result → 64 ≤ length file.now }
{
    file.len() >= ELF_HEADER as usize
        && file.starts_with(&IDENTIFICATION)
        && half_at(file, 16) == ET_EXEC
        && half_at(file, 18) == EM_RISCV
        && word_at(file, 20) == EV_CURRENT
        && half_at(file, 52) == ELF_HEADER
        && half_at(file, 54) == PROGRAM_HEADER
        && half_at(file, 56) <= MOST_HEADERS
}

fn program_header(file: &[u8], place: usize) -> ProgramHeader
    requires { place + 56 ≤ length file.now }
    ensures { result ≡ program_header_in file.now place }
{
    ProgramHeader {
        kind: word_at(file, place),
        flags: word_at(file, place + 4),
        offset: xword_at(file, place + 8),
        address: xword_at(file, place + 16),
        file_size: xword_at(file, place + 32),
        memory_size: xword_at(file, place + 40),
    }
}

/// Whether one of `size` addresses from `address` on is that of a byte of the segment.
fn overlaps(address: u64, size: u64, segment: &Segment) -> bool
    requires { address + size ≤ 2 ^ 64 }
    ensures { result ≡ overlaps_by address size segment.now }
{
    let length = segment.bytes.len() as u64;
    if address <= segment.at {
        segment.at - address < size && length > 0
    } else {
        address - segment.at < length && size > 0
    }
}

/// Whether the part of the file and its memory have the sizes and addresses that they may have.
fn is_within(header: ProgramHeader, file_size: u64) -> bool
    ensures { result ≡ (nat_le (header.offset + header.file_size) file_size && nat_le header.file_size
        header.memory_size
        && nat_le header.memory_size 536870912 && nat_le (header.address + header.memory_size) (2 ^ 64)) }
{
    header.offset <= file_size
        && header.file_size <= file_size - header.offset
        && header.file_size <= header.memory_size
        && header.memory_size <= MOST_MEMORY
        && (header.memory_size == 0 || header.memory_size - 1 <= u64::MAX - header.address)
}

/// Whether one of these addresses is that of a byte of a segment.
fn overlaps_any(address: u64, size: u64, segments: &[Segment]) -> bool
    requires { address + size ≤ 2 ^ 64 }
    ensures { result ≡ list_any (overlaps_by address size) segments.now }
{
    segments
        .iter()
        .any(|segment| overlaps(address, size, segment))
}

/// The memory that a header asks for.
fn segment(alloc: Global, file: &[u8], header: ProgramHeader) -> Result<Segment, Memory>
    requires in_file { header.offset + header.file_size ≤ length file.now }
    requires in_memory { header.file_size ≤ header.memory_size }
    ensures { IfOk result (λ segment. segment ≡ segment_of file.now header) }
{
    let start = header.offset as usize;
    let end = start + header.file_size as usize;
    let mut bytes = Bytes::from_slice(alloc, &file[start..end])?;
    put_zeros(&mut bytes, header.memory_size - header.file_size)?;
    Ok(Segment {
        at: header.address,
        bytes,
        read: header.flags / 4 % 2 == 1,
        write: header.flags / 2 % 2 == 1,
        execute: header.flags % 2 == 1,
    })
}

/// The segments with that of the header at a place behind them.
fn with_header(
    alloc: Global,
    file: &[u8],
    place: u64,
    mut earlier: List<Segment>,
) -> Result<List<Segment>, ElfFault>
    ensures exact { Gives result (with_header_in file.now place earlier) }
    ensures whole { OnOk result (place + 56 ≤ length file.now) }
{
    let size = file.len() as u64;
    if size < PROGRAM_HEADER as u64 || size - (PROGRAM_HEADER as u64) < place {
        return Err(ElfFault::BadElf(place));
    }
    let header = program_header(file, place as usize);
    if header.kind != PT_LOAD {
        return Ok(earlier);
    }
    if !is_within(header, size)
        || overlaps_any(header.address, header.memory_size, earlier.as_slice())
    {
        return Err(ElfFault::BadElf(place));
    }
    let segment = segment(alloc, file, header).map_err(|_| ElfFault::Memory)?;
    earlier.push(segment).map_err(|_| ElfFault::Memory)?;
    Ok(earlier)
}

/// The segments of the program headers from a place on.
fn segments(alloc: Global, file: &[u8], count: u16, start: u64) -> Result<List<Segment>, ElfFault>
    ensures exact { Gives result (with_headers_in file.now count start []) }
    ensures disjoint { IfOk result (λ segments. AllPairs AreDisjoint segments) }
    ensures within { IfOk result (λ segments. All DoesNotWrap segments) }
{
    let mut segments = List::new(alloc);
    let mut place = start;
    for _ in 0..count {
        segments = with_header(alloc, file, place, segments)?;
        place += PROGRAM_HEADER as u64;
    }
    Ok(segments)
}

/// The machine that an executable file loads, at its entry and with all registers 0.
///
/// A file is refused at 0 if it isn't an ELF64 file of RISC-V, and at the place of a program header that is cut,
/// has a part past the end of the file, more bytes in the file than in memory, more than 536,870,912 bytes in
/// memory, addresses that wrap, or an address of an earlier header. Sections and alignments aren't looked at.
pub fn load_elf(alloc: Global, bytes: &[u8]) -> Result<Machine, ElfFault>
    ensures exact { Gives result (loaded bytes.now) }
    // No address of a machine that loads is in two segments, and no segment passes the last address.
    ensures segments { (machine : MachineState) → loaded bytes.now ≡ Ok machine → AreSegments machine.segments }
{
    if !has_elf_header(bytes) {
        return Err(ElfFault::BadElf(0));
    }
    let entry = xword_at(bytes, 24);
    let segments = segments(alloc, bytes, half_at(bytes, 56), xword_at(bytes, 32))?;
    Machine::new(alloc, segments, entry).map_err(|_| ElfFault::Memory)
}
