ghost use Rattle.std.specs.Prelude.{◌≡◌, ◌++◌, ◌+◌, ◌<◌, ◌≤◌, ◌^◌, OnOk};
ghost use Rattle.md_write.specs.Written.{dos_header, dos_message, coff_header, standard_fields, system_fields};
ghost use Rattle.md_write.specs.Written.{directories, section_header, headers as headers_of, up_to as up_to_in};
ghost use Rattle.md_write.specs.Written.{is_addressable as is_addressable_in};

use crate::put::{padding, put_halves, put_words, put_zeros};
use crate::section::{CLI_HEADER, SECTION_AT};
use num_core::{Bytes, Memory};

/// The header of a program for MS-DOS, with the place of the signature behind it, 0x80, and the program (ECMA-335
/// II.25.2.1).
const DOS_HEADER: [u8; 78] =
    *b"MZ\x90\0\x03\0\0\0\x04\0\0\0\xFF\xFF\0\0\xB8\0\0\0\0\0\0\0\x40\0\0\0\0\0\0\0\
    \0\0\0\0\0\0\0\0\0\0\0\0\0\0\0\0\0\0\0\0\0\0\0\0\0\0\0\0\x80\0\0\0\
    \x0E\x1F\xBA\x0E\0\xB4\x09\xCD\x21\xB8\x01\x4C\xCD\x21";

/// What the program prints, up to the place of the signature.
const DOS_MESSAGE: [u8; 50] = *b"This program cannot be run in DOS mode.\r\r\n$\0\0\0\0\0\0\0";

/// "PE" and two zero bytes.
const SIGNATURE: u64 = 0x4550;

/// The number of the machine i386.
const I386: u64 = 0x14C;

/// The flag of an executable.
const EXECUTABLE: u64 = 0x0002;

/// The flags of an executable that is a library.
const LIBRARY: u64 = 0x2002;

/// The size of the optional header.
const OPTIONAL_HEADER: u64 = 224;

/// The magic number of a file whose addresses have 32 bits.
const PE32: u64 = 0x10B;

/// The sizes of parts of the file are multiples of this.
pub(crate) const FILE_ALIGNMENT: u64 = 0x200;

/// The first number that is no address of 32 bits.
const ADDRESSES: u64 = 0x1_0000_0000;

/// The addresses of parts of the image are multiples of this.
const SECTION_ALIGNMENT: u64 = 0x2000;

/// The name of the section, in eight bytes.
const NAME: [u8; 8] = *b".text\0\0\0";

/// The flags of code that may be read and executed.
const CODE: u64 = 0x6000_0020;

/// The next multiple of a number.
fn up_to(multiple: u64, size: usize) -> u64
    requires some { 0 < multiple }
    requires small { multiple ≤ 0x2000 }
    requires fits { size < 2 ^ 63 }
    ensures value { result ≡ up_to_in multiple size }
    ensures near { result ≤ size + 0x2000 }
{
    size as u64 + padding(multiple as usize, size) as u64
}

/// Whether the addresses of a file whose section has so many bytes have 32 bits.
pub(crate) fn is_addressable(size: usize) -> bool
    requires { size < 2 ^ 63 }
    ensures { result ≡ is_addressable_in size }
{
    SECTION_AT + (FILE_ALIGNMENT + up_to(FILE_ALIGNMENT, size)) < ADDRESSES
}

/// Adds the signature and the COFF header (ECMA-335 II.25.2.2).
fn put_coff_header(bytes: &mut Bytes, entry: u32) -> Result<(), Memory>
    ensures { OnOk result (bytes.new ≡ bytes.old ++ coff_header entry) }
{
    let flags = if entry == 0 { LIBRARY } else { EXECUTABLE };
    put_words(bytes, &[SIGNATURE])?;
    put_halves(bytes, &[I386, 1])?;
    put_words(bytes, &[0, 0, 0])?;
    put_halves(bytes, &[OPTIONAL_HEADER, flags])?;
    Ok(())
}

/// Adds the standard fields of the optional header (ECMA-335 II.25.2.3.1).
fn put_standard_fields(bytes: &mut Bytes, size: usize) -> Result<(), Memory>
    requires { size < 2 ^ 63 }
    ensures { OnOk result (bytes.new ≡ bytes.old ++ standard_fields size) }
{
    put_halves(bytes, &[PE32, 6])?;
    put_words(
        bytes,
        &[up_to(FILE_ALIGNMENT, size), 0, 0, 0, SECTION_AT, 0],
    )?;
    Ok(())
}

/// Adds the fields of the optional header for the system (ECMA-335 II.25.2.3.2).
fn put_system_fields(bytes: &mut Bytes, size: usize) -> Result<(), Memory>
    requires { size < 2 ^ 63 }
    ensures { OnOk result (bytes.new ≡ bytes.old ++ system_fields size) }
{
    let image_size = SECTION_AT + up_to(SECTION_ALIGNMENT, size);
    put_words(bytes, &[0x40_0000, SECTION_ALIGNMENT, FILE_ALIGNMENT])?;
    put_halves(bytes, &[5, 0, 0, 0, 5, 0])?;
    put_words(bytes, &[0, image_size, FILE_ALIGNMENT, 0])?;
    put_halves(bytes, &[3, 0])?;
    put_words(bytes, &[0x10_0000, 0x1000, 0x10_0000, 0x1000, 0, 16])?;
    Ok(())
}

/// Adds the directories, of which the one of the CLI header alone names something (ECMA-335 II.25.2.3.3).
fn put_directories(bytes: &mut Bytes) -> Result<(), Memory>
    ensures { OnOk result (bytes.new ≡ bytes.old ++ directories) }
{
    put_zeros(bytes, 112)?;
    put_words(bytes, &[SECTION_AT, CLI_HEADER])?;
    put_zeros(bytes, 8)?;
    Ok(())
}

/// Adds the header of the section (ECMA-335 II.25.3).
fn put_section_header(bytes: &mut Bytes, size: usize) -> Result<(), Memory>
    requires { size < 2 ^ 63 }
    ensures { OnOk result (bytes.new ≡ bytes.old ++ section_header size) }
{
    let raw = up_to(FILE_ALIGNMENT, size);
    bytes.extend_from_slice(&NAME)?;
    put_words(
        bytes,
        &[size as u64, SECTION_AT, raw, FILE_ALIGNMENT, 0, 0, 0, CODE],
    )?;
    Ok(())
}

/// Adds the headers in front of a section of so many bytes.
pub(crate) fn put_headers(bytes: &mut Bytes, entry: u32, size: usize) -> Result<(), Memory>
    requires { size < 2 ^ 63 }
    ensures { OnOk result (bytes.new ≡ bytes.old ++ headers_of entry size) }
{
    bytes.extend_from_slice(&DOS_HEADER)?;
    bytes.extend_from_slice(&DOS_MESSAGE)?;
    put_coff_header(bytes, entry)?;
    put_standard_fields(bytes, size)?;
    put_system_fields(bytes, size)?;
    put_directories(bytes)?;
    put_section_header(bytes, size)?;
    put_zeros(bytes, 96)?;
    Ok(())
}
