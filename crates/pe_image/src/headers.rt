ghost use Rattle.std.specs.Prelude.{◌≡◌, ◌+◌, ◌≤◌, ◌<◌, ◌^◌, length, OnOk, IfOk};
ghost use Rattle.pe_image.specs.Conditions.{Answers, number_at};
ghost use Rattle.pe_image.specs.Pe.{header_conditions, optional_place};
ghost use Rattle.pe_image.specs.Pe.{directory_count_place as directory_count_place_in, directories_size};

use crate::bytes::{fits, half_at, word_at};
use crate::fault::PeFault;

/// "MZ", with which a file begins.
const MZ: [u8; 2] = [0x4D, 0x5A];

/// "PE" and two zero bytes.
const PE: u32 = 0x4550;

/// The magic number of an optional header with addresses of 32 bits.
const PE32: u16 = 0x10B;

/// The magic number of an optional header with addresses of 64 bits.
const PE32_PLUS: u16 = 0x20B;

/// The headers of a file are whole and those of a PE file (ECMA-335 II.25.2). The place of the optional header.
pub(crate) fn check_headers(file: &[u8]) -> Result<usize, PeFault>
    requires { length file.now < 2 ^ 32 }
    ensures answers { Answers (header_conditions file.now) result }
    ensures place { IfOk result (λ place. place ≡ optional_place file.now) }
    ensures whole { OnOk result (optional_place file.now + directories_size file.now ≤ length file.now) }
{
    if file.len() < 64 || !file.starts_with(&MZ) {
        return Err(PeFault::NotPe);
    }
    let pe = word_at(file, 0x3C) as usize;
    if !fits(file, pe, 4) {
        return Err(PeFault::Cut(pe as u64));
    }
    if word_at(file, pe) != PE {
        return Err(PeFault::NotPe);
    }
    if !fits(file, pe + 4, 20) {
        return Err(PeFault::Cut(pe as u64 + 4));
    }
    let optional = pe + 24;
    if !fits(file, optional, 2) {
        return Err(PeFault::Cut(optional as u64));
    }
    let magic = half_at(file, optional);
    if magic != PE32 && magic != PE32_PLUS {
        return Err(PeFault::NotPe);
    }
    let fixed = if magic == PE32 { 96 } else { 112 };
    if !fits(file, optional, fixed) {
        return Err(PeFault::Cut(optional as u64));
    }
    let directories = word_at(file, optional + fixed - 4) as usize;
    if !fits(file, optional, fixed + 8 * directories) {
        return Err(PeFault::Cut(optional as u64));
    }
    Ok(optional)
}

/// The place of the number of directories.
pub(crate) fn directory_count_place(file: &[u8], optional: usize) -> usize
    requires place { optional ≡ optional_place file.now }
    requires whole { optional_place file.now + 96 ≤ length file.now }
    ensures { result ≡ directory_count_place_in file.now }
{
    if half_at(file, optional) == PE32 {
        optional + 92
    } else {
        optional + 108
    }
}
