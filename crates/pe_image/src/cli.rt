ghost use Rattle.std.specs.Prelude.{◌≡◌, ◌+◌, ◌*◌, ◌≤◌, ◌<◌, ◌^◌, length, IfOk, OnOk, IfSome};
ghost use Rattle.pe_image.specs.Conditions.{Answers, number_at};
ghost use Rattle.pe_image.specs.Sections.{IsWhole, ArePartsWhole, sections_at};
ghost use Rattle.pe_image.specs.Pe.{cli_conditions, cli_at, metadata_at, somewhere as somewhere_in, sections};
ghost use Rattle.pe_image.specs.Pe.{section_count, sections_place, optional_place, directories_size, cli_place};
ghost use Rattle.pe_image.specs.Pe.{metadata_place, metadata_size};

use crate::bytes::word_at;
use crate::fault::PeFault;
use crate::headers::directory_count_place;
use crate::section::place_of;

/// The size of the CLI header.
const CLI_HEADER: usize = 72;

/// The sections of a file: how many, and the place of their headers.
#[derive(Clone, Copy)]
pub(crate) struct Sections {
    pub count: u16,
    pub place: usize,
}

/// Where the CLI header and the metadata lie.
#[derive(Clone, Copy)]
pub(crate) struct Located {
    /// The place of the CLI header.
    pub cli: usize,
    /// The place of the metadata, and its size.
    pub metadata: usize,
    pub size: usize,
}

/// The place in the file of an address that isn't 0, and how many bytes its section has from there on.
fn somewhere(file: &[u8], sections: Sections, rva: u32) -> Option<(usize, usize)>
    requires whole { IsWhole file.now sections.count sections.place }
    requires parts { ArePartsWhole file.now (sections_at file.now sections.count sections.place) }
    ensures value { result ≡ somewhere_in (sections_at file.now sections.count sections.place) rva }
    ensures within { IfSome result (λ found. found.0 + found.1 ≤ length file.now) }
{
    if rva == 0 {
        None
    } else {
        place_of(file, sections.count, sections.place, rva)
    }
}

/// Where the CLI header and the metadata lie (ECMA-335 II.25.3.3).
pub(crate) fn locate(file: &[u8], optional: usize, sections: Sections) -> Result<Located, PeFault>
    requires optional { optional ≡ optional_place file.now }
    requires headers { optional_place file.now + directories_size file.now ≤ length file.now }
    requires few { length file.now < 2 ^ 32 }
    requires count { sections.count ≡ section_count file.now }
    requires place { sections.place ≡ sections_place file.now }
    requires whole { IsWhole file.now sections.count sections.place }
    requires parts { ArePartsWhole file.now (sections_at file.now sections.count sections.place) }
    ensures answers { Answers (cli_conditions file.now) result }
    ensures cli { IfOk result (λ found. found.cli ≡ cli_place file.now) }
    ensures cli_whole { IfOk result (λ found. found.cli + 72 ≤ length file.now) }
    ensures metadata { IfOk result (λ found. found.metadata ≡ metadata_place file.now) }
    ensures size { IfOk result (λ found. found.size ≡ metadata_size file.now) }
    ensures within { IfOk result (λ found. found.metadata + found.size ≤ length file.now) }
{
    let directories = directory_count_place(file, optional);
    if word_at(file, directories) < 15 {
        return Err(PeFault::NoCliHeader);
    }
    let rva = word_at(file, directories + 116);
    let Some((cli, room)) = somewhere(file, sections, rva) else {
        return Err(PeFault::NoCliHeader);
    };
    if room < CLI_HEADER {
        return Err(PeFault::Cut(cli as u64));
    }
    if word_at(file, cli + 16) % 2 != 1 {
        return Err(PeFault::NoCliHeader);
    }
    let Some((metadata, room)) = somewhere(file, sections, word_at(file, cli + 8)) else {
        return Err(PeFault::NoCliHeader);
    };
    let size = word_at(file, cli + 12) as usize;
    if room < size {
        return Err(PeFault::Cut(metadata as u64));
    }
    Ok(Located {
        cli,
        metadata,
        size,
    })
}
