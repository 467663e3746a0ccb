ghost use Rattle.std.specs.Prelude.{◌≡◌, ◌<◌, IfOk};
ghost use Rattle.il_text.specs.Lines.{parts_of, column_of};
ghost use Rattle.il_text.specs.Values.{number_below as number_below_in, bytes_in};
ghost use Rattle.il_text.specs.Reading.{Reads, read, is_word as is_word_of, keyword as keyword_of, ends as ends_in};
ghost use Rattle.il_text.specs.Reading.{bytes_behind as bytes_behind_in};
ghost use Rattle.il_text.specs.declared.fault.IlTextFault.TheVariants.{BadText as BadTextOf};

use crate::fault::IlTextFault;
use crate::line::Line;
use crate::values::{bytes, number_below};
use num_core::Bytes;
use std::alloc::Global;

/// The fault of a word that can't stand there, or is missing.
pub(crate) fn bad(line: &Line<'_>, index: usize) -> IlTextFault
    ensures { result ≡ BadTextOf line.now.number (column_of (parts_of line.now) index) }
{
    IlTextFault::BadText(line.number, line.column(index))
}

/// Whether a word is these bytes.
pub(crate) fn is_word(line: &Line<'_>, index: usize, bytes: &[u8]) -> bool
    ensures { result ≡ is_word_of bytes.now (parts_of line.now) index }
{
    match line.word(index) {
        Some(word) => word == bytes,
        None => false,
    }
}

/// The first word is these bytes.
pub(crate) fn keyword(line: &Line<'_>, bytes: &[u8]) -> Result<(), IlTextFault>
    ensures { Reads result (keyword_of bytes.now (parts_of line.now)) }
{
    if is_word(line, 0, bytes) {
        Ok(())
    } else {
        Err(bad(line, 0))
    }
}

/// There is no word of this number, nor one behind it.
pub(crate) fn ends(line: &Line<'_>, index: usize) -> Result<(), IlTextFault>
    ensures { Reads result (ends_in (parts_of line.now) index) }
{
    if index < line.words.len() {
        Err(bad(line, index))
    } else {
        Ok(())
    }
}

/// The number below a bound that a word is.
pub(crate) fn number(line: &Line<'_>, index: usize, bound: u64) -> Result<u64, IlTextFault>
    ensures value { Reads result (read (number_below_in bound) (parts_of line.now) index) }
    ensures small { IfOk result (λ number. number < bound) }
{
    let Some(word) = line.word(index) else {
        return Err(bad(line, index));
    };
    match number_below(bound, word) {
        Some(number) => Ok(number),
        None => Err(bad(line, index)),
    }
}

/// The bytes that a word is.
fn bytes_at(alloc: Global, line: &Line<'_>, index: usize) -> Result<Bytes, IlTextFault>
    ensures { Reads result (read bytes_in (parts_of line.now) index) }
{
    let Some(word) = line.word(index) else {
        return Err(bad(line, index));
    };
    match bytes(alloc, word) {
        Ok(Some(bytes)) => Ok(bytes),
        Ok(None) => Err(bad(line, index)),
        Err(_) => Err(IlTextFault::Memory),
    }
}

/// The bytes of a line that is a word and bytes.
pub(crate) fn bytes_behind(
    alloc: Global,
    line: &Line<'_>,
    word: &[u8],
) -> Result<Bytes, IlTextFault>
    ensures { Reads result (bytes_behind_in word.now (parts_of line.now)) }
{
    keyword(line, word)?;
    let bytes = bytes_at(alloc, line, 1)?;
    ends(line, 2)?;
    Ok(bytes)
}
