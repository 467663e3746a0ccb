//! What texts are made of.
ghost use Rattle.std.specs.Prelude.{◌≡◌, ◌==◌, ◌++◌, if◌then◌else◌, codes, length, OnOk};
ghost use Rattle.std.specs.Fmt.{decimal};
ghost use Rattle.ty_load.specs.Texts.{with_row_if};

use itoa::Buffer;
use num_core::{Bytes, Memory};

/// Adds bytes at the end of a text.
pub(crate) fn push(text: &mut Bytes, bytes: &[u8]) -> Result<(), Memory>
    ensures { OnOk result (text.new ≡ text.old ++ bytes.now) }
{
    text.extend_from_slice(bytes)
}

/// Adds a number.
pub(crate) fn push_number(text: &mut Bytes, number: u32) -> Result<(), Memory>
    ensures { OnOk result (text.new ≡ text.old ++ decimal number) }
{
    let mut buffer = Buffer::new();
    text.extend_from_slice(buffer.format(number).as_bytes())
}

/// Adds a plus behind what stands in a text from a place on, if anything does.
pub(crate) fn push_plus(text: &mut Bytes, start: usize) -> Result<(), Memory>
    ensures { OnOk result (text.new ≡ (if length text.old == start then text.old else text.old ++ codes "+")) }
{
    if text.len() == start {
        Ok(())
    } else {
        push(text, b"+")
    }
}

/// Adds a comma, but in front of the first of several texts.
pub(crate) fn push_comma(text: &mut Bytes, at: usize) -> Result<(), Memory>
    ensures { OnOk result (text.new ≡ (if at == 0 then text.old else text.old ++ codes ",")) }
{
    if at == 0 { Ok(()) } else { push(text, b",") }
}

/// Adds a row behind a text that another has too.
pub(crate) fn push_row_if(text: &mut Bytes, again: bool, row: u32) -> Result<(), Memory>
    ensures { OnOk result (text.new ≡ with_row_if again row text.old) }
{
    if again {
        push(text, b"#")?;
        push_number(text, row)
    } else {
        Ok(())
    }
}
