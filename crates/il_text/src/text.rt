ghost use Rattle.std.specs.Prelude.{◌≡◌, ◌+◌, ◌<◌, ◌^◌, ◌==◌, length, take, drop, IfSome};
ghost use Rattle.std.specs.List.{position};
ghost use Rattle.il_text.specs.Lines.{parts_of};
ghost use Rattle.il_text.specs.Reading.{Reads, with_entry as with_entry_of, with_user as with_user_of};
ghost use Rattle.il_text.specs.Reading.{awaits_body as awaits_body_of, behind_rows as behind_rows_of};
ghost use Rattle.il_text.specs.Reading.{with_words as with_words_of, with_line as with_line_of, line_of, nothing_read};
ghost use Rattle.il_text.specs.Reading.{in_tables as in_tables_of, lines_read, if_whole as if_whole_of};
ghost use Rattle.il_text.specs.Reading.{at_end as at_end_of, read_text as read_text_of};

use crate::code::{in_body, with_header};
use crate::draft::{Draft, DraftRow};
use crate::fault::IlTextFault;
use crate::line::{Line, words};
use crate::reading::{bytes_behind, ends, is_word, keyword, number};
use crate::row::with_row;
use num_core::List;
use std::alloc::Global;

/// The byte that ends a line.
const NEWLINE: u8 = 10;

/// The number of the table of methods.
const METHOD_DEF: u8 = 0x06;

/// Nothing.
fn nothing(alloc: Global) -> Draft
    ensures { result ≡ nothing_read }
{
    Draft {
        entry: None,
        user: None,
        rows: List::new(alloc),
        row: None,
        body: None,
    }
}

/// Reads the line of the entry token.
fn with_entry(draft: Draft, line: &Line<'_>) -> Result<Draft, IlTextFault>
    ensures { Reads result (with_entry_of draft (parts_of line.now)) }
{
    keyword(line, b".entry")?;
    let entry = number(line, 1, 1 << 32)?;
    ends(line, 2)?;
    let mut draft = draft;
    draft.entry = Some(entry as u32);
    Ok(draft)
}

/// Reads the line of the heap of user strings.
fn with_user(alloc: Global, draft: Draft, line: &Line<'_>) -> Result<Draft, IlTextFault>
    ensures { Reads result (with_user_of draft (parts_of line.now)) }
{
    let user = bytes_behind(alloc, line, b".user")?;
    let mut draft = draft;
    draft.user = Some(user);
    Ok(draft)
}

/// Whether a body may stand behind the row that was read last: that of a method that has none.
fn awaits_body(last: &Option<DraftRow>) -> bool
    ensures { result ≡ awaits_body_of last.now }
{
    match last {
        Some(row) => row.table == METHOD_DEF && row.body.is_none(),
        None => false,
    }
}

/// Reads a line of a row, or that of a body's header.
fn behind_rows(alloc: Global, draft: Draft, line: &Line<'_>) -> Result<Draft, IlTextFault>
    ensures { Reads result (behind_rows_of draft (parts_of line.now)) }
{
    if awaits_body(&draft.row) && is_word(line, 0, b".body") {
        with_header(alloc, draft, line)
    } else {
        with_row(alloc, draft, line)
    }
}

/// Reads a line of the tables.
fn in_tables(alloc: Global, draft: Draft, line: &Line<'_>) -> Result<Draft, IlTextFault>
    ensures { Reads result (in_tables_of draft draft.body (parts_of line.now)) }
{
    let Draft {
        entry,
        user,
        rows,
        row,
        body,
    } = draft;
    match body {
        None => behind_rows(
            alloc,
            Draft {
                entry,
                user,
                rows,
                row,
                body: None,
            },
            line,
        ),
        Some(body) => in_body(
            alloc,
            Draft {
                entry,
                user,
                rows,
                row,
                body: None,
            },
            body,
            line,
        ),
    }
}

/// Reads a line that has words.
fn with_words(alloc: Global, draft: Draft, line: &Line<'_>) -> Result<Draft, IlTextFault>
    ensures { Reads result (with_words_of draft (parts_of line.now)) }
{
    if draft.entry.is_none() {
        with_entry(draft, line)
    } else if draft.user.is_none() {
        with_user(alloc, draft, line)
    } else {
        in_tables(alloc, draft, line)
    }
}

/// Reads a line of which the words are known.
fn with_line(alloc: Global, draft: Draft, line: &Line<'_>) -> Result<Draft, IlTextFault>
    ensures { Reads result (with_line_of draft (parts_of line.now)) }
{
    if line.words.is_empty() {
        Ok(draft)
    } else {
        with_words(alloc, draft, line)
    }
}

/// Reads a line, which has less than 4 GiB.
fn read_line(alloc: Global, draft: Draft, number: usize, bytes: &[u8]) -> Result<Draft, IlTextFault>
    ensures { Reads result (with_line_of draft (line_of number bytes.now)) }
{
    if bytes.len() > u32::MAX as usize {
        return Err(IlTextFault::Memory);
    }
    match words(alloc, bytes) {
        Ok(words) => {
            let line = Line {
                number,
                bytes,
                words: words.as_slice(),
            };
            with_line(alloc, draft, &line)
        }
        Err(_) => Err(IlTextFault::Memory),
    }
}

/// How many bytes stand in front of the first byte 10, if there is one.
fn line_end(text: &[u8]) -> Option<usize>
    ensures at { result ≡ position (λ byte. byte == 10) text.now }
    ensures inside { IfSome result (λ at. at < length text.now) }
{
    text.iter().position(|byte| *byte == NEWLINE)
}

/// The line that ends in front of a byte 10, and what stands behind that.
fn parted(text: &[u8], end: usize) -> (&[u8], &[u8])
    requires { end < length text.now }
    ensures front { result.0.now ≡ take end text.now }
    ensures back { result.1.now ≡ drop (end + 1) text.now }
{
    (&text[..end], &text[end + 1..])
}

/// What is left behind the last byte 10, where the line of a number begins, is nothing.
fn at_end(alloc: Global, draft: Draft, number: usize, rest: &[u8]) -> Result<Draft, IlTextFault>
    ensures { Reads result (at_end_of draft number rest.now) }
{
    if rest.is_empty() {
        if_whole(draft, number)
    } else {
        let _ = read_line(alloc, draft, number, rest)?;
        Err(IlTextFault::BadText(number, rest.len() + 1))
    }
}

/// The draft, if no line is missing, of which the next has a number.
fn if_whole(draft: Draft, number: usize) -> Result<Draft, IlTextFault>
    ensures { Reads result (if_whole_of (lines_read draft number)) }
{
    if draft.entry.is_some() && draft.user.is_some() && draft.body.is_none() {
        Ok(draft)
    } else {
        Err(IlTextFault::BadText(number, 1))
    }
}

/// The lines of a text.
pub(crate) fn read_text(alloc: Global, text: &[u8]) -> Result<Draft, IlTextFault>
    ensures { Reads result (read_text_of text.now) }
{
    let mut draft = nothing(alloc);
    let mut number = 1;
    let mut rest = text;
    while let Some(end) = line_end(rest) {
        let (line, behind) = parted(rest, end);
        match read_line(alloc, draft, number, line) {
            Ok(next) => draft = next,
            Err(fault) => return Err(fault),
        }
        rest = behind;
        number += 1;
    }
    at_end(alloc, draft, number, rest)
}
