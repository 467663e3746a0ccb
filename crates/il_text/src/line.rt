ghost use Rattle.std.specs.Prelude.{◌≡◌, ◌+◌, ◌^◌, ◌<◌, ◌++◌, ◌∷◌, [], IfOk, IfSome, IfNone, OnOk, length, nat_lt};
ghost use Rattle.std.specs.Prelude.{slice_get};
ghost use Rattle.std.specs.List.{list_all};
ghost use Rattle.std.specs.Option.{option_map};
ghost use Rattle.il_text.specs.Lines.{begun as begun_in, comment as comment_in, words_from, words_of, word_at};
ghost use Rattle.il_text.specs.Lines.{begins_with_slash, parts_of, column_of};

use crate::body::split;
use num_core::{List, Memory};
use std::alloc::Global;

/// A word of a line: where it begins, and the place behind it.
#[derive(Clone, Copy, Debug, PartialEq, Eq)]
pub struct Span {
    pub from: u32,
    pub to: u32,
}

/// A line of a text: its number, its bytes without the byte 10 behind them, and its words.
#[derive(Clone, Copy)]
pub(crate) struct Line<'a> {
    pub(crate) number: usize,
    pub(crate) bytes: &'a [u8],
    pub(crate) words: &'a [Span],
}

/// Adds a word.
fn push(words: &mut List<Span>, word: Span) -> Result<(), Memory>
    ensures { OnOk result (words.new ≡ words.old ++ word ∷ []) }
{
    match words.push(word) {
        Ok(()) => Ok(()),
        Err(_) => Err(Memory),
    }
}

/// Adds what was read of a word, if anything was.
fn begun(words: &mut List<Span>, from: u32, at: u32) -> Result<(), Memory>
    ensures { OnOk result (words.new ≡ words.old ++ begun_in from at) }
{
    if from < at {
        push(words, Span { from, to: at })
    } else {
        Ok(())
    }
}

/// Whether bytes are ASCII.
fn are_ascii(bytes: &[u8]) -> bool
    ensures { result ≡ list_all (λ byte. nat_lt byte 128) bytes.now }
{
    bytes.iter().all(|byte| *byte < 128)
}

/// Whether a byte and those behind it are ASCII.
fn is_ascii(byte: u8, rest: &[u8]) -> bool
    ensures { result ≡ list_all (λ byte. nat_lt byte 128) (byte ∷ rest.now) }
{
    byte < 128 && are_ascii(rest)
}

/// Adds what begins with two slashes, of which one is `byte`: nothing if it is ASCII, and otherwise a word.
fn comment(words: &mut List<Span>, at: u32, byte: u8, rest: &[u8]) -> Result<(), Memory>
    requires { at + length rest.now + 1 < 2 ^ 32 }
    ensures { OnOk result (words.new ≡ words.old ++ comment_in at (byte ∷ rest.now)) }
{
    if is_ascii(byte, rest) {
        Ok(())
    } else {
        let to = at + rest.len() as u32 + 1;
        push(words, Span { from: at, to })
    }
}

/// Whether a slash stands at the front.
fn is_slash(bytes: &[u8]) -> bool
    ensures { result ≡ begins_with_slash bytes.now }
{
    match bytes.split_first() {
        Some((byte, _)) => *byte == b'/',
        None => false,
    }
}

/// Goes on behind a byte: whether what stands behind it is quoted, and where the word begins that it may belong to.
/// None where the rest of the line is a comment.
fn step(
    words: &mut List<Span>,
    quoted: bool,
    from: u32,
    at: u32,
    byte: u8,
    rest: &[u8],
) -> Result<Option<(bool, u32)>, Memory>
    requires { at + length rest.now + 1 < 2 ^ 32 }
    ensures on { IfOk result (λ next. IfSome next (λ n. words.old ++ words_from quoted from at (byte ∷ rest.now)
        ≡ words.new ++ words_from n.0 n.1 (at + 1) rest.now)) }
    ensures end { IfOk result (λ next. IfNone next (words.old ++ words_from quoted from at (byte ∷ rest.now)
        ≡ words.new)) }
{
    if quoted {
        Ok(Some((byte != b'"', from)))
    } else if byte == b' ' {
        begun(words, from, at)?;
        Ok(Some((false, at + 1)))
    } else if byte == b'/' && is_slash(rest) {
        begun(words, from, at)?;
        comment(words, at, byte, rest)?;
        Ok(None)
    } else {
        Ok(Some((byte == b'"', from)))
    }
}

/// The words of a line: spaces part them, and two slashes begin a comment, but not between quotes.
pub(crate) fn words(alloc: Global, line: &[u8]) -> Result<List<Span>, Memory>
    requires { length line.now < 2 ^ 32 }
    ensures { IfOk result (λ words. words ≡ words_of line.now) }
{
    let mut words = List::new(alloc);
    let mut quoted = false;
    let mut from = 0;
    let mut at = 0;
    let mut rest = line;
    while let Some((byte, behind)) = rest.split_first() {
        match step(&mut words, quoted, from, at, *byte, behind)? {
            Some(next) => {
                quoted = next.0;
                from = next.1;
            }
            None => return Ok(words),
        }
        at += 1;
        rest = behind;
    }
    begun(&mut words, from, at)?;
    Ok(words)
}

impl<'a> Line<'a> {
    /// Where the word of a number stands, counted from 0.
    fn span(&self, index: usize) -> Option<Span>
        ensures { result ≡ slice_get self.now.words.now index }
    {
        self.words.get(index).copied()
    }

    /// The word of a number, counted from 0.
    pub(crate) fn word(&self, index: usize) -> Option<&'a [u8]>
        ensures { option_map (λ word. word.now) result ≡ word_at (parts_of self.now) index }
    {
        let span = self.span(index)?;
        let (_, behind) = split(self.bytes, span.from as usize);
        let (word, _) = split(behind, span.to.saturating_sub(span.from) as usize);
        Some(word)
    }

    /// The column of a word, or the one past the last byte of the line where the word is missing.
    pub(crate) fn column(&self, index: usize) -> usize
        ensures { result ≡ column_of (parts_of self.now) index }
    {
        match self.span(index) {
            Some(span) => span.from as usize + 1,
            None => self.bytes.len() + 1,
        }
    }
}
