ghost use Rattle.std.specs.Prelude.{◌≡◌, ◌+◌, ◌<◌, ◌≤◌, ◌++◌, false, codes, length, take, drop, map, IfOk, OnOk, OnErr};
ghost use Rattle.std.specs.Prelude.{decimal as decimal_digits};
ghost use Rattle.std.specs.Fmt.{digit_glyph};
ghost use Rattle.std.specs.List.{flat_map};
ghost use Rattle.ilc_io.specs.Count.{HasRisen};
ghost use Rattle.ilc.specs.Line.{line, words, line_of, refusal_line, count_line, hexadecimal, field_text};
ghost use Rattle.ilc.specs.Line.{cause_name as name_of_cause};
ghost use Rattle.ilc.specs.Refusals.{listed_fields};
ghost use Rattle.ilc.specs.Printed.{Adds, AddsFront};

use crate::outcome::Outcome;
use crate::refusal::{Field, Fields, Refusal};
use ilc_io::{Failed, Sink};
use itoa::Buffer;
use rv_step::Cause;

/// Prints the line of an outcome, if it has one. A refused write breaks it off.
pub(crate) fn report<S: Sink>(sink: &mut S, outcome: &Outcome) -> Result<(), Failed>
    ensures printed { OnOk result (Adds (line_of outcome.now) (S.written sink.old) (S.written sink.new)) }
    ensures broken_off { OnErr result (AddsFront (line_of outcome.now) (S.written sink.old) (S.written sink.new)) }
    ensures failed { OnErr result (HasRisen (S.faults sink.old) (S.faults sink.new)) }
    ensures faults_kept { S.faults sink.old ≤ S.faults sink.new }
{
    let mut number = Buffer::new();
    match outcome {
        Outcome::Written | Outcome::Ended { .. } => write_pieces(sink, &[]),
        Outcome::Memory => write_line(sink, &[b"memory"]),
        Outcome::ReadFault => write_line(sink, &[b"read", b"fault"]),
        Outcome::WriteFault => write_line(sink, &[b"write", b"fault"]),
        Outcome::Usage { index } => {
            let index = decimal(&mut number, *index as u64);
            write_line(sink, &[b"usage", index])
        }
        Outcome::NoFile { name } => write_line(sink, &[b"nofile", name.bytes()]),
        Outcome::TooLong { size } => {
            let size = decimal(&mut number, *size);
            write_line(sink, &[b"limit", b"file", size])
        }
        Outcome::Refused(refusal) => report_refusal(sink, refusal),
    }
}

/// Prints the line of a refusal.
fn report_refusal<S: Sink>(sink: &mut S, refusal: &Refusal) -> Result<(), Failed>
    ensures printed { OnOk result
        (Adds (refusal_line refusal.now.fault (map field_text (listed_fields refusal.now.fields)))
        (S.written sink.old) (S.written sink.new)) }
    ensures broken_off { OnErr result
        (AddsFront (refusal_line refusal.now.fault (map field_text (listed_fields refusal.now.fields)))
        (S.written sink.old) (S.written sink.new)) }
    ensures failed { OnErr result (HasRisen (S.faults sink.old) (S.faults sink.new)) }
    ensures faults_kept { S.faults sink.old ≤ S.faults sink.new }
{
    let mut digits = Buffer::new();
    let number = decimal(&mut digits, refusal.fault.row().number);
    let name = refusal.fault.name();
    write_pieces(sink, &[b"ilc: ", number, b" ", name])?;
    write_fields(sink, &refusal.fields)?;
    write_all(sink, b"\n")
}

/// Writes the fields of a refusal, each behind a space.
fn write_fields<S: Sink>(sink: &mut S, fields: &Fields) -> Result<(), Failed>
    ensures printed { OnOk result (Adds (words (map field_text (listed_fields fields.now)))
        (S.written sink.old) (S.written sink.new)) }
    ensures broken_off { OnErr result (AddsFront (words (map field_text (listed_fields fields.now)))
        (S.written sink.old) (S.written sink.new)) }
    ensures failed { OnErr result (HasRisen (S.faults sink.old) (S.faults sink.new)) }
    ensures faults_kept { S.faults sink.old ≤ S.faults sink.new }
{
    match fields {
        Fields::None => write_all(sink, b""),
        Fields::One(first) => write_field(sink, first),
        Fields::Two(first, second) => {
            write_field(sink, first)?;
            write_field(sink, second)
        }
        Fields::Three(first, second, third) => {
            write_field(sink, first)?;
            write_field(sink, second)?;
            write_field(sink, third)
        }
    }
}

/// Writes a field of a refusal behind a space.
fn write_field<S: Sink>(sink: &mut S, field: &Field) -> Result<(), Failed>
    ensures printed { OnOk result (Adds (codes " " ++ field_text field.now)
        (S.written sink.old) (S.written sink.new)) }
    ensures broken_off { OnErr result (AddsFront (codes " " ++ field_text field.now)
        (S.written sink.old) (S.written sink.new)) }
    ensures failed { OnErr result (HasRisen (S.faults sink.old) (S.faults sink.new)) }
    ensures faults_kept { S.faults sink.old ≤ S.faults sink.new }
{
    match field {
        Field::Text(text) => write_word(sink, text.bytes()),
        Field::Number(number) => {
            let mut digits = Buffer::new();
            write_word(sink, decimal(&mut digits, *number))
        }
        Field::Address(number) => {
            let (digits, at) = hex(*number);
            write_word(sink, &digits[at..])
        }
        Field::Cause(cause) => write_word(sink, cause_name(*cause)),
    }
}

/// Prints a number of machine steps. A refused write breaks the line off.
pub(crate) fn report_count<S: Sink>(sink: &mut S, steps: u64) -> Result<(), Failed>
    ensures printed { OnOk result (Adds (count_line steps) (S.written sink.old) (S.written sink.new)) }
    ensures broken_off { OnErr result (AddsFront (count_line steps) (S.written sink.old) (S.written sink.new)) }
    ensures failed { OnErr result (HasRisen (S.faults sink.old) (S.faults sink.new)) }
    ensures faults_kept { S.faults sink.old ≤ S.faults sink.new }
{
    let mut number = Buffer::new();
    let digits = decimal(&mut number, steps);
    write_pieces(sink, &[b"steps ", digits, b"\n"])
}

/// The decimal digits of a number.
pub(crate) fn decimal(buffer: &mut Buffer, number: u64) -> &[u8]
    ensures { result.now ≡ decimal_digits number }
{
    buffer.format(number).as_bytes()
}

fn cause_name(cause: Cause) -> &'static [u8]
    ensures { result.now ≡ name_of_cause cause }
{
    match cause {
        Cause::Fetch => b"fetch",
        Cause::Load => b"load",
        Cause::Store => b"store",
        Cause::Illegal => b"illegal",
        Cause::Call => b"call",
    }
}

/// The hexadecimal digits of a number, and where in the buffer they begin.
fn hex(number: u64) -> ([u8; 16], usize)
    ensures digits { drop result.1 result.0 ≡ hexadecimal number }
    ensures begin { result.1 < 16 }
    ensures size { length result.0 ≡ 16 }
{
    let mut digits = [0; 16];
    let mut rest = number;
    let mut at = 15;
    digits[at] = hex_digit(rest % 16);
    while rest >= 16 {
        rest /= 16;
        at -= 1;
        digits[at] = hex_digit(rest % 16);
    }
    (digits, at)
}

/// The ASCII digit for a number below 16.
fn hex_digit(digit: u64) -> u8
    requires { digit < 16 }
    ensures { result ≡ digit_glyph false digit }
{
    if digit < 10 {
        b'0' + digit as u8
    } else {
        b'a' + (digit - 10) as u8
    }
}

/// Writes a line of the program, of these words. A refused write breaks it off.
fn write_line<S: Sink>(sink: &mut S, written: &[&[u8]]) -> Result<(), Failed>
    ensures printed { OnOk result
        (Adds (line (map (λ word. word.now) written.now)) (S.written sink.old) (S.written sink.new)) }
    ensures broken_off { OnErr result
        (AddsFront (line (map (λ word. word.now) written.now)) (S.written sink.old) (S.written sink.new)) }
    ensures failed { OnErr result (HasRisen (S.faults sink.old) (S.faults sink.new)) }
    ensures faults_kept { S.faults sink.old ≤ S.faults sink.new }
{
    write_all(sink, b"ilc:")?;
    write_words(sink, written)?;
    write_all(sink, b"\n")
}

/// Writes words, each behind a space.
fn write_words<S: Sink>(sink: &mut S, written: &[&[u8]]) -> Result<(), Failed>
    ensures printed { OnOk result (Adds (flat_map (λ word. codes " " ++ word.now) written.now)
        (S.written sink.old) (S.written sink.new)) }
    ensures broken_off { OnErr result (AddsFront (flat_map (λ word. codes " " ++ word.now) written.now)
        (S.written sink.old) (S.written sink.new)) }
    ensures failed { OnErr result (HasRisen (S.faults sink.old) (S.faults sink.new)) }
    ensures faults_kept { S.faults sink.old ≤ S.faults sink.new }
{
    for word in written {
        write_word(sink, word)?;
    }
    Ok(())
}

/// Writes a word behind a space.
fn write_word<S: Sink>(sink: &mut S, word: &[u8]) -> Result<(), Failed>
    ensures printed { OnOk result (Adds (codes " " ++ word.now)
        (S.written sink.old) (S.written sink.new)) }
    ensures broken_off { OnErr result (AddsFront (codes " " ++ word.now)
        (S.written sink.old) (S.written sink.new)) }
    ensures failed { OnErr result (HasRisen (S.faults sink.old) (S.faults sink.new)) }
    ensures faults_kept { S.faults sink.old ≤ S.faults sink.new }
{
    write_pieces(sink, &[b" ", word])
}

/// Writes the pieces one after another. A refused write breaks them off.
fn write_pieces<S: Sink>(sink: &mut S, pieces: &[&[u8]]) -> Result<(), Failed>
    ensures written { OnOk result
        (Adds (flat_map (λ piece. piece.now) pieces.now) (S.written sink.old) (S.written sink.new)) }
    ensures broken_off { OnErr result
        (AddsFront (flat_map (λ piece. piece.now) pieces.now) (S.written sink.old) (S.written sink.new)) }
    ensures failed { OnErr result (HasRisen (S.faults sink.old) (S.faults sink.new)) }
    ensures faults_kept { S.faults sink.old ≤ S.faults sink.new }
{
    for piece in pieces {
        write_all(sink, piece)?;
    }
    Ok(())
}

/// Writes all of the bytes. A refused write breaks them off.
pub(crate) fn write_all<S: Sink>(sink: &mut S, bytes: &[u8]) -> Result<(), Failed>
    ensures written { OnOk result (Adds bytes.now (S.written sink.old) (S.written sink.new)) }
    ensures broken_off { OnErr result (AddsFront bytes.now (S.written sink.old) (S.written sink.new)) }
    ensures failed { OnErr result (HasRisen (S.faults sink.old) (S.faults sink.new)) }
    ensures faults_kept { S.faults sink.old ≤ S.faults sink.new }
{
    let mut at = 0;
    while at < bytes.len() {
        at += write_from(sink, bytes, at)?;
    }
    Ok(())
}

/// Writes some of the bytes from a place on, and gives how many.
fn write_from<S: Sink>(sink: &mut S, bytes: &[u8], at: usize) -> Result<usize, Failed>
    requires { at < length bytes.now }
    ensures some { IfOk result (λ count. (0 < count) × (at + count ≤ length bytes.now)) }
    ensures added { IfOk result (λ count.
        Adds (take count (drop at bytes.now)) (S.written sink.old) (S.written sink.new)) }
    ensures refused { OnErr result (S.written sink.new ≡ S.written sink.old) }
    ensures failed { OnErr result (HasRisen (S.faults sink.old) (S.faults sink.new)) }
    ensures faults_kept { S.faults sink.old ≤ S.faults sink.new }
{
    sink.write(&bytes[at..])
}
