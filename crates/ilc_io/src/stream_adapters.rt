ghost use Rattle.std.specs.Prelude.{◌≡◌, ℕ, List, Some, None, IsSome};

use crate::fault::Failed;
use crate::fill::{fill_from, write_some};
use crate::stream::{Sink, Source};
use std::io::{Read, Write};
use std::marker::Model;

/// A source over a reader, as a file or the standard input. Contracts see it as what it tells of the bytes that
/// are left, and the count of its faults.
#[derive(Drop)]
pub struct StreamSource<R: Read> {
    reader: R,
    tells: bool,
    faults: u64,
}

impl<R: Read> Model for StreamSource<R> {
    ghost use Rattle.std.specs.Prelude.{◌≡◌, true, IsSome};
    ghost use Rattle.ilc_io.specs.Stream.{Stream, told_by};

    ghost Value = { Stream };

    ghost view = { λ source. record {
      told = told_by source.tells (R.remaining source.reader);
      faults = source.faults;
    } };

    ghost invariant = { λ source. source.tells ≡ true → IsSome (R.remaining source.reader) };
}

impl<R: Read> StreamSource<R> {
    /// The source that reads from this reader, and tells nothing.
    pub fn new(reader: R) -> StreamSource<R>
        ensures { result ≡ record { told = None; faults = 0 } }
    {
        StreamSource {
            reader,
            tells: false,
            faults: 0,
        }
    }

    /// The source that reads from a reader of which std says what it has left, as a slice, and tells that.
    pub fn telling(reader: R) -> StreamSource<R>
        requires { IsSome (R.remaining reader) }
        ensures { result ≡ record { told = R.remaining reader; faults = 0 } }
    {
        StreamSource {
            reader,
            tells: true,
            faults: 0,
        }
    }
}

impl<R: Read> Source for StreamSource<R> {
    ghost rest = { λ source. source.told };

    ghost faults = { λ source. source.faults };

    fn read(&mut self, into: &mut [u8]) -> Result<usize, Failed> {
        match fill_from(&mut self.reader, into) {
            Ok(count) => Ok(count),
            Err(_) => {
                self.faults = self.faults.saturating_add(1);
                Err(Failed)
            }
        }
    }

    fn faults(&self) -> u64 {
        self.faults
    }
}

/// A sink over a writer, as a file or the standard output. Contracts see it as what it tells of the bytes that
/// the writer holds, and the count of its faults.
#[derive(Drop)]
pub struct StreamSink<W: Write> {
    writer: W,
    tells: bool,
    faults: u64,
}

impl<W: Write> Model for StreamSink<W> {
    ghost use Rattle.std.specs.Prelude.{◌≡◌, true, IsSome};
    ghost use Rattle.ilc_io.specs.Stream.{Stream, told_by};

    ghost Value = { Stream };

    ghost view = { λ sink. record { told = told_by sink.tells (W.contents sink.writer); faults = sink.faults } };

    ghost invariant = { λ sink. sink.tells ≡ true → IsSome (W.contents sink.writer) };
}

impl<W: Write> StreamSink<W> {
    /// The sink that writes to this writer, and tells nothing.
    pub fn new(writer: W) -> StreamSink<W>
        ensures { result ≡ record { told = None; faults = 0 } }
    {
        StreamSink {
            writer,
            tells: false,
            faults: 0,
        }
    }

    /// The sink that writes to a writer of which std says what it holds, as a `Vec`, and tells that.
    pub fn telling(writer: W) -> StreamSink<W>
        requires { IsSome (W.contents writer) }
        ensures { result ≡ record { told = W.contents writer; faults = 0 } }
    {
        StreamSink {
            writer,
            tells: true,
            faults: 0,
        }
    }

    /// The writer.
    pub fn into_writer(self) -> W
        ensures { (held : List ℕ) → self.told ≡ Some held → W.contents result ≡ Some held }
    {
        let StreamSink { writer, .. } = self;
        writer
    }
}

impl<W: Write> Sink for StreamSink<W> {
    ghost written = { λ sink. sink.told };

    ghost faults = { λ sink. sink.faults };

    fn write(&mut self, piece: &[u8]) -> Result<usize, Failed> {
        match write_some(&mut self.writer, piece) {
            Ok(count) => Ok(count),
            Err(_) => {
                self.faults = self.faults.saturating_add(1);
                Err(Failed)
            }
        }
    }

    fn faults(&self) -> u64 {
        self.faults
    }
}
