ghost use Rattle.std.specs.Prelude.{◌≡◌, ◌⊎◌, ◌≤◌, ◌↔◌, [], ◌++◌, length, drop, min, Some, IsErr, IfOk, OnOk, OnErr};
ghost use Rattle.ilc_io.specs.Count.{next_count};
ghost use Rattle.ilc_io.specs.Mem.{NextOfStreamFails, with_bytes, with_fault, without_memory};
ghost use Rattle.ilc_io.specs.Piece.{Reads};

use crate::fault::Failed;
use crate::fill::fill_front;
use crate::stream::{Sink, Source};
use num_core::{Bytes, List, Memory};
use std::alloc::Global;
use std::marker::Model;

/// A source in memory, which tells what is left. Some of its reads are made to fail, by their numbers from 0 on.
#[derive(Debug, Drop)]
pub struct MemSource {
    bytes: Bytes,
    at: usize,
    calls: u64,
    failing: List<u64>,
    faults: u64,
}

impl Model for MemSource {
    ghost use Rattle.std.specs.Prelude.{drop, length, ◌≤◌};
    ghost use Rattle.ilc_io.specs.Mem.{MemStream};

    ghost Value = { MemStream };

    ghost view = { λ source. record {
      bytes = drop source.at source.bytes;
      calls = source.calls;
      failing = source.failing;
      faults = source.faults;
      refused = 0;
    } };

    ghost invariant = { λ source. source.at ≤ length source.bytes };
}

impl MemSource {
    /// A source of these bytes. `fail` has the numbers of the reads that are to fail.
    pub fn new(alloc: Global, bytes: &[u8], fail: &[u64]) -> Result<MemSource, Memory>
        ensures { IfOk result (λ source.
            source ≡ record { bytes = bytes.now; calls = 0; failing = fail.now; faults = 0; refused = 0 }) }
    {
        Ok(MemSource {
            bytes: List::from_slice(alloc, bytes)?,
            at: 0,
            calls: 0,
            failing: List::from_slice(alloc, fail)?,
            faults: 0,
        })
    }
}

impl Source for MemSource {
    ghost rest = { λ source. Some source.bytes };

    ghost faults = { λ source. source.faults };

    fn read(&mut self, into: &mut [u8]) -> Result<usize, Failed>
        ensures exact { IfOk result (λ count. Reads self.old.bytes into.old into.new count) }
        ensures full { IfOk result (λ count. count ≡ min (length self.old.bytes) (length into.old)) }
        ensures fails { IsErr result ↔ NextOfStreamFails self.old }
        ensures untouched { OnErr result (into.new ≡ into.old) }
        ensures after_ok { IfOk result (λ count. self.new ≡ with_bytes (drop count self.old.bytes) self.old) }
        ensures after_failed { OnErr result (self.new ≡ with_fault self.old) }
        ensures faults_kept { self.old.faults ≤ self.new.faults }
    {
        let fails = self.failing.as_slice().contains(&self.calls);
        self.calls = self.calls.saturating_add(1);
        if fails {
            self.faults = self.faults.saturating_add(1);
            return Err(Failed);
        }
        let count = fill_front(&self.bytes.as_slice()[self.at..], into);
        self.at += count;
        Ok(count)
    }

    fn faults(&self) -> u64 {
        self.faults
    }
}

/// A sink in memory, which tells what was written. Some of its writes are made to fail, by their numbers from 0 on.
#[derive(Debug, Drop)]
pub struct MemSink {
    bytes: Bytes,
    calls: u64,
    failing: List<u64>,
    faults: u64,
    refused: u64,
}

impl Model for MemSink {
    ghost use Rattle.ilc_io.specs.Mem.{MemStream};

    ghost Value = { MemStream };

    ghost view = { λ sink. record {
      bytes = sink.bytes;
      calls = sink.calls;
      failing = sink.failing;
      faults = sink.faults;
      refused = sink.refused;
    } };
}

impl MemSink {
    /// A sink with nothing written. `fail` has the numbers of the writes that are to fail.
    pub fn new(alloc: Global, fail: &[u64]) -> Result<MemSink, Memory>
        ensures { IfOk result (λ sink.
            sink ≡ record { bytes = []; calls = 0; failing = fail.now; faults = 0; refused = 0 }) }
    {
        Ok(MemSink {
            bytes: List::new(alloc),
            calls: 0,
            failing: List::from_slice(alloc, fail)?,
            faults: 0,
            refused: 0,
        })
    }

    /// What was written.
    pub fn bytes(&self) -> &[u8]
        ensures { result.now ≡ self.now.bytes }
    {
        self.bytes.as_slice()
    }

    /// How many of the writes that failed had no memory. The count stays at its last value.
    pub fn refused(&self) -> u64
        ensures { result ≡ self.now.refused }
    {
        self.refused
    }

    /// Adds a piece at the end, or counts that memory was wanting.
    fn add(&mut self, piece: &[u8]) -> Result<(), Failed>
        ensures ok { OnOk result (self.new ≡ record self.old { bytes = self.old.bytes ++ piece.now }) }
        ensures err { OnErr result (self.new ≡ record self.old { refused = next_count self.old.refused }) }
    {
        match self.bytes.extend_from_slice(piece) {
            Ok(()) => Ok(()),
            Err(_) => {
                self.refused = self.refused.saturating_add(1);
                Err(Failed)
            }
        }
    }
}

impl Sink for MemSink {
    ghost written = { λ sink. Some sink.bytes };

    ghost faults = { λ sink. sink.faults };

    /// Without memory for the piece the write has failed, which is counted apart too.
    fn write(&mut self, piece: &[u8]) -> Result<usize, Failed>
        ensures whole { IfOk result (λ count. count ≡ length piece.now) }
        ensures fails { NextOfStreamFails self.old → IsErr result }
        ensures after_ok { OnOk result (self.new ≡ with_bytes (self.old.bytes ++ piece.now) self.old) }
        ensures after_failed { OnErr result
            ((NextOfStreamFails self.old × (self.new ≡ with_fault self.old))
            ⊎ (¬ NextOfStreamFails self.old × (self.new ≡ without_memory self.old))) }
        ensures faults_kept { self.old.faults ≤ self.new.faults }
    {
        let fails = self.failing.as_slice().contains(&self.calls);
        self.calls = self.calls.saturating_add(1);
        if fails || self.add(piece).is_err() {
            self.faults = self.faults.saturating_add(1);
            return Err(Failed);
        }
        Ok(piece.len())
    }

    fn faults(&self) -> u64 {
        self.faults
    }
}
