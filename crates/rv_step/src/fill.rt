//! Reading into memory.
ghost use Rattle.std.specs.Prelude.{◌≡◌, ◌⊎◌, ◌+◌, ◌-◌, ◌<◌, ◌≤◌, ℕ, true, [], length, IfOk, IfSome, IsTrue, OnOk};
ghost use Rattle.std.specs.Prelude.{OnErr, None};
ghost use Rattle.ilc_io.specs.Count.{next_count};
ghost use Rattle.rv_step.specs.Machine.{bytes_at, covers};
ghost use Rattle.rv_step.specs.Segments.{grants};
ghost use Rattle.rv_step.specs.Steps.{FilledBytes, FilledSegments};

use crate::segment::{Access, Segment, place_for};
use ilc_io::{Failed, Source};
use num_core::Bytes;

/// The most bytes that one call of the source asks for.
const PIECE: usize = 4096;

/// Reads what there is into the bytes from one place to another, and gives how many were read.
fn fill_bytes<I: Source>(
    bytes: &mut Bytes,
    from: usize,
    end: usize,
    input: &mut I,
    at_end: &mut bool,
) -> Result<usize, Failed>
    requires rising { from ≤ end }
    requires within { end ≤ length bytes.old }
    requires end_is_true { at_end.old ≡ true → IfSome (I.rest input.old) (λ rest. rest ≡ []) }
    ensures filled { IfOk result (λ got. (got ≤ end - from)
        × FilledBytes got from bytes.old bytes.new at_end.old at_end.new (I.rest input.old) (I.rest input.new)) }
    ensures whole { IfOk result (λ got. (got ≡ end - from) ⊎ (at_end.new ≡ true)) }
    ensures broken_off { OnErr result
        ((got : ℕ) × (got < end - from) × FilledBytes got from bytes.old bytes.new at_end.old at_end.new
        (I.rest input.old) (I.rest input.new)) }
    ensures asked { OnErr result (at_end.old ≡ true → ⊥) }
    ensures counted { OnErr result (I.faults input.new ≡ next_count (I.faults input.old)) }
    ensures not_counted { OnOk result (I.faults input.new ≡ I.faults input.old) }
{
    let mut piece = [0; PIECE];
    let mut at = from;
    while at < end && !*at_end {
        let wanted = PIECE.min(end - at);
        match input.read(&mut piece[..wanted]) {
            Ok(read) => {
                bytes.overwrite(at, &piece[..read]);
                at += read;
                *at_end = read == 0;
            }
            Err(failed) => return Err(failed),
        }
    }
    Ok(at - from)
}

impl Segment {
    /// Reads what there is into so many bytes from an address on, and gives how many were read.
    fn fill<I: Source>(
        &mut self,
        address: u64,
        count: u64,
        input: &mut I,
        at_end: &mut bool,
    ) -> Result<u64, Failed>
        requires covered { IsTrue (covers address count self.old) }
        requires end_is_true { at_end.old ≡ true → IfSome (I.rest input.old) (λ rest. rest ≡ []) }
        ensures filled { IfOk result (λ got. (got ≤ count)
            × FilledBytes got (address - self.old.at) self.old.bytes self.new.bytes at_end.old at_end.new
            (I.rest input.old) (I.rest input.new)) }
        ensures whole { IfOk result (λ got. (got ≡ count) ⊎ (at_end.new ≡ true)) }
        ensures broken_off { OnErr result
            ((got : ℕ) × (got < count) × FilledBytes got
            (address - self.old.at) self.old.bytes self.new.bytes at_end.old at_end.new (I.rest input.old)
            (I.rest input.new)) }
        ensures asked { OnErr result (at_end.old ≡ true → ⊥) }
        ensures others { self.new ≡ record self.old { bytes = self.new.bytes } }
        ensures counted { OnErr result (I.faults input.new ≡ next_count (I.faults input.old)) }
        ensures not_counted { OnOk result (I.faults input.new ≡ I.faults input.old) }
    {
        let from = (address - self.at) as usize;
        let room = self.bytes.len() - from;
        prove!(count as usize <= room);
        let end = from + count as usize;
        match fill_bytes(&mut self.bytes, from, end, input, at_end) {
            Ok(got) => Ok(got as u64),
            Err(failed) => Err(failed),
        }
    }
}

/// Reads what there is into so many bytes from an address on, if they lie in one segment that may be
/// written, and gives how many were read.
pub(crate) fn fill<I: Source>(
    segments: &mut [Segment],
    address: u64,
    count: u64,
    input: &mut I,
    at_end: &mut bool,
) -> Result<Option<u64>, Failed>
    requires { at_end.old ≡ true → IfSome (I.rest input.old) (λ rest. rest ≡ []) }
    ensures filled { IfOk result (λ found. IfSome found
        (λ got. (got ≤ count) × FilledSegments got address count segments.old segments.new at_end.old at_end.new
        (I.rest input.old) (I.rest input.new))) }
    ensures whole { IfOk result (λ found. IfSome found (λ got. (got ≡ count) ⊎ (at_end.new ≡ true))) }
    ensures nowhere { result ≡ Ok None → bytes_at (grants Access.Write) address count segments.old ≡ None }
    ensures same { result ≡ Ok None → (segments.new ≡ segments.old) × (at_end.new ≡ at_end.old)
        × (I.rest input.new ≡ I.rest input.old) }
    ensures broken_off { OnErr result
        ((got : ℕ) × (got < count) × FilledSegments got address count segments.old segments.new at_end.old at_end.new
        (I.rest input.old) (I.rest input.new)) }
    ensures asked { OnErr result (at_end.old ≡ true → ⊥) }
    ensures counted { OnErr result (I.faults input.new ≡ next_count (I.faults input.old)) }
    ensures not_counted { OnOk result (I.faults input.new ≡ I.faults input.old) }
{
    match place_for(segments, Access::Write, address, count) {
        Some(place) => match segments[place].fill(address, count, input, at_end) {
            Ok(got) => Ok(Some(got)),
            Err(failed) => Err(failed),
        },
        None => Ok(None),
    }
}
