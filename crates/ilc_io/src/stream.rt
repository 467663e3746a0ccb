ghost use Rattle.std.specs.Prelude.{◌≡◌, ℕ, ◌<◌, ◌≤◌, List, ◌++◌, length, take, drop, Option, Some, IfOk, OnOk, OnErr};
ghost use Rattle.std.specs.Option.{option_map};
ghost use Rattle.ilc_io.specs.Count.{next_count};
ghost use Rattle.ilc_io.specs.Piece.{Reads};

use crate::fault::Failed;

/// Where bytes are read from, in order and once. A refused call took nothing, and is counted once.
pub trait Source {
    /// The bytes that are left, where the source tells them.
    ghost rest: { Self → Option (List ℕ) };

    /// How many calls have failed.
    ghost faults: { Self → ℕ };

    /// Takes the next bytes, and gives how many. None into a buffer that has room is the end.
    fn read(&mut self, into: &mut [u8]) -> Result<usize, Failed>
        ensures within { IfOk result (λ count. count ≤ length into.old) }
        ensures exact { (left : List ℕ) → rest self.old ≡ Some left →
            IfOk result (λ count. Reads left into.old into.new count) }
        ensures untouched { OnErr result (into.new ≡ into.old) }
        ensures taken { IfOk result (λ count. rest self.new ≡ option_map (drop count) (rest self.old)) }
        ensures refused { OnErr result (rest self.new ≡ rest self.old) }
        ensures counted { OnErr result (faults self.new ≡ next_count (faults self.old)) }
        ensures not_counted { OnOk result (faults self.new ≡ faults self.old) }
        ensures faults_kept { faults self.old ≤ faults self.new };

    /// How many calls have failed. The count stays at its last value.
    fn faults(&self) -> u64
        ensures { result ≡ faults self.now };
}

/// Where bytes are written to, in order. A refused call wrote nothing, and is counted once.
pub trait Sink {
    /// The bytes that were written, where the sink tells them.
    ghost written: { Self → Option (List ℕ) };

    /// How many calls have failed.
    ghost faults: { Self → ℕ };

    /// Writes the first bytes of a piece, and gives how many: at least one, if the piece has any.
    fn write(&mut self, piece: &[u8]) -> Result<usize, Failed>
        ensures within { IfOk result (λ count. count ≤ length piece.now) }
        ensures some { IfOk result (λ count. 0 < length piece.now → 0 < count) }
        ensures added { IfOk result (λ count.
            written self.new
            ≡ option_map (λ bytes. bytes ++ take count piece.now) (written self.old)) }
        ensures refused { OnErr result (written self.new ≡ written self.old) }
        ensures counted { OnErr result (faults self.new ≡ next_count (faults self.old)) }
        ensures not_counted { OnOk result (faults self.new ≡ faults self.old) }
        ensures faults_kept { faults self.old ≤ faults self.new };

    /// How many calls have failed. The count stays at its last value.
    fn faults(&self) -> u64
        ensures { result ≡ faults self.now };
}
