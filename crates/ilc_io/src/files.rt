ghost use Rattle.std.specs.Prelude.{◌≡◌, ℕ, ◌<◌, ◌≤◌, List, [], ◌∷◌, ◌++◌, length, take, drop, Option, Some, IfOk};
ghost use Rattle.std.specs.Prelude.{OnOk, OnErr};
ghost use Rattle.std.specs.Option.{option_map};
ghost use Rattle.ilc_io.specs.Count.{next_count};
ghost use Rattle.ilc_io.specs.Store.{Store, Asked, content, size_of, stored, appended};
ghost use Rattle.ilc_io.specs.Calls.{noted, MayNote};
ghost use Rattle.ilc_io.specs.declared.call.Call.{Call};
ghost use Rattle.ilc_io.specs.Piece.{Reads};

use crate::call::Call;
use crate::fault::IoFault;
use num_core::Text;

/// A store of files, which have names and no folders.
///
/// A refused call created, read and added nothing. A call that fails is counted once; one that answers, or
/// that wants memory, leaves both counts.
pub trait Files {
    /// The files, where the store tells them. A store that tells them once tells them always.
    ghost told: { Self → Option Store };

    /// What `size` was asked for and has answered so far, whether the store tells its files or not.
    ghost asked: { Self → Asked };

    /// The calls of `size`, `read`, `create` and `append` so far, where the store notes them.
    ghost calls: { Self → Option (List Call) };

    /// How many calls of `size` and `read` have failed.
    ghost read_faults: { Self → ℕ };

    /// How many calls of `create` and `append` have failed.
    ghost write_faults: { Self → ℕ };

    /// The size of a file in bytes, or nothing where there is no such file.
    fn size(&mut self, name: &Text) -> Result<Option<u64>, IoFault>
        ensures exact { (store : Store) → told self.old ≡ Some store →
            IfOk result (λ answer. answer ≡ size_of store name.now) }
        ensures same_files { told self.new ≡ told self.old }
        ensures noted { IfOk result (λ answer. asked self.new ≡ asked self.old ++ (name.now, answer) ∷ []) }
        ensures not_noted { OnErr result (asked self.new ≡ asked self.old) }
        ensures call_noted { OnOk result (calls self.new ≡ noted Call.Size (calls self.old)) }
        ensures may_be_noted { OnErr result (MayNote Call.Size (calls self.old) (calls self.new)) }
        ensures counted { result ≡ Err IoFault.Failed → read_faults self.new ≡ next_count (read_faults self.old) }
        ensures not_counted { OnOk result (read_faults self.new ≡ read_faults self.old) }
        ensures memory { result ≡ Err IoFault.Memory → read_faults self.new ≡ read_faults self.old }
        ensures read_faults_kept { read_faults self.old ≤ read_faults self.new }
        ensures same_write_faults { write_faults self.new ≡ write_faults self.old };

    /// Reads bytes of a file from a place on, and gives how many. None into a buffer that has room is
    /// the end of the file. A file that isn't there reads as empty.
    fn read(&mut self, name: &Text, at: u64, into: &mut [u8]) -> Result<usize, IoFault>
        ensures within { IfOk result (λ count. count ≤ length into.old) }
        ensures exact { (store : Store) → told self.old ≡ Some store →
            IfOk result (λ count. Reads (drop at (content store name.now)) into.old into.new count) }
        ensures untouched { OnErr result (into.new ≡ into.old) }
        ensures same_files { told self.new ≡ told self.old }
        ensures same_asked { asked self.new ≡ asked self.old }
        ensures call_noted { OnOk result (calls self.new ≡ noted (Call.Read at (length into.old)) (calls self.old)) }
        ensures may_be_noted { OnErr result
            (MayNote (Call.Read at (length into.old)) (calls self.old) (calls self.new)) }
        ensures counted { result ≡ Err IoFault.Failed → read_faults self.new ≡ next_count (read_faults self.old) }
        ensures not_counted { OnOk result (read_faults self.new ≡ read_faults self.old) }
        ensures memory { result ≡ Err IoFault.Memory → read_faults self.new ≡ read_faults self.old }
        ensures read_faults_kept { read_faults self.old ≤ read_faults self.new }
        ensures same_write_faults { write_faults self.new ≡ write_faults self.old };

    /// Makes a file empty, and begins it where there is none.
    fn create(&mut self, name: &Text) -> Result<(), IoFault>
        ensures created { OnOk result (told self.new ≡ option_map (stored name.now []) (told self.old)) }
        ensures refused { OnErr result (told self.new ≡ told self.old) }
        ensures same_asked { asked self.new ≡ asked self.old }
        ensures call_noted { OnOk result (calls self.new ≡ noted Call.Create (calls self.old)) }
        ensures may_be_noted { OnErr result (MayNote Call.Create (calls self.old) (calls self.new)) }
        ensures counted { result ≡ Err IoFault.Failed → write_faults self.new ≡ next_count (write_faults self.old) }
        ensures not_counted { OnOk result (write_faults self.new ≡ write_faults self.old) }
        ensures memory { result ≡ Err IoFault.Memory → write_faults self.new ≡ write_faults self.old }
        ensures write_faults_kept { write_faults self.old ≤ write_faults self.new }
        ensures same_read_faults { read_faults self.new ≡ read_faults self.old };

    /// Adds the first bytes of a piece at the end of a file, which it begins where there is none, and
    /// gives how many it took: at least one, if the piece has any.
    fn append(&mut self, name: &Text, piece: &[u8]) -> Result<usize, IoFault>
        ensures within { IfOk result (λ count. count ≤ length piece.now) }
        ensures some { IfOk result (λ count. 0 < length piece.now → 0 < count) }
        ensures added { IfOk result (λ count.
            told self.new
            ≡ option_map (appended name.now (take count piece.now)) (told self.old)) }
        ensures refused { OnErr result (told self.new ≡ told self.old) }
        ensures same_asked { asked self.new ≡ asked self.old }
        ensures call_noted { OnOk result (calls self.new ≡ noted (Call.Append (length piece.now)) (calls self.old)) }
        ensures may_be_noted { OnErr result
            (MayNote (Call.Append (length piece.now)) (calls self.old) (calls self.new)) }
        ensures counted { result ≡ Err IoFault.Failed → write_faults self.new ≡ next_count (write_faults self.old) }
        ensures not_counted { OnOk result (write_faults self.new ≡ write_faults self.old) }
        ensures memory { result ≡ Err IoFault.Memory → write_faults self.new ≡ write_faults self.old }
        ensures write_faults_kept { write_faults self.old ≤ write_faults self.new }
        ensures same_read_faults { read_faults self.new ≡ read_faults self.old };

    /// How many calls of `size` and `read` have failed. The count stays at its last value.
    fn read_faults(&self) -> u64
        ensures { result ≡ read_faults self.now };

    /// How many calls of `create` and `append` have failed. The count stays at its last value.
    fn write_faults(&self) -> u64
        ensures { result ≡ write_faults self.now };
}
