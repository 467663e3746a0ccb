ghost use Rattle.std.specs.Prelude.{◌≡◌, ◌≢◌, ℕ, ◌+◌, ◌-◌, ◌<◌, ◌≤◌, ◌↔◌, ◌⊎◌, List, [], ◌∷◌, ◌++◌, length, take};
ghost use Rattle.std.specs.Prelude.{drop, min, Option, Some, None, IfOk, OnOk, OnErr, IsErrOf, slice_range, vec_len};
ghost use Rattle.std.specs.Option.{option_map};
ghost use Rattle.std.specs.FinMap.{get};
ghost use Rattle.ilc_io.specs.Calls.{noted, MayNote, AreMade, ReadsInPieces, WritesInPieces};
ghost use Rattle.ilc_io.specs.declared.call.Call.{Call};
ghost use Rattle.ilc_io.specs.Count.{next_count};
ghost use Rattle.ilc_io.specs.Store.{Store, content, size_of, stored, IsPartlyStored};

use crate::fault::FileFault;
use crate::files::Files;
use num_core::{Bytes, List, Text};
use std::alloc::Global;

/// The most bytes that one read of `read_file` asks for.
const READ_PIECE: usize = 65_536;

/// The most bytes that one append of `write_file` offers.
const WRITE_PIECE: usize = 4096;

/// Reads a whole file of at most `limit` bytes.
///
/// It asks for the size once. Each read then asks for the next 65,536 bytes, or for all that is left of
/// that size where it is fewer, until so many were read or a read gave none.
pub fn read_file<F: Files>(
    alloc: Global,
    files: &mut F,
    name: &Text,
    limit: u64,
) -> Result<Bytes, FileFault>
    // Where the store tells its files.
    ensures content { (store : Store) → F.told files.old ≡ Some store →
        IfOk result (λ bytes. get store name.now ≡ Some bytes) }
    ensures no_file { (store : Store) → F.told files.old ≡ Some store → result ≡ Err FileFault.Missing →
        get store name.now ≡ None }
    ensures long_file { (store : Store) (size : ℕ) → F.told files.old ≡ Some store →
        result ≡ Err (FileFault.TooLong size) → size_of store name.now ≡ Some size }
    ensures same_files { F.told files.new ≡ F.told files.old }

    // Whether it tells them or not.
    ensures asked { IfOk result (λ bytes.
        (size : ℕ) × (F.asked files.new ≡ F.asked files.old ++ (name.now, Some size) ∷ [])
        × (length bytes ≤ size) × (size ≤ limit)) }
    ensures missing { (result ≡ Err FileFault.Missing)
        ↔ (F.asked files.new ≡ F.asked files.old ++ (name.now, None) ∷ []) }
    ensures too_long { (size : ℕ) → (result ≡ Err (FileFault.TooLong size))
        ↔ ((limit < size) × (F.asked files.new ≡ F.asked files.old ++ (name.now, Some size) ∷ [])) }
    ensures asked_once { (F.asked files.new ≡ F.asked files.old)
        ⊎ ((answer : Option ℕ) × (F.asked files.new ≡ F.asked files.old ++ (name.now, answer) ∷ [])) }
    ensures pieces { (size : ℕ) → F.asked files.new ≡ F.asked files.old ++ (name.now, Some size) ∷ [] →
        size ≤ limit → ReadsInPieces size (F.calls files.old) (F.calls files.new) }
    ensures missing_reads_nothing { result ≡ Err FileFault.Missing →
        F.calls files.new ≡ noted Call.Size (F.calls files.old) }
    ensures too_long_reads_nothing { (size : ℕ) → result ≡ Err (FileFault.TooLong size) →
        F.calls files.new ≡ noted Call.Size (F.calls files.old) }
    ensures size_refused { F.asked files.new ≡ F.asked files.old →
        MayNote Call.Size (F.calls files.old) (F.calls files.new) }
    ensures counted { result ≡ Err FileFault.Failed →
        F.read_faults files.new ≡ next_count (F.read_faults files.old) }
    ensures not_counted { result ≢ Err FileFault.Failed → F.read_faults files.new ≡ F.read_faults files.old }
    ensures read_faults_kept { F.read_faults files.old ≤ F.read_faults files.new }
    ensures same_write_faults { F.write_faults files.new ≡ F.write_faults files.old }
{
    let Some(size) = files.size(name)? else {
        return Err(FileFault::Missing);
    };
    if size > limit {
        return Err(FileFault::TooLong(size));
    }
    read_content(alloc, files, name, size)
}

/// Reads the first `size` bytes of a file, or all that there are.
fn read_content<F: Files>(
    alloc: Global,
    files: &mut F,
    name: &Text,
    size: u64,
) -> Result<Bytes, FileFault>
    ensures content { (store : Store) → F.told files.old ≡ Some store →
        IfOk result (λ bytes. bytes ≡ take size (content store name.now)) }
    ensures within { IfOk result (λ bytes. length bytes ≤ size) }
    ensures no_missing { result ≢ Err FileFault.Missing }
    ensures no_too_long { (size : ℕ) → result ≢ Err (FileFault.TooLong size) }
    ensures same_files { F.told files.new ≡ F.told files.old }
    ensures same_asked { F.asked files.new ≡ F.asked files.old }
    ensures pieces { AreMade Call.Read READ_PIECE size (F.calls files.old) (F.calls files.new) }
    ensures counted { result ≡ Err FileFault.Failed →
        F.read_faults files.new ≡ next_count (F.read_faults files.old) }
    ensures not_counted { result ≢ Err FileFault.Failed → F.read_faults files.new ≡ F.read_faults files.old }
    ensures read_faults_kept { F.read_faults files.old ≤ F.read_faults files.new }
    ensures same_write_faults { F.write_faults files.new ≡ F.write_faults files.old }
{
    let mut buffer = zeros(alloc, READ_PIECE)?;
    let mut bytes = List::new(alloc);
    while (bytes.len() as u64) < size {
        let wanted = next_len(size - bytes.len() as u64, READ_PIECE);
        if read_piece(files, name, wanted, &mut buffer, &mut bytes)? == 0 {
            break;
        }
    }
    Ok(bytes)
}

/// A buffer of so many zeros.
fn zeros(alloc: Global, len: usize) -> Result<Vec<u8>, FileFault>
    ensures len { IfOk result (λ buffer. vec_len buffer ≡ len) }
    ensures err { OnErr result (IsErrOf result FileFault.Memory) }
{
    vec![in alloc; 0; len].map_err(|_| FileFault::Memory)
}

/// How many bytes the next piece has: as many as are left, and no more than `most`.
fn next_len(left: u64, most: usize) -> usize
    ensures { result ≡ min most left }
{
    if left < most as u64 {
        left as usize
    } else {
        most
    }
}

/// Reads the next piece of a file, of which `bytes` are the first, and gives how many bytes it has, of
/// those that are wanted.
fn read_piece<F: Files>(
    files: &mut F,
    name: &Text,
    wanted: usize,
    buffer: &mut [u8],
    bytes: &mut Bytes,
) -> Result<usize, FileFault>
    requires some { 0 < wanted }
    requires room { wanted ≤ length buffer.old }
    ensures content { (store : Store) → F.told files.old ≡ Some store →
        IfOk result (λ count.
        bytes.new ≡ bytes.old ++ take count (drop (length bytes.old) (content store name.now))) }
    ensures ended { (store : Store) → F.told files.old ≡ Some store →
        IfOk result (λ count. count ≡ 0 → drop (length bytes.old) (content store name.now) ≡ []) }
    ensures length { IfOk result (λ count. length bytes.new ≡ length bytes.old + count) }
    ensures within { IfOk result (λ count. count ≤ wanted) }
    ensures no_missing { result ≢ Err FileFault.Missing }
    ensures no_too_long { (size : ℕ) → result ≢ Err (FileFault.TooLong size) }
    ensures same_files { F.told files.new ≡ F.told files.old }
    ensures same_asked { F.asked files.new ≡ F.asked files.old }
    ensures call_noted { OnOk result
        (F.calls files.new ≡ noted (Call.Read (length bytes.old) wanted) (F.calls files.old)) }
    ensures may_be_noted { OnErr result
        (MayNote (Call.Read (length bytes.old) wanted) (F.calls files.old) (F.calls files.new)) }
    ensures counted { result ≡ Err FileFault.Failed →
        F.read_faults files.new ≡ next_count (F.read_faults files.old) }
    ensures not_counted { result ≢ Err FileFault.Failed → F.read_faults files.new ≡ F.read_faults files.old }
    ensures read_faults_kept { F.read_faults files.old ≤ F.read_faults files.new }
    ensures same_write_faults { F.write_faults files.new ≡ F.write_faults files.old }
{
    let at = bytes.len() as u64;
    let count = files.read(name, at, &mut buffer[..wanted])?;
    bytes.extend_from_slice(&buffer[..count])?;
    Ok(count)
}

/// Writes a whole file, in place of the one that there was.
///
/// It creates the file. Each append then offers the next 4,096 bytes, or all that is left where it is
/// fewer, until all were taken.
pub fn write_file<F: Files>(files: &mut F, name: &Text, bytes: &[u8]) -> Result<(), FileFault>
    // Where the store tells its files, it tells them after the call too.
    ensures stored { OnOk result (F.told files.new ≡ option_map (stored name.now bytes.now) (F.told files.old)) }
    ensures broken_off { OnErr result (IsPartlyStored name.now bytes.now (F.told files.old) (F.told files.new)) }

    // Whether it tells them or not.
    ensures same_asked { F.asked files.new ≡ F.asked files.old }
    ensures never_missing { result ≢ Err FileFault.Missing }
    ensures never_too_long { (size : ℕ) → result ≢ Err (FileFault.TooLong size) }
    ensures pieces { OnOk result (WritesInPieces (length bytes.now) (F.calls files.old) (F.calls files.new)) }
    ensures pieces_broken_off { OnErr result
        ((F.calls files.new ≡ F.calls files.old)
        ⊎ WritesInPieces (length bytes.now) (F.calls files.old) (F.calls files.new)) }
    ensures counted { result ≡ Err FileFault.Failed →
        F.write_faults files.new ≡ next_count (F.write_faults files.old) }
    ensures not_counted { result ≢ Err FileFault.Failed → F.write_faults files.new ≡ F.write_faults files.old }
    ensures write_faults_kept { F.write_faults files.old ≤ F.write_faults files.new }
    ensures same_read_faults { F.read_faults files.new ≡ F.read_faults files.old }
{
    files.create(name)?;
    let mut written = 0;
    while written < bytes.len() {
        let end = written + next_len((bytes.len() - written) as u64, WRITE_PIECE);
        written += files.append(name, &bytes[written..end])?;
    }
    Ok(())
}
