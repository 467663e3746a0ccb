ghost use Rattle.std.specs.Prelude.{◌≡◌, ◌⊎◌, ◌+◌, ◌-◌, ◌^◌, ◌≤◌, ◌↔◌, [], ◌∷◌, ◌++◌, length, min, Contains, drop};
ghost use Rattle.std.specs.Prelude.{IsTrue, IfOk, OnOk, OnErr, IsErrOf, Some};
ghost use Rattle.std.specs.Option.{option_copied};
ghost use Rattle.std.specs.FinMap as map;
ghost use Rattle.ilc_io.specs.Mem.{files_of, NextFails, with_call, with_read_fault, with_write_fault};
ghost use Rattle.ilc_io.specs.Piece.{Reads};
ghost use Rattle.ilc_io.specs.Store.{content, size_of, stored, appended};

use crate::answers::{Answers, note};
use crate::call::Call;
use crate::fault::IoFault;
use crate::files::Files;
use crate::fill::fill_front;
use crate::name::str_of;
use num_core::{Bytes, List, Memory, Text};
use std::alloc::Global;
use std::collections::BTreeMap;
use std::marker::Model;

/// A store in memory, which tells its files and notes its calls. Some of its calls are made to fail, by their
/// numbers: the calls of `size`, `read`, `create` and `append` are counted together from 0.
#[derive(Debug, Drop)]
pub struct MemFiles {
    files: BTreeMap<String, Bytes>,
    asked: Answers,
    calls: List<Call>,
    failing: List<u64>,
    read_faults: u64,
    write_faults: u64,
    alloc: Global,
}

impl Model for MemFiles {
    ghost use Rattle.ilc_io.specs.Mem.{MemStore, mem_store_code, files_of};
    ghost use Rattle.ilc_io.specs.contracts.call.Call.{the_row};

    ghost Value = { MemStore };

    ghost coded = { mem_store_code the_row.coded };

    ghost view = { λ store. record {
      files = files_of store.files;
      asked = store.asked;
      calls = store.calls;
      failing = store.failing;
      read_faults = store.read_faults;
      write_faults = store.write_faults;
    } };
}

impl MemFiles {
    /// A store with no file. `fail` has the numbers of the calls that are to fail.
    pub fn new(alloc: Global, fail: &[u64]) -> Result<MemFiles, Memory>
        ensures { IfOk result (λ store.
            store
            ≡ record {
              files = map.empty;
              asked = [];
              calls = [];
              failing = fail.now;
              read_faults = 0;
              write_faults = 0;
            }) }
    {
        Ok(MemFiles {
            files: BTreeMap::new(alloc),
            asked: List::new(alloc),
            calls: List::new(alloc),
            failing: List::from_slice(alloc, fail)?,
            read_faults: 0,
            write_faults: 0,
            alloc,
        })
    }

    /// Makes these bytes the whole file of a name. This is no call that is counted.
    pub fn put(&mut self, name: &Text, bytes: &[u8]) -> Result<(), Memory>
        ensures ok { OnOk result
            (self.new ≡ record self.old { files = stored name.now bytes.now self.old.files }) }
        ensures err { OnErr result (self.new ≡ self.old) }
    {
        store(&mut self.files, self.alloc, str_of(name), bytes)
    }

    /// The file of a name. This is no call that is counted.
    pub fn get(&self, name: &Text) -> Option<&[u8]>
        ensures { option_copied result ≡ map.get self.now.files name.now }
    {
        find(&self.files, str_of(name))
    }

    /// Notes a call, and tells whether it is to fail.
    fn begin(&mut self, call: Call) -> Result<bool, IoFault>
        ensures noted { OnOk result (self.new ≡ with_call call self.old) }
        ensures fails { IfOk result (λ fails. IsTrue fails ↔ NextFails self.old) }
        ensures err { OnErr result (self.new ≡ self.old) }
        ensures memory { OnErr result (IsErrOf result IoFault.Memory) }
    {
        let number = self.calls.len() as u64;
        self.calls.push(call).map_err(|_| IoFault::Memory)?;
        Ok(self.failing.as_slice().contains(&number))
    }

    /// Counts a failed call of `size` or `read`.
    fn refuse_read(&mut self) -> IoFault
        ensures fault { result ≡ IoFault.Failed }
        ensures counted { self.new ≡ with_read_fault self.old }
        ensures kept { self.old.read_faults ≤ self.new.read_faults }
    {
        self.read_faults = self.read_faults.saturating_add(1);
        IoFault::Failed
    }

    /// Counts a failed call of `create` or `append`.
    fn refuse_write(&mut self) -> IoFault
        ensures fault { result ≡ IoFault.Failed }
        ensures counted { self.new ≡ with_write_fault self.old }
        ensures kept { self.old.write_faults ≤ self.new.write_faults }
    {
        self.write_faults = self.write_faults.saturating_add(1);
        IoFault::Failed
    }
}

impl Files for MemFiles {
    ghost told = { λ store. Some store.files };

    ghost asked = { λ store. store.asked };

    ghost calls = { λ store. Some store.calls };

    ghost read_faults = { λ store. store.read_faults };

    ghost write_faults = { λ store. store.write_faults };

    fn size(&mut self, name: &Text) -> Result<Option<u64>, IoFault>
        ensures exact { IfOk result (λ answer. answer ≡ size_of self.old.files name.now) }
        ensures after_ok { IfOk result (λ answer.
            self.new
            ≡ record (with_call Call.Size self.old) {
              asked = self.old.asked ++ (
                name.now,
                answer,
              ) ∷ [];
            }) }
        ensures read_faults_kept { self.old.read_faults ≤ self.new.read_faults }

        // The call fails exactly where its number is in the list.
        ensures to_fail { result ≡ Err IoFault.Failed → NextFails self.old }
        ensures not_to_fail { OnOk result (¬ NextFails self.old) }
        ensures after_failed { result ≡ Err IoFault.Failed → self.new ≡ with_read_fault (with_call Call.Size self.old) }
        ensures after_memory { result ≡ Err IoFault.Memory →
            (self.new ≡ self.old) ⊎ (self.new ≡ with_call Call.Size self.old) }
    {
        if self.begin(Call::Size)? {
            return Err(self.refuse_read());
        }
        let answer = size_in(&self.files, str_of(name));
        note(&mut self.asked, self.alloc, name, answer)?;
        Ok(answer)
    }

    fn read(&mut self, name: &Text, at: u64, into: &mut [u8]) -> Result<usize, IoFault>
        ensures exact { IfOk result (λ count.
            Reads (drop at (content self.old.files name.now)) into.old into.new count) }
        ensures full { IfOk result (λ count.
            count ≡ min (length (drop at (content self.old.files name.now))) (length into.old)) }
        ensures untouched { OnErr result (into.new ≡ into.old) }
        ensures after_ok { OnOk result (self.new ≡ with_call (Call.Read at (length into.old)) self.old) }
        ensures read_faults_kept { self.old.read_faults ≤ self.new.read_faults }

        // The call fails exactly where its number is in the list.
        ensures to_fail { result ≡ Err IoFault.Failed → NextFails self.old }
        ensures not_to_fail { OnOk result (¬ NextFails self.old) }
        ensures after_failed { result ≡ Err IoFault.Failed →
            self.new ≡ with_read_fault (with_call (Call.Read at (length into.old)) self.old) }
        ensures after_memory { result ≡ Err IoFault.Memory →
            (self.new ≡ self.old) ⊎ (self.new ≡ with_call (Call.Read at (length into.old)) self.old) }
    {
        if self.begin(Call::Read(at, into.len()))? {
            return Err(self.refuse_read());
        }
        let content = find(&self.files, str_of(name)).unwrap_or(&[]);
        Ok(fill_front(left_from(content, at), into))
    }

    fn create(&mut self, name: &Text) -> Result<(), IoFault>
        ensures after_ok { OnOk result
            (self.new ≡ record (with_call Call.Create self.old) {
              files = stored name.now []
                  self.old.files;
            }) }
        ensures write_faults_kept { self.old.write_faults ≤ self.new.write_faults }

        // The call fails exactly where its number is in the list.
        ensures to_fail { result ≡ Err IoFault.Failed → NextFails self.old }
        ensures not_to_fail { OnOk result (¬ NextFails self.old) }
        ensures after_failed { result ≡ Err IoFault.Failed →
            self.new ≡ with_write_fault (with_call Call.Create self.old) }
        ensures after_memory { result ≡ Err IoFault.Memory →
            (self.new ≡ self.old) ⊎ (self.new ≡ with_call Call.Create self.old) }
    {
        if self.begin(Call::Create)? {
            return Err(self.refuse_write());
        }
        store(&mut self.files, self.alloc, str_of(name), &[])?;
        Ok(())
    }

    fn append(&mut self, name: &Text, piece: &[u8]) -> Result<usize, IoFault>
        ensures whole { IfOk result (λ count. count ≡ length piece.now) }
        ensures after_ok { OnOk result
            (self.new ≡ record (with_call (Call.Append (length piece.now)) self.old) {
              files =
                  appended name.now piece.now self.old.files;
            }) }
        ensures write_faults_kept { self.old.write_faults ≤ self.new.write_faults }

        // The call fails exactly where its number is in the list.
        ensures to_fail { result ≡ Err IoFault.Failed → NextFails self.old }
        ensures not_to_fail { OnOk result (¬ NextFails self.old) }
        ensures after_failed { result ≡ Err IoFault.Failed →
            self.new ≡ with_write_fault (with_call (Call.Append (length piece.now)) self.old) }
        ensures after_memory { result ≡ Err IoFault.Memory →
            (self.new ≡ self.old) ⊎ (self.new ≡ with_call (Call.Append (length piece.now)) self.old) }
    {
        if self.begin(Call::Append(piece.len()))? {
            return Err(self.refuse_write());
        }
        add(&mut self.files, self.alloc, str_of(name), piece)?;
        Ok(piece.len())
    }

    fn read_faults(&self) -> u64 {
        self.read_faults
    }

    fn write_faults(&self) -> u64 {
        self.write_faults
    }
}

/// The file of a name.
fn find<'a>(files: &'a BTreeMap<String, Bytes>, name: &str) -> Option<&'a [u8]>
    ensures { option_copied result ≡ map.get (files_of files.now) name.now }
{
    match files.get(name) {
        Some(bytes) => Some(bytes.as_slice()),
        None => None,
    }
}

/// The size of the file of a name.
fn size_in(files: &BTreeMap<String, Bytes>, name: &str) -> Option<u64>
    ensures { result ≡ size_of (files_of files.now) name.now }
{
    match find(files, name) {
        Some(bytes) => Some(bytes.len() as u64),
        None => None,
    }
}

/// What is left from a place on.
fn left_from(content: &[u8], at: u64) -> &[u8]
    ensures { result.now ≡ drop at content.now }
{
    if at < content.len() as u64 {
        &content[at as usize..]
    } else {
        &[]
    }
}

/// Makes these bytes the whole file of a name.
fn store(
    files: &mut BTreeMap<String, Bytes>,
    alloc: Global,
    name: &str,
    bytes: &[u8],
) -> Result<(), Memory>
    ensures ok { OnOk result (files_of files.new ≡ stored name.now bytes.now (files_of files.old)) }
    ensures err { OnErr result (files_of files.new ≡ files_of files.old) }
{
    let key = String::from_str(alloc, name)?;
    let content = List::from_slice(alloc, bytes)?;
    files.insert(key, content)?;
    Ok(())
}

/// Adds a piece at the end of the file of a name, which it begins where there is none.
fn add(
    files: &mut BTreeMap<String, Bytes>,
    alloc: Global,
    name: &str,
    piece: &[u8],
) -> Result<(), Memory>
    ensures ok { OnOk result (files_of files.new ≡ appended name.now piece.now (files_of files.old)) }
    ensures err { OnErr result (files_of files.new ≡ files_of files.old) }
{
    match files.get_mut(name) {
        Some(content) => content.extend_from_slice(piece),
        None => store(files, alloc, name, piece),
    }
}
