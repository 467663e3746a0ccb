ghost use Rattle.std.specs.Prelude.{◌≡◌, ◌<◌, ◌≤◌, [], length, None, IfOk, OnErr};
ghost use Rattle.ilc_io.specs.Host.{with_read_fault, with_write_fault};

use crate::answers::{Answers, note};
use crate::fault::IoFault;
use crate::files::Files;
use crate::fill::{fill_from, write_some};
use crate::name::str_of;
use num_core::{List, Text};
use std::alloc::Global;
use std::fs::{OpenFile, OpenOptions, Permissions};
use std::io::{Error, ErrorKind, Seek, SeekFrom};
use std::marker::Model;
use std::os::unix::fs::PermissionsExt;
use std::{fs, io};

/// How an executable file in ELF begins (System V gABI, ELF identification).
const MAGIC: &[u8] = b"\x7FELF";

/// The files of the system, by their paths. It tells nothing of them.
///
/// What is no regular file, as a folder or a pipe, has no size, which is a fault. A file that begins as one in
/// ELF is made with the permission to execute.
#[derive(Drop)]
pub struct HostFiles<'a, R: std::rt::Files> {
    system: &'a R,
    asked: Answers,
    read_faults: u64,
    write_faults: u64,
    alloc: Global,
}

impl<'a, R: std::rt::Files> Model for HostFiles<'a, R> {
    ghost use Rattle.ilc_io.specs.Host.{HostStore};

    ghost Value = { HostStore };

    ghost view = { λ store. record {
      asked = store.asked;
      read_faults = store.read_faults;
      write_faults = store.write_faults;
    } };
}

impl<'a, R: std::rt::Files> HostFiles<'a, R> {
    /// The files of this system.
    pub fn new(alloc: Global, system: &'a R) -> HostFiles<'a, R>
        ensures { result ≡ record { asked = []; read_faults = 0; write_faults = 0 } }
    {
        HostFiles {
            system,
            asked: List::new(alloc),
            read_faults: 0,
            write_faults: 0,
            alloc,
        }
    }

    /// Counts a failed call of `size` or `read`.
    fn refuse_read(&mut self) -> IoFault
        ensures fault { result ≡ IoFault.Failed }
        ensures counted { self.new ≡ with_read_fault self.old }
        ensures kept { self.old.read_faults ≤ self.new.read_faults }
    {
        self.read_faults = self.read_faults.saturating_add(1);
        IoFault::Failed
    }

    /// Counts a failed call of `create` or `append`.
    fn refuse_write(&mut self) -> IoFault
        ensures fault { result ≡ IoFault.Failed }
        ensures counted { self.new ≡ with_write_fault self.old }
        ensures kept { self.old.write_faults ≤ self.new.write_faults }
    {
        self.write_faults = self.write_faults.saturating_add(1);
        IoFault::Failed
    }
}

impl<'a, R: std::rt::Files> Files for HostFiles<'a, R> {
    ghost told = { λ _. None };

    ghost asked = { λ store. store.asked };

    ghost calls = { λ _. None };

    ghost read_faults = { λ store. store.read_faults };

    ghost write_faults = { λ store. store.write_faults };

    fn size(&mut self, name: &Text) -> Result<Option<u64>, IoFault> {
        let Ok(answer) = size_of_path(self.system, str_of(name)) else {
            return Err(self.refuse_read());
        };
        note(&mut self.asked, self.alloc, name, answer)?;
        Ok(answer)
    }

    fn read(&mut self, name: &Text, at: u64, into: &mut [u8]) -> Result<usize, IoFault> {
        match read_path(self.system, str_of(name), at, into) {
            Ok(count) => Ok(count),
            Err(_) => Err(self.refuse_read()),
        }
    }

    fn create(&mut self, name: &Text) -> Result<(), IoFault> {
        match fs::create(self.system, str_of(name)) {
            Ok(_) => Ok(()),
            Err(_) => Err(self.refuse_write()),
        }
    }

    /// A file that takes no byte of a piece that has some has failed.
    fn append(&mut self, name: &Text, piece: &[u8]) -> Result<usize, IoFault> {
        match append_path(self.system, str_of(name), piece) {
            Ok(count) => Ok(count),
            Err(_) => Err(self.refuse_write()),
        }
    }

    fn read_faults(&self) -> u64 {
        self.read_faults
    }

    fn write_faults(&self) -> u64 {
        self.write_faults
    }
}

/// The size of the file of a path, or nothing where there is no such file.
fn size_of_path<R: std::rt::Files>(system: &R, path: &str) -> io::Result<Option<u64>> {
    match fs::metadata(system, path) {
        Ok(metadata) if metadata.is_file() => Ok(Some(metadata.len())),
        Ok(_) => Err(Error::from(ErrorKind::InvalidInput)),
        Err(error) if error.kind() == ErrorKind::NotFound => Ok(None),
        Err(error) => Err(error),
    }
}

/// Reads bytes of the file of a path from a place on.
fn read_path<R: std::rt::Files>(
    system: &R,
    path: &str,
    at: u64,
    into: &mut [u8],
) -> io::Result<usize>
    ensures within { IfOk result (λ count. count ≤ length into.old) }
    ensures untouched { OnErr result (into.new ≡ into.old) }
{
    let mut file = fs::open(system, path)?;
    file.seek(SeekFrom::Start(at))?;
    fill_from(&mut file, into)
}

/// Writes bytes at the end of the file of a path, which it begins where there is none.
fn append_path<R: std::rt::Files>(system: &R, path: &str, piece: &[u8]) -> io::Result<usize>
    ensures within { IfOk result (λ count. count ≤ length piece.now) }
    ensures some { IfOk result (λ count. 0 < length piece.now → 0 < count) }
{
    let mut options = OpenOptions::new();
    options.append(true).create(true);
    let mut file = options.open(system, path)?;
    if piece.starts_with(MAGIC) {
        allow_execution(&file)?;
    }
    write_some(&mut file, piece)
}

/// Lets those execute a regular file without content who may read it.
fn allow_execution<F: OpenFile>(file: &F) -> io::Result<()> {
    let metadata = file.metadata()?;
    if !metadata.is_file() || metadata.len() > 0 {
        return Ok(());
    }
    let mode = metadata.permissions().mode();
    file.set_permissions(Permissions::from_mode(mode | (mode & 0o444) >> 2))
}
