use ilc_io::{
    FileFault, Files, HostFiles, MemFiles, Sink, Source, StreamSink, StreamSource, read_file,
    write_file,
};
use num_core::Text;
use std::alloc::Global;
use std::io::{ErrorKind, Read};
use std::os::unix::fs::PermissionsExt;
use std::test::Fail;
use std::{fs, io};

/// 10,000 bytes, no piece of which is like another.
fn content(alloc: Global) -> Result<Vec<u8>, Fail> {
    Ok((0..10_000u32).map(|at| (at / 250) as u8).collect(alloc)?)
}

/// Writes 10,000 bytes to a file, and reads it back.
fn writes_and_reads(alloc: Global, files: &mut impl Files, name: &Text) -> Result<bool, Fail> {
    let content = content(alloc)?;
    write_file(files, name, &content)?;
    let bytes = read_file(alloc, files, name, 10_000)?;
    Ok(bytes.as_slice() == content.as_slice())
}

/// Where the third call, which offers the second piece of a file, fails, the first 4,096 bytes are there.
#[test]
fn files_in_memory(rt: HostRuntime) -> Result<(), Fail> {
    let alloc = rt.alloc();
    let name = Text::new(alloc, b"a")?;
    let mut files = MemFiles::new(alloc, &[2])?;
    assert!(rt; write_file(&mut files, &name, &content(alloc)?).is_err());
    let long = read_file(alloc, &mut files, &name, 4095).err();
    assert!(rt; long == Some(FileFault::TooLong(4096)));
    assert!(rt; writes_and_reads(alloc, &mut files, &name)?);
    Ok(())
}

/// A reader that fails.
#[derive(Drop)]
struct Broken;

impl Read for Broken {
    fn read(&mut self, _into: &mut [u8]) -> io::Result<usize> {
        Err(io::Error::from(ErrorKind::BrokenPipe))
    }
}

#[test]
fn adapted_sources(rt: HostRuntime) {
    let mut buffer = [0; 4];
    let mut source = StreamSource::telling(b"abc".as_slice());
    assert_eq!(rt; source.read(&mut buffer).unwrap_or(9), 3);
    let mut broken = StreamSource::new(Broken);
    assert!(rt; broken.read(&mut buffer).is_err());
    assert_eq!(rt; (source.faults(), broken.faults()), (0, 1));
}

/// A writer without room takes nothing, which is a fault.
#[test]
fn adapted_sinks(rt: HostRuntime) {
    let mut sink = StreamSink::telling(Vec::new(rt.alloc()));
    assert_eq!(rt; sink.write(b"abcd").unwrap_or(9), 4);
    assert_eq!(rt; sink.into_writer().as_slice(), b"abcd".as_slice());
    let mut room = [0; 3];
    let mut sink = StreamSink::new(room.as_mut_slice());
    assert_eq!(rt; sink.write(b"abcd").unwrap_or(9), 3);
    assert!(rt; sink.write(b"d").is_err());
    assert_eq!(rt; sink.faults(), 1);
}

/// Whether the owner may execute the file of this path.
fn is_executable(system: &impl fs::Files, path: &str) -> Result<bool, Fail> {
    Ok(fs::metadata(system, path)?.permissions().mode() & 0o100 != 0)
}

/// A file is made anew, and with the permission to execute where it begins as one in ELF.
#[test]
fn files_of_the_system(rt: HostRuntime) -> Result<(), Fail> {
    let alloc = rt.alloc();
    let path = format!(in alloc; "/tmp/ilc_io-{}", std::process::id(rt.process()))?;
    let name = Text::new(alloc, path.as_bytes())?;
    let mut files = HostFiles::new(alloc, &rt);
    assert!(rt; writes_and_reads(alloc, &mut files, &name)?);
    assert!(rt; !is_executable(&rt, path.as_str())?);
    write_file(&mut files, &name, b"\x7FELF and more")?;
    assert!(rt; is_executable(&rt, path.as_str())?);
    assert_eq!(rt; files.size(&name)?, Some(13));
    fs::remove_file(&rt, path.as_str())?;
    Ok(())
}

/// No file, which is an answer, and then faults: neither a folder nor a device is a regular file.
#[test]
fn faults_of_the_system(rt: HostRuntime) -> Result<(), Fail> {
    let alloc = rt.alloc();
    let mut files = HostFiles::new(alloc, &rt);
    let folder = Text::new(alloc, b"/tmp")?;
    assert!(rt;
        files
            .size(&Text::new(alloc, b"/tmp/none/at/all")?)?
            .is_none()
    );
    assert!(rt; files.size(&Text::new(alloc, b"/dev/null")?).is_err());
    assert!(rt; files.create(&folder).is_err());
    assert!(rt; files.read(&folder, 0, &mut [0; 4]).is_err());
    assert_eq!(rt; (files.read_faults(), files.write_faults()), (2, 1));
    Ok(())
}
