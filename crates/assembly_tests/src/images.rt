use pe_image::{PeFault, open_image};
use std::alloc::{AllocError, Global};

/// What mono's `mcs` makes of `class P { static int Main() { return 42; } }`, without the sections for resources and
/// relocations and the zeros behind the first.
pub(crate) static IMAGE: &[u8] = b"\
    MZ\x90\0\x03\0\0\0\x04\0\0\0\xFF\xFF\0\0\xB8\0\0\0\0\0\0\0@\0\0\0\0\0\0\0\0\0\0\0\0\0\0\0\0\0\0\0\0\0\0\0\0\
    \0\0\0\0\0\0\0\0\0\0\0\x80\0\0\0\x0E\x1F\xBA\x0E\0\xB4\x09\xCD!\xB8\x01L\xCD!This program cannot be run in D\
    OS mode.\x0D\x0D\x0A$\0\0\0\0\0\0\0PE\0\0L\x01\x01\0\0\0\0\0\0\0\0\0\0\0\0\0\xE0\0\x02\x01\x0B\x01\x08\0\0\
    \x04\0\0\0\x06\0\0\0\0\0\0\x9E\x22\0\0\0 \0\0\0@\0\0\0\0@\0\0 \0\0\0\x02\0\0\x04\0\0\0\0\0\0\0\x04\0\0\0\0\0\
    \0\0\0\x80\0\0\0\x02\0\0\0\0\0\0\x03\0@\x85\0\0\x10\0\0\x10\0\0\0\0\x10\0\0\x10\0\0\0\0\0\0\x10\0\0\0\0\0\0\
    \0\0\0\0\0P\x22\0\0K\0\0\0\0@\0\0\xC8\x02\0\0\0\0\0\0\0\0\0\0\0\0\0\0\0\0\0\0\0`\0\0\x0C\0\0\0\0\0\0\0\0\0\0\
    \0\0\0\0\0\0\0\0\0\0\0\0\0\0\0\0\0\0\0\0\0\0\0\0\0\0\0\0\0\0\0\0\0\0\0\0\0\0\0\0\0\0 \0\0\x08\0\0\0\0\0\0\0\
    \0\0\0\0\x08 \0\0H\0\0\0\0\0\0\0\0\0\0\0.text\0\0\0\xA4\x02\0\0\0 \0\0\xA4\x02\0\0\0\x02\0\0\0\0\0\0\0\0\0\0\
    \0\0\0\0 \0\0`\0\0\0\0\0\0\0\0\0\0\0\0\0\0\0\0\0\0\0\0\0\0\0\0\0\0\0\0\0\0\0\0\0\0\0\0\0\0\0\0\0\0\0\0\0\0\0\
    \0\0\0\0\0\0\0\0\0\0\0\0\0\0\0\0\0\0\0\0\0\0\0\0\0\0\0\0\0\0\0\0\0\0\0\0\0\0\0\0\0\0\0\0\0\0\0\0\0\x80\x22\0\
    \0\0\0\0\0H\0\0\0\x02\0\x05\0\x5C \0\0\xF0\x01\0\0\x01\0\0\0\x02\0\0\x06\0\0\0\0\0\0\0\0\0\0\0\0\0\0\0\0\0\0\
    \0\0\0\0\0\0\0\0\0\0\0\0\0\0\0\0\0\0\0\0\0\0\0\0\0\0\0\0\0\0\x1E\x02(\x01\0\0\x0A*\x0E\x1F**BSJB\x01\0\x01\0\
    \0\0\0\0\x0C\0\0\0v4.0.30319\0\0\0\0\x05\0l\0\0\0\xC4\0\0\0#~\0\00\x01\0\0t\0\0\0#Strings\0\0\0\0\xA4\x01\0\
    \0\x08\0\0\0#US\0\xAC\x01\0\0\x10\0\0\0#GUID\0\0\0\xBC\x01\0\04\0\0\0#Blob\0\0\0\0\0\0\0\x02\0\0\x10G\x14\0\
    \0\x09\0\0\0\0\xFA\x013\0\x16\0\0\x01\0\0\0\x02\0\0\0\x02\0\0\0\x02\0\0\0\x02\0\0\0\x01\0\0\0\x01\0\0\0\x01\
    \0\0\0\0\0n\0\x01\0\0\0\0\0\x06\0\x0C\0\x13\0\x06\0'\0E\0\0\0\0\0\x01\0\0\0\0\0\x01\0\x01\0\0\0\x10\0\x0A\0\
    \0\0\x05\0\x01\0\x01\0P \0\0\0\0\x86\x18\x1A\0\x01\0\x01\0X \0\0\0\0\x91\0 \0\x05\0\x01\0\x09\0\x1A\0\x01\0\
    \x11\0\x1A\0\x01\0.\0\x13\0\x09\0\x04\x80\0\0\0\0\0\0\0\0\0\0\0\0\0\0\0\0%\0\0\0\x04\0\0\0\0\0\0\0\0\0\0\0(\
    \0e\0\0\0\0\0\0\0\0<Module>\0P\0Object\0System\0.ctor\0Main\0p\0RuntimeCompatibilityAttribute\0System.Runtim\
    e.CompilerServices\0mscorlib\0p.exe\0\0\x03 \0\0\0\0\0\xBDc\xD7\xE3\xBD\x8CPL\xAEA;fM\xDA\x97\x05\0\x03 \0\
    \x01\x03\0\0\x08\x1E\x01\0\x01\0T\x02\x16WrapNonExceptionThrows\x01\x08\xB7z\x5CV\x194\xE0\x89\0\0\0\0\0\0\0\
    x\x22\0\0\0\0\0\0\0\0\0\0\x8E\x22\0\0\0 \0\0\0\0\0\0\0\0\0\0\0\0\0\0\0\0\0\0\0\0\0\0\x80\x22\0\0\0\0\0\0\0\0\
    _CorExeMain\0mscoree.dll\0\0\0\0\0\xFF%\0 @\0";

fn refusal(bytes: &[u8]) -> Option<PeFault> {
    if bytes.len() > 4096 {
        return None;
    }
    match open_image(bytes) {
        Ok(_) => None,
        Err(fault) => Some(fault),
    }
}

/// The refusal of the image with one byte changed.
fn changed(alloc: Global, at: usize, byte: u8) -> Result<Option<PeFault>, AllocError> {
    let mut file = Vec::from_slice(alloc, IMAGE)?;
    if at < file.len() {
        file[at] = byte;
    }
    Ok(refusal(file.as_slice()))
}

/// The sizes of the streams are those that another reader finds; `monodis` tells the entry and the body of `Main`.
#[test]
fn opens_an_image(rt: HostRuntime) {
    if IMAGE.len() <= 4096
        && let Ok(image) = open_image(IMAGE)
    {
        let sizes = [
            image.tables.len(),
            image.strings.len(),
            image.user.len(),
            image.guid.len(),
            image.blob.len(),
        ];
        assert_eq!(rt; sizes, [196, 116, 8, 16, 52]);
        assert_eq!(rt; image.entry, 0x0600_0002);
        assert_eq!(rt;
            image
                .at(0x2058)
                .map(|body| body.starts_with(b"\x0E\x1F\x2A\x2A")),
            Some(true)
        );
        assert_eq!(rt; image.at(0x22A3).map(|bytes| bytes.len()), Some(1));
        assert_eq!(rt; image.at(0x22A4), None);
        assert_eq!(rt; image.at(0x1FFF), None);
    } else {
        assert!(rt; false);
    }
}

/// Each prefix ends within another header.
#[test]
fn refuses_prefixes(rt: HostRuntime) {
    for (size, fault) in [
        (63, PeFault::NotPe),
        (130, PeFault::Cut(128)),
        (140, PeFault::Cut(132)),
        (153, PeFault::Cut(152)),
        (300, PeFault::Cut(152)),
        (400, PeFault::Cut(376)),
        (1187, PeFault::Cut(512)),
    ] {
        if size <= IMAGE.len() {
            assert_eq!(rt; refusal(&IMAGE[..size]), Some(fault));
        }
    }
}

/// One byte each: "MZ", the place of "PE", "PE", the magic, the number of directories, the CLI header's address, its
/// flags, the metadata's size, "BSJB", a section's place, and the size and the name of the stream of the tables.
#[test]
fn refuses_changes(rt: HostRuntime) -> Result<(), std::test::Fail> {
    for (at, byte, fault) in [
        (0, 0x4C, PeFault::NotPe),
        (61, 0x10, PeFault::Cut(4224)),
        (128, 0x51, PeFault::NotPe),
        (152, 0x0C, PeFault::NotPe),
        (244, 14, PeFault::NoCliHeader),
        (361, 0x90, PeFault::NoCliHeader),
        (536, 0, PeFault::NoCliHeader),
        (533, 0x09, PeFault::Cut(604)),
        (604, 0x41, PeFault::NoCliHeader),
        (397, 0x03, PeFault::Cut(768)),
        (641, 0x09, PeFault::Cut(712)),
        (645, 0x2D, PeFault::NoCliHeader),
    ] {
        assert_eq!(rt; changed(rt.alloc(), at, byte)?, Some(fault));
    }
    Ok(())
}
