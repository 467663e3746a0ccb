//! The text of an image that a C# compiler made. Rows, names and the code of `Main` are those that `monodis` tells.
use crate::images::IMAGE;
use il_text::list;
use md_tables::read_tables;
use pe_image::open_image;
use std::alloc::Global;

pub(crate) static TEXT: &str = r#".entry 100663298
.user x0003200000000000
.row 00 0 "p.exe" xBD63D7E3BD8C504CAE413B664DDA9705 x x
.row 01 23:1 "Object" "System"
.row 01 23:1 "RuntimeCompatibilityAttribute" "System.Runtime.CompilerServices"
.row 02 0 "<Module>" "" 02:0 1 1
.row 02 1048576 "P" "" 01:1 1 1
.row 06 0 6278 ".ctor" x200001 1
.body x1E
ldarg.0
call #0A000001
ret
.end x
.row 06 0 145 "Main" x000008 1
.body x0E
ldc.i4.s 42
ret
.end x
.row 0A 01:1 ".ctor" x200001
.row 0A 01:2 ".ctor" x200001
.row 0C 20:1 0A:2 x01000100540216577261704E6F6E457863657074696F6E5468726F777301
.row 20 32772 0 0 0 0 0 x "p" ""
.row 23 4 0 0 0 0 xB77A5C561934E089 "mscorlib" "" x
"#;

/// Whether the image is listed as a text.
fn is_listed(alloc: Global, image: &[u8], text: &str) -> bool {
    if image.len() > 4096 {
        return false;
    }
    let Ok(image) = open_image(image) else {
        return false;
    };
    let Ok(read) = read_tables(alloc, &image) else {
        return false;
    };
    match list(alloc, &read) {
        Ok(listed) => listed.as_slice() == text.as_bytes(),
        Err(_) => false,
    }
}

#[test]
fn lists_an_image(rt: HostRuntime) {
    let listed = is_listed(rt.alloc(), IMAGE, TEXT);
    assert!(rt; listed);
}
