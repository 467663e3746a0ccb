//! Texts that are modules, and the line and the column at which others are refused: by the form of texts
//! (docs/TEXT_FORM.md) and, for bodies and opcodes, ECMA-335 II.25.4 and III.
use crate::listings::TEXT;
use il_text::{IlTextFault, assemble, list};
use num_core::{Bytes, List};
use std::alloc::Global;
use std::test::Fail;

/// What comes of a text, and the text, in which a semicolon stands for the end of a line.
static ROWS: &str = r#"1 1|.row 99;
3 6|.entry 0;.user x;.row 99;
module|.entry 0;.user x;
1 1|
2 1|.entry 0;
1 9|.entry 0
1 7|.entry;.user x;
1 8|.entry 00;
1 8|.entry -0;
1 8|.entry 4294967296;
1 10|.entry 0 1;
module|// a module;  .entry 0 // its token;;.user x;
1 10|.entry 0 // é;
2 7|.entry 0;.user xab;
module|.entry 0;.user x;.row 00 0 "a//b" x x x;
3 15|.entry 0;.user x;.row 00 0 "a" x00 x x;
3 11|.entry 0;.user x;.row 00 0 "\FF" x x x;
3 11|.entry 0;.user x;.row 00 0 "\00" x x x;
3 11|.entry 0;.user x;.row 00 0 "\41" x x x;
3 9|.entry 0;.user x;.row 00 65536 "" x x x;
4 10|.entry 0;.user x;.row 00 0 "" x x x;.row 04 0;
4 6|.entry 0;.user x;.row 08 0 1 "";.row 04 0 "" x;
3 6|.entry 0;.user x;.row 0D 00:0 x;
3 9|.entry 0;.user x;.row 01 02:0 "" "";
3 9|.entry 0;.user x;.row 01 23:1 "" "";
4 22|.entry 0;.user x;.row 02 0 "" "" 02:0 1 1;.row 02 0 "" "" 02:0 0 1;
module|.entry 0;.user x;.row 1D x01 0;
module|.entry 0;.user x;.row 06 0 0 "m" x 1;.body x06;ret;.end x;
4 1|.entry 0;.user x;.row 06 0 0 "m" x 1;.body x0A;ret;.end x;
6 1|.entry 0;.user x;.row 06 0 0 "m" x 1;.body x06;ret;
module|.entry 0;.user x;.row 06 0 0 "m" x 1;.body x0A;ldc.i4.s -128;.end x;
5 10|.entry 0;.user x;.row 06 0 0 "m" x 1;.body x0A;ldc.i4.s 128;.end x;
5 10|.entry 0;.user x;.row 06 0 0 "m" x 1;.body x0A;ldc.i4.s -0;.end x;
module|.entry 0;.user x;.row 06 0 0 "m" x 1;.body x0A;br.s 129;.end x;
5 6|.entry 0;.user x;.row 06 0 0 "m" x 1;.body x0A;br.s 130;.end x;
5 5|.entry 0;.user x;.row 06 0 0 "m" x 1;.body x06;.op x00;.end x;
module|.entry 0;.user x;.row 06 0 0 "m" x 1;.body x16;.op x22CDCC8C3F;.end x;
module|.entry 0;.user x;.row 06 0 0 "m" x 1;.body x26;switch 1 5;.end x;
5 11|.entry 0;.user x;.row 06 0 0 "m" x 1;.body x26;switch 2 5;.end x;
module|.entry 0;.user x;.row 06 0 0 "m" x 1;.body x06;.code x2A;.end x;
6 1|.entry 0;.user x;.row 06 0 0 "m" x 1;.body x06;.code x2A;ret;.end x;
"#;

/// The text of a row.
fn text_of(alloc: Global, row: &str) -> Result<Bytes, Fail> {
    let mut text = List::new(alloc);
    for byte in row.as_bytes() {
        text.push(if *byte == b';' { b'\n' } else { *byte })?;
    }
    Ok(text)
}

/// What comes of a text.
fn told(alloc: Global, text: &[u8]) -> Result<String, Fail> {
    match assemble(alloc, text) {
        Ok(_) => Ok(String::from_str(alloc, "module")?),
        Err(IlTextFault::BadText(line, column)) => Ok(format!(in alloc; "{line} {column}")?),
        Err(IlTextFault::Memory) => Ok(String::from_str(alloc, "memory")?),
    }
}

#[test]
fn texts_are_modules_or_refused(rt: HostRuntime) -> Result<(), Fail> {
    for row in ROWS.lines() {
        if let Some((expected, text)) = row.split_once("|") {
            let text = text_of(rt.alloc(), text)?;
            let found = told(rt.alloc(), text.as_slice())?;
            assert_eq!(rt; found.as_str(), expected);
        }
    }
    Ok(())
}

/// Whether the module that a text means is listed as the text.
fn is_listed_again(alloc: Global, text: &str) -> bool {
    let Ok(read) = assemble(alloc, text.as_bytes()) else {
        return false;
    };
    match list(alloc, &read) {
        Ok(listed) => listed.as_slice() == text.as_bytes(),
        Err(_) => false,
    }
}

#[test]
fn assembles_a_listing(rt: HostRuntime) {
    let listed = is_listed_again(rt.alloc(), TEXT);
    assert!(rt; listed);
}
