//! Calls of `ilc` over files in memory, in rows: the words of a call or a body in hexadecimal digits, and behind the
//! equals sign the status, with the line of error text where there is one.
use crate::ilc;
use ilc_io::{MemFiles, MemSink, MemSource};
use num_core::{List, Text};
use std::alloc::Global;
use std::process::Abort;
use std::test::Fail;

/// Bodies, and the status that the program built of each ends with: the low byte of a constant in each form, of sums,
/// differences and products, and of what is decided by branches.
static ENDED: &str = "\
0A152A = 255
0A162A = 0
0A1E2A = 8
0E1F802A = 128
1A20FFFFFF7F2A = 255
1A20000000802A = 0
1A20393000002A = 57
2220FFFFFF7F17582A = 0
121817592A = 1
121718592A = 255
1E001D1826255A2A = 49
421717171717171717585858585858582A = 8
26172D031F0A2A1F142A = 20
26162D031F0A2A1F142A = 10
32173A030000001F0A2A1F142A = 20
2A2B031F072A38F8FFFFFF = 7
12172A142A = 1
0E172A00 = 1
2E20000000802D02162A172A = 1
36200000008025582D02162A172A = 0
2A172558251F40592DF82A = 64
";

/// Bodies that are refused: headers, opcodes, targets and control past the end, opcodes that aren't compiled, and
/// stacks that don't fit.
static REFUSED: &str = "\
0E1F2A = 65 ilc: 9 BadHeader F 3
0E1F2A2A00 = 65 ilc: 9 BadHeader F 4
0A242A = 65 ilc: 10 BadOpcode [body]Body::Main()->System.Int32 0
0E17202A = 65 ilc: 10 BadOpcode [body]Body::Main()->System.Int32 1
06FE = 65 ilc: 10 BadOpcode [body]Body::Main()->System.Int32 0
122B05242A = 65 ilc: 10 BadOpcode [body]Body::Main()->System.Int32 2
0A2B01 = 65 ilc: 11 BadTarget [body]Body::Main()->System.Int32 0
122B011F2A = 65 ilc: 11 BadTarget [body]Body::Main()->System.Int32 0
12172A2B05 = 65 ilc: 11 BadTarget [body]Body::Main()->System.Int32 2
02 = 65 ilc: 11 BadTarget [body]Body::Main()->System.Int32 0
0A1F2A = 65 ilc: 11 BadTarget [body]Body::Main()->System.Int32 0
0E172DFD = 65 ilc: 11 BadTarget [body]Body::Main()->System.Int32 1
0A1400 = 65 ilc: 11 BadTarget [body]Body::Main()->System.Int32 1
0A142A = 69 ilc: 24 OpcodeOutside [body]Body::Main()->System.Int32 0
0E170A2A = 69 ilc: 24 OpcodeOutside [body]Body::Main()->System.Int32 1
162B012A142A = 69 ilc: 24 OpcodeOutside [body]Body::Main()->System.Int32 3
122614262A = 69 ilc: 24 OpcodeOutside [body]Body::Main()->System.Int32 1
062A = 70 ilc: 20 Unverified [body]Body::Main()->System.Int32 0
0E17582A = 70 ilc: 20 Unverified [body]Body::Main()->System.Int32 1
0E17172A = 70 ilc: 20 Unverified [body]Body::Main()->System.Int32 2
4A17171717171717171758585858585858582A = 70 ilc: 20 Unverified [body]Body::Main()->System.Int32 9
0E2D002A = 70 ilc: 20 Unverified [body]Body::Main()->System.Int32 0
1A172D0117172A = 70 ilc: 20 Unverified [body]Body::Main()->System.Int32 4
0E172BFD = 70 ilc: 20 Unverified [body]Body::Main()->System.Int32 0
 = 65 ilc: 9 BadHeader F 0
";

/// Words of which one is wrong or missing, and its index. Nothing is created.
static WRONG: &str = "\
build F = 64 ilc: usage 0
body = 64 ilc: usage 1
body -o OUT = 64 ilc: usage 3
body F -o = 64 ilc: usage 3
body F G -o OUT = 64 ilc: usage 2
body F -x OUT = 64 ilc: usage 2
body -o OUT F -o OUT = 64 ilc: usage 4
run = 64 ilc: usage 1
run F G = 64 ilc: usage 2
run -v = 64 ilc: usage 1
run --count = 64 ilc: usage 2
run a --steps 07 = 64 ilc: usage 3
run a --steps = 64 ilc: usage 3
run --steps +5 a = 64 ilc: usage 2
run --steps 9223372036854775808 a = 64 ilc: usage 2
run --steps 5 a --steps 6 = 64 ilc: usage 4
dis = 64 ilc: usage 1
dis F G = 64 ilc: usage 2
dis -o F = 64 ilc: usage 1
asm F = 64 ilc: usage 2
asm F G -o OUT = 64 ilc: usage 2
 = 64 ilc: usage 0
run OUT = 66 ilc: nofile OUT
";

/// Files: the four bytes of the first program, a branch to itself, and an executable file of three times
/// addi x0, x0, 0; addi a0, x0, 7; addi a7, x0, 93; ecall, which takes six steps, whole and cut to 63 bytes.
static FILES: &str = "\
F 0E1F2A2A
LOOP 0A2BFE
SIX 7F454C460201010000000000000000000200F300010000007800010000000000400000000000000000000000000000000000\
    0000400038000100000000000000010000000500000000000000000000000000010000000000000001000000000090000000\
    0000000090000000000000000010000000000000130000001300000013000000130570009308D00573000000
CUT 7F454C460201010000000000000000000200F300010000007800010000000000400000000000000000000000000000000000\
    00004000380001000000000000
";

/// Calls in a row.
static CALLS: &str = "\
body G -o OUT = 66 ilc: nofile G
run OUT = 66 ilc: nofile OUT
body F -o OUT = 0
run OUT = 42
run OUT --steps 1 = 124 ilc: 21 Spent 1
body LOOP -o OUT = 0
run OUT --steps 1000 = 124 ilc: 21 Spent 1000
body -o OUT F = 0
run OUT = 42
run F --steps 0 = 65 ilc: 30 BadElf F 0
run CUT = 65 ilc: 30 BadElf CUT 0
run SIX --steps 5 = 124 ilc: 21 Spent 5
run --count --steps 6 SIX = 7 steps 6
dis F = 65 ilc: 1 NotPe F
dis G = 66 ilc: nofile G
asm F -o OUT = 65 ilc: 31 BadText F 1 1
asm G -o OUT = 66 ilc: nofile G
";

/// The same where calls of the store fail, which are counted from 0: of size, of reading, of creating, of appending.
static FAILING: &str = "\
body F -o OUT = 74 ilc: read fault
body F -o OUT = 74 ilc: read fault
run OUT = 66 ilc: nofile OUT
body F -o OUT = 73 ilc: write fault
run OUT = 66 ilc: nofile OUT
body F -o OUT = 73 ilc: write fault
run OUT = 65 ilc: 30 BadElf OUT 0
";

static FAILING_CALLS: [u64; 4] = [0, 2, 6, 11];

/// An assembly by hand, of which `monodis` tells its name, its class and the code of its method.
static ASSEMBLY: &str = "\
    4D5A0000000000000000000000000000000000000000000000000000000000000000000000000000000000000000000000000000000000\
    000000000040000000504500004C010100000000000000000000000000E00002010B010800340100000000000000000000000000000020\
    00000000000000004000002000000002000004000000000000000400000000000000004000006001000000000000030000000000100000\
    10000000001000001000000000000010000000000000000000000000000000000000000000000000000000000000000000000000000000\
    00000000000000000000000000000000000000000000000000000000000000000000000000000000000000000000000000000000000000\
    000000000000000000000000000000000000000000002000004800000000000000000000002E7465787400000034010000002000003401\
    0000600100000000000000000000000000002000006048000000020005004C200000E80000000100000001000006000000000000000000\
    0000000000000000000000000000000000000000000000000000000000000000000000000000000E1F2A2A42534A420100010000000000\
    0C00000076342E302E33303331390000000004006000000058000000237E0000B80000001800000023537472696E677300000000D00000\
    00100000002347554944000000E00000000800000023426C6F620000000000000002000001450000000000000000000000000000000100\
    00000200000001000000000001000100000000000000000007000000000001000100010000001000000000000100010048200000000016\
    00120001000100006D2E657865003C4D6F64756C653E0050004D61696E00000102030405060708090A0B0C0D0E0F100003000008000000";

/// Its text.
static LISTING: &str = "\
.entry 100663297
.user x
.row 00 0 \"m.exe\" x0102030405060708090A0B0C0D0E0F10 x x
.row 02 0 \"<Module>\" \"\" 02:0 1 1
.row 02 1 \"P\" \"\" 02:0 1 1
.row 06 0 22 \"Main\" x000008 1
.body x0E
ldc.i4.s 42
ret
.end x
";

/// Texts, each behind its answer.
static TEXTS: &str = "\
0
.entry 0
.user x
=65 ilc: 31 BadText T 1 1
.row 99
=65 ilc: 31 BadText T 3 6
.entry 0
.user x
.row 99
=65 ilc: 31 BadText T 2 1
.entry 0
=65 ilc: 31 BadText T 2 8
.entry 0
.user x";

fn put(alloc: Global, files: &mut MemFiles, name: &str, digits: &str) -> Result<(), Fail> {
    let name = Text::new(alloc, name.as_bytes())?;
    let bytes = hex::decode(alloc, digits)?;
    files.put(&name, bytes.as_slice())?;
    Ok(())
}

fn words_of(alloc: Global, line: &str) -> Result<List<Text>, Fail> {
    let mut words = List::new(alloc);
    for word in line.split_whitespace() {
        words.push(Text::new(alloc, word.as_bytes())?)?;
    }
    Ok(words)
}

/// Whether a status and a text are those of the answer, whose line ends the text.
fn is_answer(status: u8, text: &[u8], answer: &str) -> bool {
    let (number, line) = answer.split_once(' ').unwrap_or((answer, ""));
    let is_line = match text {
        [] => line.is_empty(),
        [text @ .., b'\n'] => text == line.as_bytes(),
        _ => false,
    };
    is_line && number.parse::<u8>().ok() == Some(status)
}

/// Whether the call with these words prints this as output and answers so. The writes of error text with the numbers in
/// `failing` fail.
fn answers(
    alloc: Global,
    files: &mut MemFiles,
    line: &str,
    printed: &str,
    answer: &str,
    failing: &[u64],
) -> Result<bool, Fail> {
    let words = words_of(alloc, line)?;
    let mut input = MemSource::new(alloc, &[], &[])?;
    let mut out = MemSink::new(alloc, &[])?;
    let mut err = MemSink::new(alloc, failing)?;
    let status = ilc(
        alloc,
        words.as_slice(),
        files,
        &mut input,
        &mut out,
        &mut err,
    );
    Ok(out.bytes() == printed.as_bytes() && is_answer(status, err.bytes(), answer))
}

/// Each of the calls answers so.
fn all_answer(
    rt: &impl Abort,
    alloc: Global,
    calls: &str,
    failing_calls: &[u64],
    failing_lines: &[u64],
) -> Result<(), Fail> {
    let mut files = MemFiles::new(alloc, failing_calls)?;
    for row in FILES.lines() {
        let (name, digits) = row.split_once(' ').ok_or("no file")?;
        put(alloc, &mut files, name, digits)?;
    }
    for row in calls.lines() {
        let (words, answer) = row.split_once(" = ").ok_or("no answer")?;
        assert!(rt;
            answers(alloc, &mut files, words, "", answer, failing_lines)?,
            "{row}"
        );
    }
    Ok(())
}

/// Whether a body is built so, and what is there then runs so.
fn builds_and_runs(alloc: Global, digits: &str, built: &str, ran: &str) -> Result<bool, Fail> {
    let mut files = MemFiles::new(alloc, &[])?;
    put(alloc, &mut files, "F", digits)?;
    Ok(
        answers(alloc, &mut files, "body F -o OUT", "", built, &[])?
            && answers(alloc, &mut files, "run OUT", "", ran, &[])?,
    )
}

#[test]
fn ended_bodies(rt: HostRuntime) -> Result<(), Fail> {
    for row in ENDED.lines() {
        let (digits, status) = row.split_once(" = ").ok_or("no status")?;
        assert!(rt; builds_and_runs(rt.alloc(), digits, "0", status)?, "{row}");
    }
    Ok(())
}

/// Nothing is created where a body is refused.
#[test]
fn refused_bodies(rt: HostRuntime) -> Result<(), Fail> {
    for row in REFUSED.lines() {
        let (digits, line) = row.split_once(" = ").ok_or("no line")?;
        assert!(rt;
            builds_and_runs(rt.alloc(), digits, line, "66 ilc: nofile OUT")?,
            "{row}"
        );
    }
    Ok(())
}

#[test]
fn calls(rt: HostRuntime) -> Result<(), Fail> {
    all_answer(&rt, rt.alloc(), WRONG, &[], &[])?;
    all_answer(&rt, rt.alloc(), CALLS, &[], &[])?;
    all_answer(&rt, rt.alloc(), FAILING, &FAILING_CALLS, &[])?;
    all_answer(
        &rt,
        rt.alloc(),
        "run SIX --count = 73 ilc: write fault",
        &[],
        &[0],
    )
}

/// Whether the assembly with these digits is told so: its text, or why there is none.
fn is_listed(alloc: Global, digits: &str, text: &str, answer: &str) -> Result<bool, Fail> {
    let mut files = MemFiles::new(alloc, &[])?;
    put(alloc, &mut files, "M", digits)?;
    answers(alloc, &mut files, "dis M", text, answer, &[])
}

/// The text of an assembly, and of its first 400 bytes, in which the one section isn't whole.
#[test]
fn assemblies(rt: HostRuntime) -> Result<(), Fail> {
    assert!(rt; is_listed(rt.alloc(), ASSEMBLY, LISTING, "0")?);
    let front = ASSEMBLY.get(..800).ok_or("no front")?;
    assert!(rt; is_listed(rt.alloc(), front, "", "65 ilc: 3 Cut M 352")?);
    Ok(())
}

/// Whether a text is assembled so, and what is there then is told: where it is an image, as the same text.
fn is_assembled(alloc: Global, text: &str, answer: &str) -> Result<bool, Fail> {
    let mut files = MemFiles::new(alloc, &[])?;
    let name = Text::new(alloc, b"T")?;
    files.put(&name, text.as_bytes())?;
    let (told, told_answer) = if answer == "0" {
        (text, "0")
    } else {
        ("", "66 ilc: nofile OUT")
    };
    Ok(
        answers(alloc, &mut files, "asm T -o OUT", "", answer, &[])?
            && answers(alloc, &mut files, "dis OUT", told, told_answer, &[])?,
    )
}

#[test]
fn texts(rt: HostRuntime) -> Result<(), Fail> {
    for row in TEXTS.split('=') {
        let (answer, text) = row.split_once('\n').ok_or("no text")?;
        assert!(rt; is_assembled(rt.alloc(), text, answer)?, "{row}");
    }
    assert!(rt; is_assembled(rt.alloc(), LISTING, "0")?);
    Ok(())
}
