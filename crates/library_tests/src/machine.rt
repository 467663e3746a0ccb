ghost use Rattle.std.specs.Prelude.{◌<◌, ◌^◌, length};

use byteorder::{ByteOrder, LittleEndian};
use ilc_io::{MemSink, MemSource};
use num_core::{List, Memory};
use rv_step::{Cause, Machine, Ran, RunFault, Segment, Trap};
use std::alloc::Global;
use std::process::Abort;
use std::test::Fail;

/// A machine whose only segment begins at 0x10000, where it starts, and allows everything.
fn machine(alloc: Global, bytes: &[u8]) -> Result<Machine, Memory>
    requires { length bytes.now < 2 ^ 32 }
{
    let mut segments = List::new(alloc);
    let segment = Segment {
        at: 0x1_0000,
        bytes: List::from_slice(alloc, bytes)?,
        read: true,
        write: true,
        execute: true,
    };
    segments.push(segment).map_err(|_| Memory)?;
    Machine::new(alloc, segments, 0x1_0000)
}

/// How the run of code over this input comes out, and whether it writes these bytes. The reads and the writes with the
/// numbers that are given fail.
fn ran(
    alloc: Global,
    code: &[u8],
    input: &[u8],
    failing_reads: &[u64],
    failing_writes: &[u64],
    written: &[u8],
) -> Result<(Result<Ran, RunFault>, bool), Memory>
    requires { length code.now < 2 ^ 32 }
{
    let mut input = MemSource::new(alloc, input, failing_reads)?;
    let mut out = MemSink::new(alloc, failing_writes)?;
    let mut err = MemSink::new(alloc, &[])?;
    let ran = machine(alloc, code)?.run(&mut input, &mut out, &mut err, 99);
    Ok((ran, out.bytes() == written))
}

/// The first step of code: the status, if it is the end.
fn first_step(alloc: Global, bytes: &[u8]) -> Result<Option<u8>, Fail>
    requires { length bytes.now < 2 ^ 32 }
{
    let mut input = MemSource::new(alloc, &[], &[])?;
    let mut out = MemSink::new(alloc, &[])?;
    let mut err = MemSink::new(alloc, &[])?;
    Ok(machine(alloc, bytes)?.step(&mut input, &mut out, &mut err)?)
}

/// addi x10, x0, 1, which is no end, and ecall
static STEPS: [u8; 8] = [0x13, 0x05, 0x10, 0x00, 0x73, 0x00, 0x00, 0x00];

#[test]
fn goes_on(rt: HostRuntime) -> Result<(), Fail> {
    assert_eq!(rt; first_step(rt.alloc(), &STEPS)?, None);
    Ok(())
}

/// A word behind `addi x10, x0, 1`, and the trap that it makes.
static TRAPS: [(u32, u64, Cause); 5] = [
    (0x0000_0000, 0x1_0004, Cause::Illegal),
    // ecall
    (0x0000_0073, 0x1_0004, Cause::Call),
    // ld x10, 0(x0)
    (0x0000_3503, 0x1_0004, Cause::Load),
    // sd x10, 0(x0)
    (0x00a0_3023, 0x1_0004, Cause::Store),
    // jalr x0, 0(x0)
    (0x0000_0067, 0, Cause::Fetch),
];

#[test]
fn traps_at_its_pc(rt: HostRuntime) -> Result<(), Fail> {
    for (word, pc, cause) in &TRAPS {
        let mut code = STEPS;
        LittleEndian::write_u32(&mut code[4..], *word);
        let trap = Trap {
            pc: *pc,
            cause: *cause,
        };
        let (outcome, _) = ran(rt.alloc(), &code, &[], &[], &[], &[])?;
        assert!(rt; outcome == Err(RunFault::Trap(trap)), "{word:x}");
    }
    Ok(())
}

/// Instructions that make of x10 and x11 the number in x12.
const DIV: u32 = 0x02b5_4633;

const DIVU: u32 = 0x02b5_5633;

const REM: u32 = 0x02b5_6633;

const REMU: u32 = 0x02b5_7633;

const DIVW: u32 = 0x02b5_463b;

const DIVUW: u32 = 0x02b5_563b;

const REMW: u32 = 0x02b5_663b;

const REMUW: u32 = 0x02b5_763b;

const MULH: u32 = 0x02b5_1633;

const MULHSU: u32 = 0x02b5_2633;

const MULHU: u32 = 0x02b5_3633;

const MULW: u32 = 0x02b5_063b;

const SRA: u32 = 0x40b5_5633;

const SRAW: u32 = 0x40b5_563b;

const SRLW: u32 = 0x00b5_563b;

const SLLW: u32 = 0x00b5_163b;

const SUBW: u32 = 0x40b5_063b;

const SLT: u32 = 0x00b5_2633;

const SLTU: u32 = 0x00b5_3633;

/// The least number and -1, of 64 bits and of 32.
const LEAST: u64 = 0x8000_0000_0000_0000;

const ONES: u64 = 0xffff_ffff_ffff_ffff;

const LEAST_WORD: u64 = 0x8000_0000;

const EXTENDED: u64 = 0xffff_ffff_8000_0000;

/// An instruction, two numbers, and what it makes of them.
type Row = (u32, u64, u64, u64);

static DIVISIONS: [Row; 17] = [
    (DIV, 7, 0, ONES),
    (DIVU, ONES, 0, ONES),
    (REM, 7, 0, 7),
    (REMU, 7, 0, 7),
    (DIVUW, 7, 0, ONES),
    (DIV, LEAST, ONES, LEAST),
    (REM, LEAST, ONES, 0),
    (DIV, 0xffff_ffff_ffff_fff9, 2, 0xffff_ffff_ffff_fffd),
    (REM, 0xffff_ffff_ffff_fff9, 2, ONES),
    (DIVU, ONES, 2, 0x7fff_ffff_ffff_ffff),
    (DIVW, 7, 0x0001_0000_0000, ONES),
    (DIVUW, 0xffff_ffff, 1, ONES),
    (REMW, LEAST_WORD, 0, EXTENDED),
    (REMUW, 0xffff_ffff, 0, ONES),
    (DIVW, LEAST_WORD, ONES, EXTENDED),
    (REMW, LEAST_WORD, ONES, 0),
    (DIVW, LEAST_WORD, 1, EXTENDED),
];

static OTHERS: [Row; 13] = [
    (MULH, LEAST, LEAST, 0x4000_0000_0000_0000),
    (MULH, ONES, ONES, 0),
    (MULHSU, ONES, ONES, ONES),
    (MULHSU, LEAST, ONES, LEAST),
    (MULHU, ONES, ONES, 0xffff_ffff_ffff_fffe),
    (MULW, 0xffff, 0x0001_8000, 0x7ffe_8000),
    (SRA, LEAST, 0x7f, ONES),
    (SRAW, LEAST_WORD, 0x3f, ONES),
    (SRLW, LEAST_WORD, 0x20, EXTENDED),
    (SLLW, 1, 0x1f, EXTENDED),
    (SUBW, 0, 1, ONES),
    (SLT, LEAST, 0, 1),
    (SLTU, LEAST, 0, 0),
];

/// Makes x12 of the two numbers by the word, writes it, and ends with the number of bytes that were written.
fn program(word: u32, x: u64, y: u64) -> [u8; 64] {
    let mut bytes = [
        0xb7, 0x02, 0x01, 0x00, // lui x5, 0x10
        0x03, 0xb5, 0x02, 0x03, // ld x10, 48(x5)
        0x83, 0xb5, 0x82, 0x03, // ld x11, 56(x5)
        0x00, 0x00, 0x00, 0x00, // the word
        0x23, 0xb8, 0xc2, 0x02, // sd x12, 48(x5)
        0x13, 0x05, 0x10, 0x00, // addi x10, x0, 1
        0x93, 0x85, 0x02, 0x03, // addi x11, x5, 48
        0x13, 0x06, 0x80, 0x00, // addi x12, x0, 8
        0x93, 0x08, 0x00, 0x04, // addi x17, x0, 64
        0x73, 0x00, 0x00, 0x00, // ecall
        0x93, 0x08, 0xd0, 0x05, // addi x17, x0, 93
        0x73, 0x00, 0x00, 0x00, // ecall
        0, 0, 0, 0, 0, 0, 0, 0, 0, 0, 0, 0, 0, 0, 0, 0,
    ];
    LittleEndian::write_u32(&mut bytes[12..16], word);
    LittleEndian::write_u64(&mut bytes[48..56], x);
    LittleEndian::write_u64(&mut bytes[56..], y);
    bytes
}

/// Each instruction makes that of the two numbers.
fn give_so(rt: &impl Abort, alloc: Global, rows: &[Row]) -> Result<(), Memory> {
    for (word, x, y, wanted) in rows {
        let code = program(*word, *x, *y);
        let (outcome, is_written) = ran(alloc, &code, &[], &[], &[], &wanted.to_le_bytes())?;
        assert!(rt; is_written, "{word:x} of {x:x} and {y:x}");
        assert!(rt;
            outcome
                == Ok(Ran {
                    status: 8,
                    steps: 12
                })
        );
    }
    Ok(())
}

/// Division by zero and overflow are as in the table of the manual's chapter "M".
#[test]
fn extremes(rt: HostRuntime) -> Result<(), Fail> {
    give_so(&rt, rt.alloc(), &DIVISIONS)?;
    give_so(&rt, rt.alloc(), &OTHERS)?;
    Ok(())
}

/// Reads into the 8 bytes behind it, writes what was read, and ends with its length.
static COPY: [u8; 60] = [
    0xb7, 0x05, 0x01, 0x00, // lui x11, 0x10
    0x93, 0x85, 0x45, 0x03, // addi x11, x11, 52
    0x13, 0x06, 0x80, 0x00, // addi x12, x0, 8
    0x13, 0x05, 0x00, 0x00, // addi x10, x0, 0
    0x93, 0x08, 0xf0, 0x03, // addi x17, x0, 63
    0x73, 0x00, 0x00, 0x00, // ecall
    0x13, 0x06, 0x05, 0x00, // addi x12, x10, 0
    0x13, 0x05, 0x10, 0x00, // addi x10, x0, 1
    0x93, 0x08, 0x00, 0x04, // addi x17, x0, 64
    0x73, 0x00, 0x00, 0x00, // ecall
    0x13, 0x05, 0x06, 0x00, // addi x10, x12, 0
    0x93, 0x08, 0xd0, 0x05, // addi x17, x0, 93
    0x73, 0x00, 0x00, 0x00, // ecall
    0, 0, 0, 0, 0, 0, 0, 0,
];

#[test]
fn copies_its_input(rt: HostRuntime) -> Result<(), Fail> {
    let alloc = rt.alloc();
    let (short, is_written) = ran(alloc, &COPY, b"abc", &[], &[], b"abc")?;
    assert!(rt;
        is_written
            && short
                == Ok(Ran {
                    status: 3,
                    steps: 13
                })
    );
    let (long, is_written) = ran(alloc, &COPY, b"9876543210", &[], &[], b"98765432")?;
    assert!(rt;
        is_written
            && long
                == Ok(Ran {
                    status: 8,
                    steps: 13
                })
    );
    let (refused, _) = ran(alloc, &COPY, b"abc", &[1], &[], &[])?;
    assert!(rt; refused == Err(RunFault::ReadFault));
    let (refused, _) = ran(alloc, &COPY, b"abc", &[], &[0], &[])?;
    assert!(rt; refused == Err(RunFault::WriteFault));
    Ok(())
}
