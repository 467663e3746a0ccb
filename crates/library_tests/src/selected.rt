use elf_file::{load_elf, write_elf};
use ilc_io::{MemSink, MemSource};
use image_plan::{CodePiece, Pieces, TablePiece, is_placeable, place};
use lir_core::{
    Argument, BinaryOperation, Block, Callee, CheckedOperation, DivisionPart, LirBody, LirOp,
    Place, Test, check,
};
use num_core::{Bounds, Bytes, Fix, FixKind, Kind, List, Memory, Narrow};
use rt_code::Routine;
use rv_gen::select;
use rv_step::Machine;
use std::alloc::Global;
use std::process::Abort;
use std::test::Fail;
use ty_terms::{MethodId, MethodName, PartKind, Primitive, Ty};

/// How many bytes of heap and, mostly, of stack a program may use.
const HEAP_BOUND: u64 = 0x800;

const STACK_BOUND: u64 = 0x1000;

/// What the first body gets as its argument.
const ARGUMENT: u64 = 263;

// ---- programs

/// A body with slots 0 to 23.
fn body(alloc: Global, vars: &[u32], ops: List<LirOp>) -> Result<LirBody, Memory> {
    Ok(LirBody {
        ops,
        frame: 320,
        marks: List::new(alloc),
        vars: List::from_slice(alloc, vars)?,
    })
}

fn add(ops: &mut List<LirOp>, op: LirOp) -> Result<(), Memory> {
    ops.push(op).map_err(|_| Memory)
}

fn constant(ops: &mut List<LirOp>, to: u32, value: i64) -> Result<(), Memory> {
    add(ops, LirOp::Constant { to, value })
}

fn binary(
    ops: &mut List<LirOp>,
    operation: BinaryOperation,
    to: u32,
    left: u32,
    right: u32,
) -> Result<(), Memory> {
    add(
        ops,
        LirOp::Binary {
            operation,
            kind: Kind::I4,
            to,
            left,
            right,
        },
    )
}

fn call_routine(
    alloc: Global,
    ops: &mut List<LirOp>,
    which: Routine,
    arguments: &[u32],
    to: Option<u32>,
) -> Result<(), Memory> {
    let number = which.number();
    let arguments = List::from_slice(alloc, arguments)?;
    add(
        ops,
        LirOp::Routine {
            number,
            arguments,
            result: to,
        },
    )
}

/// A call of the body of a number with the word of a slot, whose result is a word.
fn call(alloc: Global, ops: &mut List<LirOp>, item: u32, from: u32, to: u32) -> Result<(), Memory> {
    let arguments = List::from_slice(
        alloc,
        &[Argument {
            from,
            to: 8,
            words: 1,
        }],
    )?;
    add(
        ops,
        LirOp::Call {
            callee: Callee::Body(item),
            dictionary: None,
            arguments,
            cleared: Block { slot: 0, words: 0 },
            result: Block { slot: to, words: 1 },
        },
    )
}

fn give_back(ops: &mut List<LirOp>, slot: u32) -> Result<(), Memory> {
    let result = Block { slot, words: 1 };
    add(ops, LirOp::Return { result })
}

/// Reads bytes to the end of the input, writes each, and returns how many there were.
fn echoes(alloc: Global) -> Result<LirBody, Memory> {
    let mut ops = List::new(alloc);
    constant(&mut ops, 9, 0)?;
    constant(&mut ops, 10, -1)?;
    call_routine(alloc, &mut ops, Routine::ReadByte, &[], Some(8))?;
    let at_end = LirOp::Branch {
        test: Test::Equal,
        kind: Kind::I8,
        left: 8,
        right: 10,
        label: 8,
    };
    add(&mut ops, at_end)?;
    call_routine(alloc, &mut ops, Routine::WriteByte, &[8], None)?;
    constant(&mut ops, 11, 1)?;
    binary(&mut ops, BinaryOperation::Add, 9, 9, 11)?;
    add(&mut ops, LirOp::Jump { label: 2 })?;
    give_back(&mut ops, 9)?;
    body(alloc, &[8, 9], ops)
}

/// Calls the next body with a number, and returns what it gives.
fn calls_with(alloc: Global, value: i64) -> Result<LirBody, Memory> {
    let mut ops = List::new(alloc);
    constant(&mut ops, 9, value)?;
    call(alloc, &mut ops, 1, 9, 10)?;
    give_back(&mut ops, 10)?;
    body(alloc, &[9], ops)
}

/// The n-th Fibonacci number, by two calls of itself.
fn fibonacci(alloc: Global) -> Result<LirBody, Memory> {
    let mut ops = List::new(alloc);
    constant(&mut ops, 11, 2)?;
    let small = LirOp::Branch {
        test: Test::Less,
        kind: Kind::I4,
        left: 8,
        right: 11,
        label: 9,
    };
    add(&mut ops, small)?;
    constant(&mut ops, 12, 1)?;
    binary(&mut ops, BinaryOperation::Subtract, 9, 8, 12)?;
    call(alloc, &mut ops, 1, 9, 10)?;
    binary(&mut ops, BinaryOperation::Subtract, 9, 8, 11)?;
    call(alloc, &mut ops, 1, 9, 13)?;
    binary(&mut ops, BinaryOperation::Add, 10, 10, 13)?;
    give_back(&mut ops, 10)?;
    give_back(&mut ops, 8)?;
    body(alloc, &[8, 9, 10], ops)
}

/// Has variables 1, 2, .., calls the next body with a number, and returns their sum.
fn keeps_variables(alloc: Global, vars: &[u32], calls: bool) -> Result<LirBody, Memory> {
    let mut ops = List::new(alloc);
    let mut value = 0;
    for var in vars {
        value = i64::saturating_add(value, 1);
        constant(&mut ops, *var, value)?;
    }
    constant(&mut ops, 20, 0)?;
    if calls {
        call(alloc, &mut ops, 1, 20, 21)?;
    }
    for var in vars {
        binary(&mut ops, BinaryOperation::Add, 20, 20, *var)?;
    }
    give_back(&mut ops, 20)?;
    body(alloc, vars, ops)
}

/// Calls itself for ever.
fn never_ends(alloc: Global) -> Result<LirBody, Memory> {
    let mut ops = List::new(alloc);
    call(alloc, &mut ops, 0, 8, 9)?;
    give_back(&mut ops, 9)?;
    body(alloc, &[8], ops)
}

/// Counts down from 3 in a loop that is longer than a branch can reach, and returns 40 and what is left.
fn long_loop(alloc: Global) -> Result<LirBody, Memory> {
    let mut ops = List::new(alloc);
    constant(&mut ops, 8, 3)?;
    constant(&mut ops, 9, 1)?;
    constant(&mut ops, 10, 40)?;
    for _ in 0..400 {
        constant(&mut ops, 11, 0x1234_5678_9abc_def0)?;
    }
    binary(&mut ops, BinaryOperation::Subtract, 8, 8, 9)?;
    add(&mut ops, LirOp::BranchUnlessZero { value: 8, label: 3 })?;
    binary(&mut ops, BinaryOperation::Add, 10, 10, 8)?;
    give_back(&mut ops, 10)?;
    body(alloc, &[8, 9], ops)
}

/// Adds 1 to the greatest int32, and divides by 0: returns 7 where both go to their labels.
fn refuses(alloc: Global) -> Result<LirBody, Memory> {
    let mut ops = List::new(alloc);
    constant(&mut ops, 8, 0x7fff_ffff)?;
    constant(&mut ops, 9, 1)?;
    constant(&mut ops, 10, 0)?;
    let sum = LirOp::Checked {
        operation: CheckedOperation::Add,
        kind: Kind::I4,
        to: 8,
        left: 8,
        right: 9,
        overflow: 5,
    };
    add(&mut ops, sum)?;
    give_back(&mut ops, 9)?;
    let quotient = LirOp::Divide {
        part: DivisionPart::Quotient,
        kind: Kind::I4,
        to: 9,
        left: 8,
        right: 10,
        zero: 7,
        overflow: 4,
    };
    add(&mut ops, quotient)?;
    give_back(&mut ops, 9)?;
    constant(&mut ops, 9, 0x8000_0000)?;
    add(&mut ops, LirOp::Move { to: 10, from: 8 })?;
    constant(&mut ops, 11, 7)?;
    give_back(&mut ops, 11)?;
    body(alloc, &[8], ops)
}

/// Copies 19 bytes of slots by their addresses, and returns the 16 bits at the last two.
fn moves_bytes(alloc: Global) -> Result<LirBody, Memory> {
    let mut ops = List::new(alloc);
    add(
        &mut ops,
        LirOp::Clear {
            to: Place::Slot {
                slot: 12,
                offset: 0,
            },
            bytes: 48,
        },
    )?;
    constant(&mut ops, 8, -2)?;
    let last = Place::Slot {
        slot: 14,
        offset: 1,
    };
    let store = LirOp::Store {
        to: last,
        from: 8,
        narrow: Narrow::I2,
    };
    add(&mut ops, store)?;
    add(&mut ops, LirOp::SlotAddress { to: 9, slot: 12 })?;
    add(&mut ops, LirOp::SlotAddress { to: 10, slot: 15 })?;
    let copy = LirOp::Copy {
        to: Place::Flat {
            base: 10,
            offset: 0,
        },
        from: Place::Flat { base: 9, offset: 0 },
        bytes: 19,
    };
    add(&mut ops, copy)?;
    let load = LirOp::Load {
        to: 11,
        from: Place::Slot {
            slot: 17,
            offset: 1,
        },
        narrow: Narrow::I2,
    };
    add(&mut ops, load)?;
    give_back(&mut ops, 11)?;
    body(alloc, &[8, 9], ops)
}

/// Gives 7 and 5 to the next body, has both cleared, and returns its result with what it has then in their slots.
fn clears_what_it_gave(alloc: Global) -> Result<LirBody, Memory> {
    let mut ops = List::new(alloc);
    constant(&mut ops, 8, 7)?;
    constant(&mut ops, 9, 5)?;
    let arguments = List::from_slice(
        alloc,
        &[Argument {
            from: 8,
            to: 8,
            words: 2,
        }],
    )?;
    let call = LirOp::Call {
        callee: Callee::Body(1),
        dictionary: None,
        arguments,
        cleared: Block { slot: 8, words: 2 },
        result: Block { slot: 10, words: 1 },
    };
    add(&mut ops, call)?;
    binary(&mut ops, BinaryOperation::Add, 10, 10, 8)?;
    binary(&mut ops, BinaryOperation::Add, 10, 10, 9)?;
    give_back(&mut ops, 10)?;
    body(alloc, &[], ops)
}

/// Returns the difference of its arguments.
fn subtracts(alloc: Global) -> Result<LirBody, Memory> {
    let mut ops = List::new(alloc);
    binary(&mut ops, BinaryOperation::Subtract, 8, 8, 9)?;
    give_back(&mut ops, 8)?;
    body(alloc, &[8, 9], ops)
}

/// Moves the second to fourth int32 of slots 8 and 9, which are 5, 7 and 9, to the first to third, and returns the sum
/// of these.
fn moves_down(alloc: Global) -> Result<LirBody, Memory> {
    let mut ops = List::new(alloc);
    constant(&mut ops, 8, 0x5_0000_0001)?;
    constant(&mut ops, 9, 0x9_0000_0007)?;
    let copy = LirOp::Copy {
        to: Place::Slot { slot: 8, offset: 0 },
        from: Place::Slot { slot: 8, offset: 4 },
        bytes: 12,
    };
    add(&mut ops, copy)?;
    constant(&mut ops, 11, 0)?;
    for offset in [0, 4, 8] {
        let load = LirOp::Load {
            to: 10,
            from: Place::Slot { slot: 8, offset },
            narrow: Narrow::I4,
        };
        add(&mut ops, load)?;
        binary(&mut ops, BinaryOperation::Add, 11, 11, 10)?;
    }
    give_back(&mut ops, 11)?;
    body(alloc, &[], ops)
}

/// Returns its argument.
fn returns_its_argument(alloc: Global) -> Result<LirBody, Memory> {
    let mut ops = List::new(alloc);
    give_back(&mut ops, 8)?;
    body(alloc, &[8], ops)
}

// ---- linking

/// Memory that is filled from its begin on, the begins of routines and of bodies, and what takes an address.
/// A method for bodies of no assembly.
fn method(alloc: Global) -> MethodName {
    MethodName {
        owner: Ty::Prim(Primitive::Object),
        method: MethodId { module: 0, row: 1 },
        args: List::new(alloc),
    }
}

/// Adds the code of a body, if it is sound.
fn add_body(alloc: Global, code: &mut List<CodePiece>, body: &LirBody) -> Result<(), Memory> {
    if !check(body) || code.len() >= 100 {
        return Ok(());
    }
    let number = code.len() as u32;
    let piece = CodePiece {
        method: method(alloc),
        nodes: List::from_slice(alloc, &[number])?,
        code: select(alloc, body)?,
    };
    code.push(piece).map_err(|_| Memory)
}

/// What the runtime finds the first body by: its address, its argument, and how far behind the heap begins.
fn root(alloc: Global) -> Result<TablePiece, Memory> {
    let mut bytes = List::new(alloc);
    for number in [0, ARGUMENT, 24] {
        bytes.extend_from_slice(&number.to_le_bytes())?;
    }
    let first = Fix {
        at: 0,
        kind: FixKind::Code,
        item: 0,
    };
    Ok(TablePiece {
        kind: PartKind::Table,
        nodes: List::from_slice(alloc, &[0])?,
        gives: List::new(alloc),
        bytes,
        fixes: List::from_slice(alloc, &[first])?,
    })
}

/// What the image of a program is made of.
fn pieces(alloc: Global, bodies: &[LirBody]) -> Result<Pieces, Memory> {
    let mut code = List::new(alloc);
    for body in bodies {
        add_body(alloc, &mut code, body)?;
    }
    let mut tables = List::new(alloc);
    tables.push(root(alloc)?).map_err(|_| Memory)?;
    Ok(Pieces {
        root: 0,
        code,
        tables,
    })
}

/// Bounds with few bytes of stack, or as many as mostly.
fn bounds(few: bool) -> Bounds {
    let heap = HEAP_BOUND;
    if few {
        Bounds { heap, stack: 304 }
    } else {
        Bounds {
            heap,
            stack: STACK_BOUND,
        }
    }
}

/// The executable file of a program.
fn file(alloc: Global, bodies: &[LirBody], bounds: Bounds) -> Result<Bytes, Memory> {
    let pieces = pieces(alloc, bodies)?;
    if !is_placeable(&pieces) {
        return Err(Memory);
    }
    match place(alloc, &pieces, bounds) {
        Ok(plan) => write_elf(alloc, &plan.layout),
        Err(_) => Err(Memory),
    }
}

/// The machine that runs a program.
fn machine(alloc: Global, bodies: &[LirBody], few: bool) -> Result<Machine, Fail> {
    let file = file(alloc, bodies, bounds(few))?;
    Ok(load_elf(alloc, file.as_slice())?)
}

/// Whether a program, with few bytes of stack or not, ends with this status, this output and this error text.
fn comes_to(
    alloc: Global,
    bodies: List<LirBody>,
    few: bool,
    input: &[u8],
    status: u8,
    output: &[u8],
    error: &[u8],
) -> Result<bool, Fail> {
    let mut m = machine(alloc, bodies.as_slice(), few)?;
    let mut input = MemSource::new(alloc, input, &[])?;
    let mut out = MemSink::new(alloc, &[])?;
    let mut err = MemSink::new(alloc, &[])?;
    let ran = m.run(&mut input, &mut out, &mut err, 100_000);
    let ended = match ran {
        Ok(ran) => ran.status == status,
        Err(_) => false,
    };
    Ok(ended && out.bytes() == output && err.bytes() == error)
}

fn one(alloc: Global, body: LirBody) -> Result<List<LirBody>, Memory> {
    let mut bodies = List::new(alloc);
    bodies.push(body).map_err(|_| Memory)?;
    Ok(bodies)
}

fn two(alloc: Global, first: LirBody, second: LirBody) -> Result<List<LirBody>, Memory> {
    let mut bodies = one(alloc, first)?;
    bodies.push(second).map_err(|_| Memory)?;
    Ok(bodies)
}

fn echoes_all(alloc: Global) -> Result<bool, Fail> {
    let bodies = one(alloc, echoes(alloc)?)?;
    comes_to(alloc, bodies, false, b"h\xff\0i", 4, b"h\xff\0i", b"")
}

fn counts_calls(alloc: Global) -> Result<bool, Fail> {
    let first = calls_with(alloc, 11)?;
    let bodies = two(alloc, first, fibonacci(alloc)?)?;
    comes_to(alloc, bodies, false, b"", 89, b"", b"")
}

/// Whether the sum of variables is this behind a call of a body with variables.
fn sums(alloc: Global, outer: &[u32], inner: &[u32], status: u8) -> Result<bool, Fail> {
    let first = keeps_variables(alloc, outer, true)?;
    let bodies = two(alloc, first, keeps_variables(alloc, inner, false)?)?;
    comes_to(alloc, bodies, false, b"", status, b"", b"")
}

fn reaches_the_bound(alloc: Global, few: bool) -> Result<bool, Fail> {
    let bodies = one(alloc, never_ends(alloc)?)?;
    comes_to(alloc, bodies, few, b"", 134, b"", b"stack bound reached\n")
}

fn clears(alloc: Global) -> Result<bool, Fail> {
    let first = clears_what_it_gave(alloc)?;
    let bodies = two(alloc, first, subtracts(alloc)?)?;
    comes_to(alloc, bodies, false, b"", 2, b"", b"")
}

/// Whether a body ends with this status, and writes nothing.
fn ends(alloc: Global, body: LirBody, status: u8) -> Result<bool, Fail> {
    let bodies = one(alloc, body)?;
    comes_to(alloc, bodies, false, b"", status, b"", b"")
}

static EIGHT: [u32; 8] = [8, 9, 10, 11, 12, 13, 14, 15];

static NINE: [u32; 9] = [8, 9, 10, 11, 12, 13, 14, 15, 16];

#[test]
fn reads_and_writes(rt: HostRuntime) -> Result<(), Fail> {
    assert!(rt; echoes_all(rt.alloc())?);
    Ok(())
}

#[test]
fn recursion(rt: HostRuntime) -> Result<(), Fail> {
    assert!(rt; counts_calls(rt.alloc())?);
    Ok(())
}

#[test]
fn eight_and_nine_variables(rt: HostRuntime) -> Result<(), Fail> {
    assert!(rt; sums(rt.alloc(), &NINE, &EIGHT, 45)?);
    assert!(rt; sums(rt.alloc(), &EIGHT, &NINE, 36)?);
    Ok(())
}

#[test]
fn bound_of_the_stack(rt: HostRuntime) -> Result<(), Fail> {
    assert!(rt; reaches_the_bound(rt.alloc(), false)?);
    assert!(rt; reaches_the_bound(rt.alloc(), true)?);
    Ok(())
}

#[test]
fn far_branches(rt: HostRuntime) -> Result<(), Fail> {
    let body = long_loop(rt.alloc())?;
    assert!(rt; ends(rt.alloc(), body, 40)?);
    Ok(())
}

#[test]
fn refusals(rt: HostRuntime) -> Result<(), Fail> {
    let body = refuses(rt.alloc())?;
    assert!(rt; ends(rt.alloc(), body, 7)?);
    Ok(())
}

#[test]
fn bytes_moved(rt: HostRuntime) -> Result<(), Fail> {
    let body = moves_bytes(rt.alloc())?;
    assert!(rt; ends(rt.alloc(), body, 254)?);
    Ok(())
}

#[test]
fn bytes_moved_down(rt: HostRuntime) -> Result<(), Fail> {
    let body = moves_down(rt.alloc())?;
    assert!(rt; ends(rt.alloc(), body, 21)?);
    Ok(())
}

#[test]
fn slots_cleared_by_a_call(rt: HostRuntime) -> Result<(), Fail> {
    assert!(rt; clears(rt.alloc())?);
    Ok(())
}

#[test]
fn argument_of_the_first_body(rt: HostRuntime) -> Result<(), Fail> {
    let body = returns_its_argument(rt.alloc())?;
    assert!(rt; ends(rt.alloc(), body, 7)?);
    Ok(())
}
