ghost use Rattle.std.specs.Prelude.{◌≡◌, ◌+◌, ◌-◌, ◌*◌, ◌<◌, ◌≤◌, ◌≤ℤ◌, ◌++◌, ◌∷◌, [], pos, negsuc, Some};
ghost use Rattle.std.specs.Prelude.{slice_index_or, ℕ, List, length, All, IfOk, OnOk};
ghost use Rattle.ilc_build.specs.Bare.{ReadsBare};
ghost use Rattle.ilc_build.specs.File.{IsFileOf, layout_of};
ghost use Rattle.ilc_build.specs.Implements.{Implements};
ghost use Rattle.il_code.specs.declared.body.Instr.{Instr};
ghost use Rattle.ilc_build.specs.Depths.{operation_at, row};
ghost use Rattle.ilc_build.specs.Raising.{IsShallow};
ghost use Rattle.rv_isa.specs.declared.ins.Ins.{Ins};
ghost use Rattle.ilc_build.specs.Code.{constant_code, exit_code, operation_code, row_code, place_of as place_of_offset};
ghost use Rattle.ilc_build.specs.Code.{row_size as row_size_of, operation_size as operation_size_of};
ghost use Rattle.ilc_build.specs.Code.{distance as distance_of, code_of, LoadsInt32, IsInt32Instr, text_of};
ghost use Rattle.ilc_build.specs.Code.{upper as upper_of, lower as lower_of, stack_address as stack_address_is};
ghost use Rattle.ilc_build.specs.Code.{load_slot as load_slot_is, store_slot as store_slot_is};
ghost use Rattle.ilc_build.specs.Code.{binary_instruction as binary_instruction_is, no_operation as no_operation_is};
ghost use Rattle.ilc_build.specs.Code.{slot as slot_is};

use crate::bare::Bare;
use crate::depths::Known;
use byteorder::{ByteOrder, LittleEndian};
use elf_file::{ElfLayout, TEXT_AT, write_elf};
use il_code::{BinaryOperation, Instr, Operation};
use num_core::{Bounds, Bytes, List, Memory};
use rv_isa::{BranchOffset, Immediate, Ins, JumpOffset, Register, UpperImmediate, encode};
use std::alloc::Global;

/// The page of 4,096 bytes at which the evaluation stack begins in memory.
const STACK_PAGE: u32 = 17;

/// The number of the environment's call that ends a program.
const EXIT: i16 = 93;

/// The executable file of a bare body: that of its code, which does what the body does.
pub(crate) fn compile(alloc: Global, bare: &Bare) -> Result<Bytes, Memory>
    requires { (bytes : List ℕ) × ReadsBare bytes bare.now.body bare.now.table.items }
    ensures file { IfOk result (IsFileOf (code_of bare.now.body.code bare.now.table.items)) }
    ensures implements { IfOk result (Implements bare.now.body) }
{
    let code = code(alloc, bare.body.code.as_slice(), bare.table.as_slice())?;
    let text = text(alloc, code.as_slice())?;
    let layout = layout(alloc, text);
    write_elf(alloc, &layout)
}

/// What the executable file of a text is made of: the text, and zeros in which the program has its heap and its stack.
#[tactic(auto, unfolding(crate::specs::File::heap_size, crate::specs::File::stack_size))]
fn layout(alloc: Global, text: Bytes) -> ElfLayout
    ensures value { result ≡ layout_of text }
    ensures zeros { result.zeros ≡ 9437184 }
{
    let bounds = Bounds::standard();
    ElfLayout {
        text,
        rest: List::new(alloc),
        zeros: bounds.heap + bounds.stack,
        entry: TEXT_AT,
    }
}

/// The instructions of a machine for those of a body.
fn code(alloc: Global, instrs: &[Instr], table: &[Known]) -> Result<Vec<Ins>, Memory>
    requires few { length instrs.now < 64 }
    requires size { length table.now ≡ length instrs.now }
    requires shallow { (n : ℕ) → IsShallow 8 (row table.now n) }
    ensures code { IfOk result (λ code. code.items ≡ code_of instrs.now table.now) }
    ensures constants { OnOk result (All IsInt32Instr instrs.now) }
{
    let mut code = Vec::new(alloc);
    for index in 0..instrs.len() {
        emit_instr(&mut code, instrs, table, index)?;
    }
    Ok(code)
}

/// The instructions for that of a number.
fn emit_instr(
    code: &mut Vec<Ins>,
    instrs: &[Instr],
    table: &[Known],
    index: usize,
) -> Result<(), Memory>
    requires few { length instrs.now < 64 }
    requires size { length table.now ≡ length instrs.now }
    requires shallow { (n : ℕ) → IsShallow 8 (row table.now n) }
    requires short { length code.old.items < 512 }
    requires within { index < length instrs.now }
    ensures code { OnOk result ((i : Instr) → code.new.items ≡ code.old.items
        ++ row_code (place_of_offset instrs.now table.now) (length code.old.items)
        (row table.now index) (operation_at (slice_index_or instrs.now index i))) }
    ensures constant { (i : Instr) → IsInt32Instr (slice_index_or instrs.now index i) }
{
    match instrs[index].operation() {
        Some(operation) => emit_row(code, instrs, table, table[index], operation),
        None => Ok(()),
    }
}

/// The instructions for an operation, if control comes to it.
fn emit_row(
    code: &mut Vec<Ins>,
    instrs: &[Instr],
    table: &[Known],
    known: Known,
    operation: Operation,
) -> Result<(), Memory>
    requires few { length instrs.now < 64 }
    requires size { length table.now ≡ length instrs.now }
    requires shallow { IsShallow 8 known }
    requires short { length code.old.items < 512 }
    ensures code { OnOk result (code.new.items ≡ code.old.items
        ++ row_code (place_of_offset instrs.now table.now) (length code.old.items) known (Some operation)) }
    ensures constant { LoadsInt32 operation }
{
    match known {
        Known::Depth(depth) => emit(code, instrs, table, depth, operation),
        Known::Nothing | Known::Clash => Ok(()),
    }
}

/// The instructions for an operation on a stack of a depth.
fn emit(
    code: &mut Vec<Ins>,
    instrs: &[Instr],
    table: &[Known],
    depth: u32,
    operation: Operation,
) -> Result<(), Memory>
    requires few { length instrs.now < 64 }
    requires size { length table.now ≡ length instrs.now }
    requires shallow { depth ≤ 8 }
    requires short { length code.old.items < 512 }
    ensures code { OnOk result (code.new.items ≡ code.old.items
        ++ operation_code (place_of_offset instrs.now table.now) (length code.old.items) depth operation) }
    ensures constant { LoadsInt32 operation }
{
    match operation {
        Operation::NoOperation | Operation::Discard => {
            code.push(no_operation())?;
            Ok(())
        }
        Operation::Constant(number) => emit_load_constant(code, depth, number),
        Operation::Duplicate => emit_duplicate(code, depth),
        Operation::Binary(operation) => emit_binary(code, depth, operation),
        Operation::Branch(target) => { emit_branch(code, place_of(instrs, table, target)) }
        Operation::BranchIfTrue(target) => {
            emit_branch_if_true(code, depth, place_of(instrs, table, target))
        }
        Operation::Return => emit_return(code, depth),
    }
}

/// The place at which the code of the instruction at an offset begins.
fn place_of(instrs: &[Instr], table: &[Known], offset: u32) -> u32
    requires few { length instrs.now < 64 }
    requires size { length table.now ≡ length instrs.now }
    ensures value { result ≡ place_of_offset instrs.now table.now offset }
    ensures bound { result ≤ 5 * length instrs.now }
{
    let mut place = 0;
    for index in 0..instrs.len() {
        let instr = &instrs[index];
        if instr.at == offset {
            return place;
        }
        place += row_size(table[index], instr.operation());
    }
    place
}

/// How many instructions an operation becomes, where control comes to it with a known stack.
fn row_size(known: Known, operation: Option<Operation>) -> u32
    ensures value { result ≡ row_size_of known operation }
    ensures bound { result ≤ 5 }
{
    match (known, operation) {
        (Known::Depth(_), Some(operation)) => operation_size(operation),
        _ => 0,
    }
}

fn operation_size(operation: Operation) -> u32
    ensures value { result ≡ operation_size_of operation }
    ensures bound { result ≤ 5 }
{
    match operation {
        Operation::NoOperation | Operation::Discard | Operation::Branch(_) => 1,
        Operation::Duplicate | Operation::BranchIfTrue(_) => 3,
        Operation::Constant(_) | Operation::Return => 4,
        Operation::Binary(_) => 5,
    }
}

/// How far one place lies from another, in bytes.
fn distance(from: u32, to: u32) -> i32
    requires from { from < 1024 }
    requires to { to < 1024 }
    ensures value { result ≡ distance_of from to }
    ensures near { negsuc 4095 ≤ℤ result }
    ensures far { result ≤ℤ pos 4092 }
{
    4 * to as i32 - 4 * from as i32
}

/// The program goes on at a place.
fn emit_branch(code: &mut Vec<Ins>, target: u32) -> Result<(), Memory>
    requires short { length code.old.items < 512 }
    requires target { target < 512 }
    ensures { OnOk result (code.new.items ≡ code.old.items
        ++ Ins.Jal 0 (distance_of (length code.old.items) target) ∷ []) }
{
    let imm = JumpOffset::of(distance(code.len() as u32, target));
    code.push(Ins::Jal { rd: x0(), imm })?;
    Ok(())
}

/// The program goes on at a place, unless the top of the stack is 0.
fn emit_branch_if_true(code: &mut Vec<Ins>, depth: u32, target: u32) -> Result<(), Memory>
    requires short { length code.old.items < 512 }
    requires target { target < 512 }
    requires depth { depth < 128 }
    ensures { OnOk result (code.new.items ≡ code.old.items
        ++ stack_address_is ∷ load_slot_is 6 (depth - 1)
        ∷ Ins.Bne 6 0 (distance_of (length code.old.items + 2) target) ∷ []) }
{
    let imm = BranchOffset::of(distance(code.len() as u32 + 2, target) as i16);
    code.push(stack_address())?;
    code.push(load_slot(t1(), depth.saturating_sub(1)))?;
    code.push(Ins::Bne {
        rs1: t1(),
        rs2: x0(),
        imm,
    })?;
    Ok(())
}

/// A constant comes on top of the stack.
fn emit_load_constant(code: &mut Vec<Ins>, depth: u32, number: i32) -> Result<(), Memory>
    requires { depth < 128 }
    ensures code { OnOk result (code.new.items ≡ code.old.items
        ++ operation_code (λ offset. offset) 0 depth (Operation.Constant number)) }
    ensures constant { LoadsInt32 (Operation.Constant number) }
{
    emit_constant(code, t1(), number)?;
    code.push(stack_address())?;
    code.push(store_slot(depth))?;
    Ok(())
}

/// The top of the stack comes on it once more.
fn emit_duplicate(code: &mut Vec<Ins>, depth: u32) -> Result<(), Memory>
    requires { depth < 128 }
    ensures { OnOk result (code.new.items ≡ code.old.items
        ++ operation_code (λ offset. offset) 0 depth Operation.Duplicate) }
{
    code.push(stack_address())?;
    code.push(load_slot(t1(), depth.saturating_sub(1)))?;
    code.push(store_slot(depth))?;
    Ok(())
}

/// What the two values on top of the stack give takes their place.
fn emit_binary(code: &mut Vec<Ins>, depth: u32, operation: BinaryOperation) -> Result<(), Memory>
    requires { depth < 128 }
    ensures { OnOk result (code.new.items ≡ code.old.items
        ++ operation_code (λ offset. offset) 0 depth (Operation.Binary operation)) }
{
    code.push(stack_address())?;
    code.push(load_slot(t1(), depth.saturating_sub(2)))?;
    code.push(load_slot(t2(), depth.saturating_sub(1)))?;
    code.push(binary_instruction(operation))?;
    code.push(store_slot(depth.saturating_sub(2)))?;
    Ok(())
}

/// The program ends with the low byte of the top of the stack.
fn emit_return(code: &mut Vec<Ins>, depth: u32) -> Result<(), Memory>
    requires { depth < 128 }
    ensures { OnOk result (code.new.items ≡ code.old.items
        ++ operation_code (λ offset. offset) 0 depth Operation.Return) }
{
    code.push(stack_address())?;
    code.push(load_slot(a0(), depth.saturating_sub(1)))?;
    emit_exit(code)
}

/// t0 gets the address of the evaluation stack.
fn stack_address() -> Ins
    ensures { result ≡ stack_address_is }
{
    Ins::Lui {
        rd: t0(),
        imm: UpperImmediate::of(STACK_PAGE),
    }
}

/// A register gets the value in a slot.
fn load_slot(rd: Register, number: u32) -> Ins
    requires { number < 128 }
    ensures { result ≡ load_slot_is rd number }
{
    Ins::Ld {
        rd,
        rs1: t0(),
        imm: slot(number),
    }
}

/// A slot gets the value of t1.
fn store_slot(number: u32) -> Ins
    requires { number < 128 }
    ensures { result ≡ store_slot_is number }
{
    Ins::Sd {
        rs1: t0(),
        rs2: t1(),
        imm: slot(number),
    }
}

/// How far a slot of 8 bytes lies from the first.
fn slot(number: u32) -> Immediate
    requires { number < 128 }
    ensures { result ≡ slot_is number }
{
    Immediate::of(8 * number as i16)
}

/// t1 gets what it and t2 give, wrapped at 32 bits.
fn binary_instruction(operation: BinaryOperation) -> Ins
    ensures { result ≡ binary_instruction_is operation }
{
    let (rd, rs1, rs2) = (t1(), t1(), t2());
    match operation {
        BinaryOperation::Add => Ins::Addw { rd, rs1, rs2 },
        BinaryOperation::Subtract => Ins::Subw { rd, rs1, rs2 },
        BinaryOperation::Multiply => Ins::Mulw { rd, rs1, rs2 },
    }
}

/// The instruction that does nothing.
fn no_operation() -> Ins
    ensures { result ≡ no_operation_is }
{
    Ins::Addi {
        rd: x0(),
        rs1: x0(),
        imm: Immediate::of(0),
    }
}

/// A register gets a constant.
fn emit_constant(code: &mut Vec<Ins>, rd: Register, number: i32) -> Result<(), Memory>
    ensures { OnOk result (code.new.items ≡ code.old.items ++ constant_code rd number) }
{
    code.push(Ins::Lui {
        rd,
        imm: upper(number),
    })?;
    code.push(Ins::Addiw {
        rd,
        rs1: rd,
        imm: lower(number),
    })?;
    Ok(())
}

/// The program ends with the low byte of a0.
fn emit_exit(code: &mut Vec<Ins>) -> Result<(), Memory>
    ensures { OnOk result (code.new.items ≡ code.old.items ++ exit_code) }
{
    code.push(Ins::Addi {
        rd: a7(),
        rs1: x0(),
        imm: Immediate::of(EXIT),
    })?;
    code.push(Ins::Ecall)?;
    Ok(())
}

/// The upper 20 bits of a number, rounded up where its lower 12 bits stand for a negative one.
fn upper(number: i32) -> UpperImmediate
    ensures { result ≡ upper_of number }
{
    UpperImmediate::of(number.cast_unsigned().wrapping_add(2048) >> 12)
}

/// The lower 12 bits of a number, with their sign.
fn lower(number: i32) -> Immediate
    ensures { result ≡ lower_of number }
{
    let bits = (number.cast_unsigned() % 4096) as i16;
    Immediate::of(if bits < 2048 { bits } else { bits - 4096 })
}

fn x0() -> Register
    ensures { result ≡ 0 }
{
    Register::of(0)
}

fn t0() -> Register
    ensures { result ≡ 5 }
{
    Register::of(5)
}

fn t1() -> Register
    ensures { result ≡ 6 }
{
    Register::of(6)
}

fn t2() -> Register
    ensures { result ≡ 7 }
{
    Register::of(7)
}

fn a0() -> Register
    ensures { result ≡ 10 }
{
    Register::of(10)
}

fn a7() -> Register
    ensures { result ≡ 17 }
{
    Register::of(17)
}

/// The bytes of the instructions, in their order.
fn text(alloc: Global, code: &[Ins]) -> Result<Bytes, Memory>
    ensures { IfOk result (λ text. text ≡ text_of code.now) }
{
    let mut text = List::new(alloc);
    for ins in code {
        let mut word = [0; 4];
        LittleEndian::write_u32(&mut word, encode(ins));
        text.extend_from_slice(&word)?;
    }
    Ok(text)
}
