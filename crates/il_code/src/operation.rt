ghost use Rattle.std.specs.Prelude.{◌≡◌};
ghost use Rattle.il_code.specs.Operations.{operation_of, constant, target};

use crate::body::{Instr, Operand};
use crate::opcode::Op;

/// What an instruction does, whichever of its forms it has (ECMA-335 III.3).
#[derive(Clone, Copy, Debug, PartialEq, Eq)]
pub enum Operation {
    /// `nop`: does nothing.
    NoOperation,
    /// `ldc.i4`: loads a constant.
    Constant(i32),
    /// `dup`: loads the value on top of the stack once more.
    Duplicate,
    /// `pop`: drops the value on top of the stack.
    Discard,
    /// `add`, `sub`, `mul`: what the two values on top of the stack give.
    Binary(BinaryOperation),
    /// `br`: goes on at an offset.
    Branch(u32),
    /// `brtrue`: drops the value on top of the stack, and goes on at an offset unless it is 0.
    BranchIfTrue(u32),
    /// `ret`: goes back to the caller with the result, or ends the program.
    Return,
}

/// An operation on two numbers, the one below the top of the stack and the one on top, whose result is wrapped
/// (ECMA-335 III.1.5).
#[derive(Clone, Copy, Debug, PartialEq, Eq)]
pub enum BinaryOperation {
    Add,
    Subtract,
    Multiply,
}

impl Instr {
    /// What the instruction does. None where it isn't one of these, or its operand is of no form that its opcode has.
    pub fn operation(&self) -> Option<Operation>
        ensures { result ≡ operation_of self.now.op self.now.operand }
    {
        match self.op {
            Op::Nop => Some(Operation::NoOperation),
            Op::LdcI4M1 => Some(Operation::Constant(-1)),
            Op::LdcI4_0 => Some(Operation::Constant(0)),
            Op::LdcI4_1 => Some(Operation::Constant(1)),
            Op::LdcI4_2 => Some(Operation::Constant(2)),
            Op::LdcI4_3 => Some(Operation::Constant(3)),
            Op::LdcI4_4 => Some(Operation::Constant(4)),
            Op::LdcI4_5 => Some(Operation::Constant(5)),
            Op::LdcI4_6 => Some(Operation::Constant(6)),
            Op::LdcI4_7 => Some(Operation::Constant(7)),
            Op::LdcI4_8 => Some(Operation::Constant(8)),
            Op::LdcI4S | Op::LdcI4 => constant_operation(&self.operand),
            Op::Dup => Some(Operation::Duplicate),
            Op::Pop => Some(Operation::Discard),
            Op::Ret => Some(Operation::Return),
            Op::BrS | Op::Br => target_of(&self.operand).map(Operation::Branch),
            Op::BrtrueS | Op::Brtrue => target_of(&self.operand).map(Operation::BranchIfTrue),
            Op::Add => Some(Operation::Binary(BinaryOperation::Add)),
            Op::Sub => Some(Operation::Binary(BinaryOperation::Subtract)),
            Op::Mul => Some(Operation::Binary(BinaryOperation::Multiply)),
            _ => None,
        }
    }
}

/// The load of the constant that stands as the operand.
fn constant_operation(operand: &Operand) -> Option<Operation>
    ensures { result ≡ constant operand.now }
{
    match operand {
        Operand::Number(number) => i32::try_from(*number).ok().map(Operation::Constant),
        _ => None,
    }
}

/// The target that stands as the operand.
fn target_of(operand: &Operand) -> Option<u32>
    ensures { result ≡ target operand.now }
{
    match operand {
        Operand::Target(offset) => Some(*offset),
        _ => None,
    }
}
