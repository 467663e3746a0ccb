ghost use Rattle.std.specs.Prelude.{◌≡◌, ◌<◌};
ghost use Rattle.rv_isa.specs.Formats as formats;
ghost use Rattle.rv_isa.specs.Instructions.{AreROperands, AreIOperands, AreSOperands, AreBOperands, AreUOperands};
ghost use Rattle.rv_isa.specs.Instructions.{AreJOperands, AreShiftOperands, AreWordShiftOperands};

use crate::operands::{
    BranchOffset, Immediate, JumpOffset, Register, ShiftAmount, UpperImmediate, WordShiftAmount,
};

pub fn r_format(
    opcode: u32,
    funct3: u32,
    funct7: u32,
    rd: Register,
    rs1: Register,
    rs2: Register,
) -> u32
    requires opcode { opcode < 128 }
    requires funct3 { funct3 < 8 }
    requires funct7 { funct7 < 128 }
    ensures word { result ≡ formats.r_format opcode funct3 funct7 rd rs1 rs2 }
    ensures operands { AreROperands rd rs1 rs2 }
{
    opcode
        + (rd.bits() << 7)
        + (funct3 << 12)
        + (rs1.bits() << 15)
        + (rs2.bits() << 20)
        + (funct7 << 25)
}

pub fn i_format(opcode: u32, funct3: u32, rd: Register, rs1: Register, imm: Immediate) -> u32
    requires opcode { opcode < 128 }
    requires funct3 { funct3 < 8 }
    ensures word { result ≡ formats.i_format opcode funct3 rd rs1 imm }
    ensures operands { AreIOperands rd rs1 imm }
{
    opcode + (rd.bits() << 7) + (funct3 << 12) + (rs1.bits() << 15) + (imm.bits() << 20)
}

pub fn s_format(opcode: u32, funct3: u32, rs1: Register, rs2: Register, imm: Immediate) -> u32
    requires opcode { opcode < 128 }
    requires funct3 { funct3 < 8 }
    ensures word { result ≡ formats.s_format opcode funct3 rs1 rs2 imm }
    ensures operands { AreSOperands rs1 rs2 imm }
{
    let imm = imm.bits();
    opcode
        + ((imm % 32) << 7)
        + (funct3 << 12)
        + (rs1.bits() << 15)
        + (rs2.bits() << 20)
        + ((imm >> 5) << 25)
}

pub fn b_format(opcode: u32, funct3: u32, rs1: Register, rs2: Register, imm: BranchOffset) -> u32
    requires opcode { opcode < 128 }
    requires funct3 { funct3 < 8 }
    ensures word { result ≡ formats.b_format opcode funct3 rs1 rs2 imm }
    ensures operands { AreBOperands rs1 rs2 imm }
{
    let imm = imm.bits();
    opcode
        + (((imm >> 11) % 2) << 7)
        + (((imm >> 1) % 16) << 8)
        + (funct3 << 12)
        + (rs1.bits() << 15)
        + (rs2.bits() << 20)
        + (((imm >> 5) % 64) << 25)
        + ((imm >> 12) << 31)
}

pub fn u_format(opcode: u32, rd: Register, imm: UpperImmediate) -> u32
    requires { opcode < 128 }
    ensures word { result ≡ formats.u_format opcode rd imm }
    ensures operands { AreUOperands rd imm }
{
    opcode + (rd.bits() << 7) + (imm.bits() << 12)
}

pub fn j_format(opcode: u32, rd: Register, imm: JumpOffset) -> u32
    requires { opcode < 128 }
    ensures word { result ≡ formats.j_format opcode rd imm }
    ensures operands { AreJOperands rd imm }
{
    let imm = imm.bits();
    opcode
        + (rd.bits() << 7)
        + (((imm >> 12) % 256) << 12)
        + (((imm >> 11) % 2) << 20)
        + (((imm >> 1) % 1024) << 21)
        + ((imm >> 20) << 31)
}

pub fn shift_format(
    opcode: u32,
    funct3: u32,
    upper: u32,
    rd: Register,
    rs1: Register,
    shamt: ShiftAmount,
) -> u32
    requires opcode { opcode < 128 }
    requires funct3 { funct3 < 8 }
    requires upper { upper < 64 }
    ensures word { result ≡ formats.shift_format opcode funct3 upper rd rs1 shamt }
    ensures operands { AreShiftOperands rd rs1 shamt }
{
    opcode
        + (rd.bits() << 7)
        + (funct3 << 12)
        + (rs1.bits() << 15)
        + (shamt.value() << 20)
        + (upper << 26)
}

pub fn word_shift_format(
    opcode: u32,
    funct3: u32,
    funct7: u32,
    rd: Register,
    rs1: Register,
    shamt: WordShiftAmount,
) -> u32
    requires opcode { opcode < 128 }
    requires funct3 { funct3 < 8 }
    requires funct7 { funct7 < 128 }
    ensures word { result ≡ formats.r_format opcode funct3 funct7 rd rs1 shamt }
    ensures operands { AreWordShiftOperands rd rs1 shamt }
{
    opcode
        + (rd.bits() << 7)
        + (funct3 << 12)
        + (rs1.bits() << 15)
        + (shamt.value() << 20)
        + (funct7 << 25)
}
