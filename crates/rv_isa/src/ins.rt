use crate::operands::{
    BranchOffset, Immediate, JumpOffset, Register, ShiftAmount, UpperImmediate, WordShiftAmount,
};

/// An instruction of RV64I or M, but for `fence` and `ebreak`, with its operands named as in the manual: `rd` is
/// written, `rs1` and `rs2` are read. A load or store goes to the address `rs1` plus `imm`; a jump or branch to its
/// own address plus `imm`, and `Jalr` to `rs1` plus `imm`. Where nothing else is said, numbers have 64 bits; a result
/// of 32 bits has its sign extended.
#[derive(Clone, Copy, Debug, PartialEq, Eq)]
pub enum Ins {
    /// Puts the immediate in the upper 20 of 32 bits, and extends their sign.
    Lui {
        rd: Register,
        imm: UpperImmediate,
    },
    /// The address of the instruction plus what `Lui` puts.
    Auipc {
        rd: Register,
        imm: UpperImmediate,
    },
    /// Jumps, and keeps the address of the next instruction.
    Jal {
        rd: Register,
        imm: JumpOffset,
    },
    /// Jumps to a sum whose bit 0 is cleared, and keeps the address of the next instruction.
    Jalr {
        rd: Register,
        rs1: Register,
        imm: Immediate,
    },
    /// Branches if the two are equal.
    Beq {
        rs1: Register,
        rs2: Register,
        imm: BranchOffset,
    },
    /// Branches if the two differ.
    Bne {
        rs1: Register,
        rs2: Register,
        imm: BranchOffset,
    },
    /// Branches if the first is less, both signed.
    Blt {
        rs1: Register,
        rs2: Register,
        imm: BranchOffset,
    },
    /// Branches unless the first is less, both signed.
    Bge {
        rs1: Register,
        rs2: Register,
        imm: BranchOffset,
    },
    /// Branches if the first is less, both unsigned.
    Bltu {
        rs1: Register,
        rs2: Register,
        imm: BranchOffset,
    },
    /// Branches unless the first is less, both unsigned.
    Bgeu {
        rs1: Register,
        rs2: Register,
        imm: BranchOffset,
    },
    /// Loads 8 bits, and extends their sign.
    Lb {
        rd: Register,
        rs1: Register,
        imm: Immediate,
    },
    /// Loads 16 bits, and extends their sign.
    Lh {
        rd: Register,
        rs1: Register,
        imm: Immediate,
    },
    /// Loads 32 bits, and extends their sign.
    Lw {
        rd: Register,
        rs1: Register,
        imm: Immediate,
    },
    /// Loads 64 bits.
    Ld {
        rd: Register,
        rs1: Register,
        imm: Immediate,
    },
    /// Loads 8 bits, and extends them by zeros.
    Lbu {
        rd: Register,
        rs1: Register,
        imm: Immediate,
    },
    /// Loads 16 bits, and extends them by zeros.
    Lhu {
        rd: Register,
        rs1: Register,
        imm: Immediate,
    },
    /// Loads 32 bits, and extends them by zeros.
    Lwu {
        rd: Register,
        rs1: Register,
        imm: Immediate,
    },
    /// Stores the lowest 8 bits.
    Sb {
        rs1: Register,
        rs2: Register,
        imm: Immediate,
    },
    /// Stores the lowest 16 bits.
    Sh {
        rs1: Register,
        rs2: Register,
        imm: Immediate,
    },
    /// Stores the lowest 32 bits.
    Sw {
        rs1: Register,
        rs2: Register,
        imm: Immediate,
    },
    /// Stores 64 bits.
    Sd {
        rs1: Register,
        rs2: Register,
        imm: Immediate,
    },
    /// Adds the immediate.
    Addi {
        rd: Register,
        rs1: Register,
        imm: Immediate,
    },
    /// 1 if less than the immediate, both signed, and else 0.
    Slti {
        rd: Register,
        rs1: Register,
        imm: Immediate,
    },
    /// 1 if less than the immediate with its sign extended, both unsigned, and else 0.
    Sltiu {
        rd: Register,
        rs1: Register,
        imm: Immediate,
    },
    /// Exclusive or with the immediate.
    Xori {
        rd: Register,
        rs1: Register,
        imm: Immediate,
    },
    /// Or with the immediate.
    Ori {
        rd: Register,
        rs1: Register,
        imm: Immediate,
    },
    /// And with the immediate.
    Andi {
        rd: Register,
        rs1: Register,
        imm: Immediate,
    },
    /// Shifts left.
    Slli {
        rd: Register,
        rs1: Register,
        shamt: ShiftAmount,
    },
    /// Shifts right, zeros from the left.
    Srli {
        rd: Register,
        rs1: Register,
        shamt: ShiftAmount,
    },
    /// Shifts right, copies of the sign from the left.
    Srai {
        rd: Register,
        rs1: Register,
        shamt: ShiftAmount,
    },
    /// Adds the immediate in 32 bits.
    Addiw {
        rd: Register,
        rs1: Register,
        imm: Immediate,
    },
    /// Shifts 32 bits left.
    Slliw {
        rd: Register,
        rs1: Register,
        shamt: WordShiftAmount,
    },
    /// Shifts 32 bits right, zeros from the left.
    Srliw {
        rd: Register,
        rs1: Register,
        shamt: WordShiftAmount,
    },
    /// Shifts 32 bits right, copies of the sign from the left.
    Sraiw {
        rd: Register,
        rs1: Register,
        shamt: WordShiftAmount,
    },
    /// Adds.
    Add {
        rd: Register,
        rs1: Register,
        rs2: Register,
    },
    /// Shifts left by the lowest 6 bits of the second.
    Sll {
        rd: Register,
        rs1: Register,
        rs2: Register,
    },
    /// 1 if the first is less, both signed, and else 0.
    Slt {
        rd: Register,
        rs1: Register,
        rs2: Register,
    },
    /// 1 if the first is less, both unsigned, and else 0.
    Sltu {
        rd: Register,
        rs1: Register,
        rs2: Register,
    },
    /// Exclusive or.
    Xor {
        rd: Register,
        rs1: Register,
        rs2: Register,
    },
    /// Shifts right by the lowest 6 bits of the second, zeros from the left.
    Srl {
        rd: Register,
        rs1: Register,
        rs2: Register,
    },
    /// Or.
    Or {
        rd: Register,
        rs1: Register,
        rs2: Register,
    },
    /// And.
    And {
        rd: Register,
        rs1: Register,
        rs2: Register,
    },
    /// Subtracts the second.
    Sub {
        rd: Register,
        rs1: Register,
        rs2: Register,
    },
    /// Shifts right by the lowest 6 bits of the second, copies of the sign from the left.
    Sra {
        rd: Register,
        rs1: Register,
        rs2: Register,
    },
    /// The lower 64 bits of the product.
    Mul {
        rd: Register,
        rs1: Register,
        rs2: Register,
    },
    /// The upper 64 bits of the product, both signed.
    Mulh {
        rd: Register,
        rs1: Register,
        rs2: Register,
    },
    /// The upper 64 bits of the product of a signed and an unsigned number.
    Mulhsu {
        rd: Register,
        rs1: Register,
        rs2: Register,
    },
    /// The upper 64 bits of the product, both unsigned.
    Mulhu {
        rd: Register,
        rs1: Register,
        rs2: Register,
    },
    /// The quotient, both signed.
    Div {
        rd: Register,
        rs1: Register,
        rs2: Register,
    },
    /// The quotient, both unsigned.
    Divu {
        rd: Register,
        rs1: Register,
        rs2: Register,
    },
    /// The remainder, both signed.
    Rem {
        rd: Register,
        rs1: Register,
        rs2: Register,
    },
    /// The remainder, both unsigned.
    Remu {
        rd: Register,
        rs1: Register,
        rs2: Register,
    },
    /// Adds in 32 bits.
    Addw {
        rd: Register,
        rs1: Register,
        rs2: Register,
    },
    /// Shifts 32 bits left by the lowest 5 bits of the second.
    Sllw {
        rd: Register,
        rs1: Register,
        rs2: Register,
    },
    /// Shifts 32 bits right by the lowest 5 bits of the second, zeros from the left.
    Srlw {
        rd: Register,
        rs1: Register,
        rs2: Register,
    },
    /// Subtracts the second in 32 bits.
    Subw {
        rd: Register,
        rs1: Register,
        rs2: Register,
    },
    /// Shifts 32 bits right by the lowest 5 bits of the second, copies of the sign from the left.
    Sraw {
        rd: Register,
        rs1: Register,
        rs2: Register,
    },
    /// The lower 32 bits of the product.
    Mulw {
        rd: Register,
        rs1: Register,
        rs2: Register,
    },
    /// The quotient in 32 bits, both signed.
    Divw {
        rd: Register,
        rs1: Register,
        rs2: Register,
    },
    /// The quotient in 32 bits, both unsigned.
    Divuw {
        rd: Register,
        rs1: Register,
        rs2: Register,
    },
    /// The remainder in 32 bits, both signed.
    Remw {
        rd: Register,
        rs1: Register,
        rs2: Register,
    },
    /// The remainder in 32 bits, both unsigned.
    Remuw {
        rd: Register,
        rs1: Register,
        rs2: Register,
    },
    /// Asks the environment for a service.
    Ecall,
}
