ghost use Rattle.std.specs.Prelude.{◌≡◌};
ghost use Rattle.rv_isa.specs.Parts.{parts_of, i_imm_of, s_imm_of, b_imm_of, u_imm_of, j_imm_of, shamt_of};

use crate::operands::{
    BranchOffset, Immediate, JumpOffset, Register, ShiftAmount, UpperImmediate, WordShiftAmount,
};
use std::marker::Model;

/// The fields of a word in the R format. The immediates of the other formats are put together from them.
#[derive(Drop)]
pub struct Fields {
    pub opcode: u32,
    pub rd: Register,
    pub funct3: u32,
    pub rs1: Register,
    pub rs2: Register,
    pub funct7: u32,
}

impl Model for Fields {
    ghost use Rattle.std.specs.Prelude.{◌<◌};
    ghost use Rattle.rv_isa.specs.Parts.{Parts};

    ghost Value = { Parts };

    ghost view = { λ f. record {
      opcode = f.opcode;
      rd = f.rd;
      funct3 = f.funct3;
      rs1 = f.rs1;
      rs2 = f.rs2;
      funct7 = f.funct7;
    } };

    ghost invariant = { λ f. (f.funct3 < 8) × (f.funct7 < 128) };
}

impl Fields {
    pub fn new(word: u32) -> Fields
        ensures { result ≡ parts_of word }
    {
        Fields {
            opcode: word % 128,
            rd: Register::in_low_bits(word >> 7),
            funct3: (word >> 12) % 8,
            rs1: Register::in_low_bits(word >> 15),
            rs2: Register::in_low_bits(word >> 20),
            funct7: word >> 25,
        }
    }

    pub fn i_imm(&self) -> Immediate
        ensures { result ≡ i_imm_of self.now }
    {
        Immediate::from_bits(self.rs2.bits() + (self.funct7 << 5))
    }

    pub fn s_imm(&self) -> Immediate
        ensures { result ≡ s_imm_of self.now }
    {
        Immediate::from_bits(self.rd.bits() + (self.funct7 << 5))
    }

    pub fn b_imm(&self) -> BranchOffset
        ensures { result ≡ b_imm_of self.now }
    {
        let rd = self.rd.bits();
        BranchOffset::from_bits(
            2 * (rd / 2) + 32 * (self.funct7 % 64) + 2048 * (rd % 2) + 4096 * (self.funct7 / 64),
        )
    }

    pub fn u_imm(&self) -> UpperImmediate
        ensures { result ≡ u_imm_of self.now }
    {
        UpperImmediate::of(
            self.funct3 + (self.rs1.bits() << 3) + (self.rs2.bits() << 8) + (self.funct7 << 13),
        )
    }

    pub fn j_imm(&self) -> JumpOffset
        ensures { result ≡ j_imm_of self.now }
    {
        let rs2 = self.rs2.bits();
        JumpOffset::from_bits(
            2 * (rs2 / 2)
                + 32 * (self.funct7 % 64)
                + 2048 * (rs2 % 2)
                + 4096 * self.funct3
                + 32768 * self.rs1.bits()
                + 1_048_576 * (self.funct7 / 64),
        )
    }

    pub fn shamt(&self) -> ShiftAmount
        ensures { result ≡ shamt_of self.now }
    {
        ShiftAmount::of(self.rs2.bits() + 32 * (self.funct7 % 2))
    }

    pub fn word_shamt(&self) -> WordShiftAmount
        ensures { result ≡ self.now.rs2 }
    {
        WordShiftAmount::of(self.rs2.bits())
    }
}
