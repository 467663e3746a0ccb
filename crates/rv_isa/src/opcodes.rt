ghost use Rattle.std.specs.Prelude.{◌≡◌};
ghost use Rattle.rv_isa.specs.Rows.{instruction, shift_left_row, shift_right_row, word_shift_left_row};
ghost use Rattle.rv_isa.specs.Rows.{word_shift_right_row, jalr_row, branch_row, load_row, store_row, op_imm_row};
ghost use Rattle.rv_isa.specs.Rows.{op_imm_32_row, op_base_row, op_alternate_row, op_multiply_row, op_32_base_row};
ghost use Rattle.rv_isa.specs.Rows.{op_32_alternate_row, op_32_multiply_row, op_row, op_32_row, system_row};

use crate::fields::Fields;
use crate::ins::Ins;

/// The instruction of a word's fields: one function for each opcode of the manual's "RISC-V base
/// opcode map".
#[tactic(auto, unfolding(crate::specs::Rows::instruction))]
pub fn instruction_of(fields: &Fields) -> Option<Ins>
    ensures { result ≡ instruction fields.now }
{
    match fields.opcode {
        0x37 => Some(Ins::Lui {
            rd: fields.rd,
            imm: fields.u_imm(),
        }),
        0x17 => Some(Ins::Auipc {
            rd: fields.rd,
            imm: fields.u_imm(),
        }),
        0x6f => Some(Ins::Jal {
            rd: fields.rd,
            imm: fields.j_imm(),
        }),
        0x67 => jalr(fields),
        0x63 => branch(fields),
        0x03 => load(fields),
        0x23 => store(fields),
        0x13 => op_imm(fields),
        0x1b => op_imm_32(fields),
        0x33 => op(fields),
        0x3b => op_32(fields),
        0x73 => system(fields),
        _ => None,
    }
}

fn jalr(fields: &Fields) -> Option<Ins>
    ensures { result ≡ jalr_row fields.now }
{
    let (rd, rs1, imm) = (fields.rd, fields.rs1, fields.i_imm());
    match fields.funct3 {
        0 => Some(Ins::Jalr { rd, rs1, imm }),
        _ => None,
    }
}

fn branch(fields: &Fields) -> Option<Ins>
    ensures { result ≡ branch_row fields.now }
{
    let (rs1, rs2, imm) = (fields.rs1, fields.rs2, fields.b_imm());
    match fields.funct3 {
        0 => Some(Ins::Beq { rs1, rs2, imm }),
        1 => Some(Ins::Bne { rs1, rs2, imm }),
        4 => Some(Ins::Blt { rs1, rs2, imm }),
        5 => Some(Ins::Bge { rs1, rs2, imm }),
        6 => Some(Ins::Bltu { rs1, rs2, imm }),
        7 => Some(Ins::Bgeu { rs1, rs2, imm }),
        _ => None,
    }
}

fn load(fields: &Fields) -> Option<Ins>
    ensures { result ≡ load_row fields.now }
{
    let (rd, rs1, imm) = (fields.rd, fields.rs1, fields.i_imm());
    match fields.funct3 {
        0 => Some(Ins::Lb { rd, rs1, imm }),
        1 => Some(Ins::Lh { rd, rs1, imm }),
        2 => Some(Ins::Lw { rd, rs1, imm }),
        3 => Some(Ins::Ld { rd, rs1, imm }),
        4 => Some(Ins::Lbu { rd, rs1, imm }),
        5 => Some(Ins::Lhu { rd, rs1, imm }),
        6 => Some(Ins::Lwu { rd, rs1, imm }),
        _ => None,
    }
}

fn store(fields: &Fields) -> Option<Ins>
    ensures { result ≡ store_row fields.now }
{
    let (rs1, rs2, imm) = (fields.rs1, fields.rs2, fields.s_imm());
    match fields.funct3 {
        0 => Some(Ins::Sb { rs1, rs2, imm }),
        1 => Some(Ins::Sh { rs1, rs2, imm }),
        2 => Some(Ins::Sw { rs1, rs2, imm }),
        3 => Some(Ins::Sd { rs1, rs2, imm }),
        _ => None,
    }
}

fn op_imm(fields: &Fields) -> Option<Ins>
    ensures { result ≡ op_imm_row fields.now }
{
    let (rd, rs1, imm) = (fields.rd, fields.rs1, fields.i_imm());
    match fields.funct3 {
        0 => Some(Ins::Addi { rd, rs1, imm }),
        1 => shift_left(fields),
        2 => Some(Ins::Slti { rd, rs1, imm }),
        3 => Some(Ins::Sltiu { rd, rs1, imm }),
        4 => Some(Ins::Xori { rd, rs1, imm }),
        5 => shift_right(fields),
        6 => Some(Ins::Ori { rd, rs1, imm }),
        7 => Some(Ins::Andi { rd, rs1, imm }),
        _ => None,
    }
}

fn op_imm_32(fields: &Fields) -> Option<Ins>
    ensures { result ≡ op_imm_32_row fields.now }
{
    let (rd, rs1, imm) = (fields.rd, fields.rs1, fields.i_imm());
    match fields.funct3 {
        0 => Some(Ins::Addiw { rd, rs1, imm }),
        1 => word_shift_left(fields),
        5 => word_shift_right(fields),
        _ => None,
    }
}

fn shift_left(fields: &Fields) -> Option<Ins>
    ensures { result ≡ shift_left_row fields.now }
{
    let (rd, rs1, shamt) = (fields.rd, fields.rs1, fields.shamt());
    match fields.funct7 / 2 {
        0 => Some(Ins::Slli { rd, rs1, shamt }),
        _ => None,
    }
}

fn shift_right(fields: &Fields) -> Option<Ins>
    ensures { result ≡ shift_right_row fields.now }
{
    let (rd, rs1, shamt) = (fields.rd, fields.rs1, fields.shamt());
    match fields.funct7 / 2 {
        0 => Some(Ins::Srli { rd, rs1, shamt }),
        16 => Some(Ins::Srai { rd, rs1, shamt }),
        _ => None,
    }
}

fn word_shift_left(fields: &Fields) -> Option<Ins>
    ensures { result ≡ word_shift_left_row fields.now }
{
    let (rd, rs1, shamt) = (fields.rd, fields.rs1, fields.word_shamt());
    match fields.funct7 {
        0 => Some(Ins::Slliw { rd, rs1, shamt }),
        _ => None,
    }
}

fn word_shift_right(fields: &Fields) -> Option<Ins>
    ensures { result ≡ word_shift_right_row fields.now }
{
    let (rd, rs1, shamt) = (fields.rd, fields.rs1, fields.word_shamt());
    match fields.funct7 {
        0 => Some(Ins::Srliw { rd, rs1, shamt }),
        32 => Some(Ins::Sraiw { rd, rs1, shamt }),
        _ => None,
    }
}

fn op(fields: &Fields) -> Option<Ins>
    ensures { result ≡ op_row fields.now }
{
    match fields.funct7 {
        0 => op_base(fields),
        32 => op_alternate(fields),
        1 => op_multiply(fields),
        _ => None,
    }
}

fn op_base(fields: &Fields) -> Option<Ins>
    ensures { result ≡ op_base_row fields.now }
{
    let (rd, rs1, rs2) = (fields.rd, fields.rs1, fields.rs2);
    match fields.funct3 {
        0 => Some(Ins::Add { rd, rs1, rs2 }),
        1 => Some(Ins::Sll { rd, rs1, rs2 }),
        2 => Some(Ins::Slt { rd, rs1, rs2 }),
        3 => Some(Ins::Sltu { rd, rs1, rs2 }),
        4 => Some(Ins::Xor { rd, rs1, rs2 }),
        5 => Some(Ins::Srl { rd, rs1, rs2 }),
        6 => Some(Ins::Or { rd, rs1, rs2 }),
        7 => Some(Ins::And { rd, rs1, rs2 }),
        _ => None,
    }
}

fn op_alternate(fields: &Fields) -> Option<Ins>
    ensures { result ≡ op_alternate_row fields.now }
{
    let (rd, rs1, rs2) = (fields.rd, fields.rs1, fields.rs2);
    match fields.funct3 {
        0 => Some(Ins::Sub { rd, rs1, rs2 }),
        5 => Some(Ins::Sra { rd, rs1, rs2 }),
        _ => None,
    }
}

fn op_multiply(fields: &Fields) -> Option<Ins>
    ensures { result ≡ op_multiply_row fields.now }
{
    let (rd, rs1, rs2) = (fields.rd, fields.rs1, fields.rs2);
    match fields.funct3 {
        0 => Some(Ins::Mul { rd, rs1, rs2 }),
        1 => Some(Ins::Mulh { rd, rs1, rs2 }),
        2 => Some(Ins::Mulhsu { rd, rs1, rs2 }),
        3 => Some(Ins::Mulhu { rd, rs1, rs2 }),
        4 => Some(Ins::Div { rd, rs1, rs2 }),
        5 => Some(Ins::Divu { rd, rs1, rs2 }),
        6 => Some(Ins::Rem { rd, rs1, rs2 }),
        7 => Some(Ins::Remu { rd, rs1, rs2 }),
        _ => None,
    }
}

fn op_32(fields: &Fields) -> Option<Ins>
    ensures { result ≡ op_32_row fields.now }
{
    match fields.funct7 {
        0 => op_32_base(fields),
        32 => op_32_alternate(fields),
        1 => op_32_multiply(fields),
        _ => None,
    }
}

fn op_32_base(fields: &Fields) -> Option<Ins>
    ensures { result ≡ op_32_base_row fields.now }
{
    let (rd, rs1, rs2) = (fields.rd, fields.rs1, fields.rs2);
    match fields.funct3 {
        0 => Some(Ins::Addw { rd, rs1, rs2 }),
        1 => Some(Ins::Sllw { rd, rs1, rs2 }),
        5 => Some(Ins::Srlw { rd, rs1, rs2 }),
        _ => None,
    }
}

fn op_32_alternate(fields: &Fields) -> Option<Ins>
    ensures { result ≡ op_32_alternate_row fields.now }
{
    let (rd, rs1, rs2) = (fields.rd, fields.rs1, fields.rs2);
    match fields.funct3 {
        0 => Some(Ins::Subw { rd, rs1, rs2 }),
        5 => Some(Ins::Sraw { rd, rs1, rs2 }),
        _ => None,
    }
}

fn op_32_multiply(fields: &Fields) -> Option<Ins>
    ensures { result ≡ op_32_multiply_row fields.now }
{
    let (rd, rs1, rs2) = (fields.rd, fields.rs1, fields.rs2);
    match fields.funct3 {
        0 => Some(Ins::Mulw { rd, rs1, rs2 }),
        4 => Some(Ins::Divw { rd, rs1, rs2 }),
        5 => Some(Ins::Divuw { rd, rs1, rs2 }),
        6 => Some(Ins::Remw { rd, rs1, rs2 }),
        7 => Some(Ins::Remuw { rd, rs1, rs2 }),
        _ => None,
    }
}

fn system(fields: &Fields) -> Option<Ins>
    ensures { result ≡ system_row fields.now }
{
    let rd = fields.rd.index();
    let rs1 = fields.rs1.index();
    let rs2 = fields.rs2.index();
    if rd == 0 && fields.funct3 == 0 && rs1 == 0 && rs2 == 0 && fields.funct7 == 0 {
        Some(Ins::Ecall)
    } else {
        None
    }
}
