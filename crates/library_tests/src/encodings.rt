use num_core::Bytes;
use rv_isa::{Asm, BranchOffset, Illegal, Immediate, Ins, JumpOffset, Register, decode, encode};
use std::alloc::Global;
use std::test::Fail;

/// Words and what they are, by GNU as; `checks/encodings.sh` asks it again.
static ROWS: &str = "\
ffffffb7 Lui { rd: x31, imm: 1048575 }
000010b7 Lui { rd: x1, imm: 1 }
ffffff97 Auipc { rd: x31, imm: 1048575 }
00001097 Auipc { rd: x1, imm: 1 }
800000ef Jal { rd: x1, imm: -1048576 }
7fffffef Jal { rd: x31, imm: 1048574 }
80008fe7 Jalr { rd: x31, rs1: x1, imm: -2048 }
7ff88567 Jalr { rd: x10, rs1: x17, imm: 2047 }
801f8063 Beq { rs1: x31, rs2: x1, imm: -4096 }
7f150fe3 Beq { rs1: x10, rs2: x17, imm: 4094 }
801f9063 Bne { rs1: x31, rs2: x1, imm: -4096 }
7f151fe3 Bne { rs1: x10, rs2: x17, imm: 4094 }
801fc063 Blt { rs1: x31, rs2: x1, imm: -4096 }
7f154fe3 Blt { rs1: x10, rs2: x17, imm: 4094 }
801fd063 Bge { rs1: x31, rs2: x1, imm: -4096 }
7f155fe3 Bge { rs1: x10, rs2: x17, imm: 4094 }
801fe063 Bltu { rs1: x31, rs2: x1, imm: -4096 }
7f156fe3 Bltu { rs1: x10, rs2: x17, imm: 4094 }
801ff063 Bgeu { rs1: x31, rs2: x1, imm: -4096 }
7f157fe3 Bgeu { rs1: x10, rs2: x17, imm: 4094 }
80008f83 Lb { rd: x31, rs1: x1, imm: -2048 }
7ff88503 Lb { rd: x10, rs1: x17, imm: 2047 }
80009f83 Lh { rd: x31, rs1: x1, imm: -2048 }
7ff89503 Lh { rd: x10, rs1: x17, imm: 2047 }
8000af83 Lw { rd: x31, rs1: x1, imm: -2048 }
7ff8a503 Lw { rd: x10, rs1: x17, imm: 2047 }
8000bf83 Ld { rd: x31, rs1: x1, imm: -2048 }
7ff8b503 Ld { rd: x10, rs1: x17, imm: 2047 }
8000cf83 Lbu { rd: x31, rs1: x1, imm: -2048 }
7ff8c503 Lbu { rd: x10, rs1: x17, imm: 2047 }
8000df83 Lhu { rd: x31, rs1: x1, imm: -2048 }
7ff8d503 Lhu { rd: x10, rs1: x17, imm: 2047 }
8000ef83 Lwu { rd: x31, rs1: x1, imm: -2048 }
7ff8e503 Lwu { rd: x10, rs1: x17, imm: 2047 }
801f8023 Sb { rs1: x31, rs2: x1, imm: -2048 }
7f150fa3 Sb { rs1: x10, rs2: x17, imm: 2047 }
801f9023 Sh { rs1: x31, rs2: x1, imm: -2048 }
7f151fa3 Sh { rs1: x10, rs2: x17, imm: 2047 }
801fa023 Sw { rs1: x31, rs2: x1, imm: -2048 }
7f152fa3 Sw { rs1: x10, rs2: x17, imm: 2047 }
801fb023 Sd { rs1: x31, rs2: x1, imm: -2048 }
7f153fa3 Sd { rs1: x10, rs2: x17, imm: 2047 }
80008f93 Addi { rd: x31, rs1: x1, imm: -2048 }
7ff88513 Addi { rd: x10, rs1: x17, imm: 2047 }
8000af93 Slti { rd: x31, rs1: x1, imm: -2048 }
7ff8a513 Slti { rd: x10, rs1: x17, imm: 2047 }
8000bf93 Sltiu { rd: x31, rs1: x1, imm: -2048 }
7ff8b513 Sltiu { rd: x10, rs1: x17, imm: 2047 }
8000cf93 Xori { rd: x31, rs1: x1, imm: -2048 }
7ff8c513 Xori { rd: x10, rs1: x17, imm: 2047 }
8000ef93 Ori { rd: x31, rs1: x1, imm: -2048 }
7ff8e513 Ori { rd: x10, rs1: x17, imm: 2047 }
8000ff93 Andi { rd: x31, rs1: x1, imm: -2048 }
7ff8f513 Andi { rd: x10, rs1: x17, imm: 2047 }
03f09f93 Slli { rd: x31, rs1: x1, shamt: 63 }
02089513 Slli { rd: x10, rs1: x17, shamt: 32 }
03f0df93 Srli { rd: x31, rs1: x1, shamt: 63 }
0208d513 Srli { rd: x10, rs1: x17, shamt: 32 }
43f0df93 Srai { rd: x31, rs1: x1, shamt: 63 }
4208d513 Srai { rd: x10, rs1: x17, shamt: 32 }
80008f9b Addiw { rd: x31, rs1: x1, imm: -2048 }
7ff8851b Addiw { rd: x10, rs1: x17, imm: 2047 }
01f09f9b Slliw { rd: x31, rs1: x1, shamt: 31 }
0018951b Slliw { rd: x10, rs1: x17, shamt: 1 }
01f0df9b Srliw { rd: x31, rs1: x1, shamt: 31 }
0018d51b Srliw { rd: x10, rs1: x17, shamt: 1 }
41f0df9b Sraiw { rd: x31, rs1: x1, shamt: 31 }
4018d51b Sraiw { rd: x10, rs1: x17, shamt: 1 }
00a08fb3 Add { rd: x31, rs1: x1, rs2: x10 }
00a09fb3 Sll { rd: x31, rs1: x1, rs2: x10 }
00a0afb3 Slt { rd: x31, rs1: x1, rs2: x10 }
00a0bfb3 Sltu { rd: x31, rs1: x1, rs2: x10 }
00a0cfb3 Xor { rd: x31, rs1: x1, rs2: x10 }
00a0dfb3 Srl { rd: x31, rs1: x1, rs2: x10 }
00a0efb3 Or { rd: x31, rs1: x1, rs2: x10 }
00a0ffb3 And { rd: x31, rs1: x1, rs2: x10 }
40a08fb3 Sub { rd: x31, rs1: x1, rs2: x10 }
40a0dfb3 Sra { rd: x31, rs1: x1, rs2: x10 }
02a08fb3 Mul { rd: x31, rs1: x1, rs2: x10 }
02a09fb3 Mulh { rd: x31, rs1: x1, rs2: x10 }
02a0afb3 Mulhsu { rd: x31, rs1: x1, rs2: x10 }
02a0bfb3 Mulhu { rd: x31, rs1: x1, rs2: x10 }
02a0cfb3 Div { rd: x31, rs1: x1, rs2: x10 }
02a0dfb3 Divu { rd: x31, rs1: x1, rs2: x10 }
02a0efb3 Rem { rd: x31, rs1: x1, rs2: x10 }
02a0ffb3 Remu { rd: x31, rs1: x1, rs2: x10 }
00a08fbb Addw { rd: x31, rs1: x1, rs2: x10 }
00a09fbb Sllw { rd: x31, rs1: x1, rs2: x10 }
00a0dfbb Srlw { rd: x31, rs1: x1, rs2: x10 }
40a08fbb Subw { rd: x31, rs1: x1, rs2: x10 }
40a0dfbb Sraw { rd: x31, rs1: x1, rs2: x10 }
02a08fbb Mulw { rd: x31, rs1: x1, rs2: x10 }
02a0cfbb Divw { rd: x31, rs1: x1, rs2: x10 }
02a0dfbb Divuw { rd: x31, rs1: x1, rs2: x10 }
02a0efbb Remw { rd: x31, rs1: x1, rs2: x10 }
02a0ffbb Remuw { rd: x31, rs1: x1, rs2: x10 }
00000073 Ecall
";

#[test]
fn every_row(rt: HostRuntime) -> Result<(), Fail> {
    for row in ROWS.lines() {
        let (digits, text) = row.split_once(' ').ok_or("no text")?;
        let word = u32::from_str_radix(digits, 16)?;
        let ins = decode(word)?;
        assert_eq!(rt; format!(in rt.alloc(); "{ins:?}")?.as_str(), text);
        assert_eq!(rt; encode(&ins), word);
    }
    Ok(())
}

/// `fence`, `ebreak`, and words that no instruction of the manual has.
#[test]
fn illegal_words(rt: HostRuntime) -> Result<(), Fail> {
    for word in [0x0ff0_000f, 0x0010_0073, 0x0000_0000, 0xffff_ffff] {
        assert_eq!(rt; decode(word), Err(Illegal(word)), "{word:#x}");
    }
    assert_eq!(rt;
        format!(in rt.alloc(); "{}", Illegal(0x1f))?.as_str(),
        "illegal instruction 0x0000001f"
    );
    Ok(())
}

/// Code with a branch on and a jump back.
fn with_labels(alloc: Global) -> Result<Bytes, Fail> {
    let mut asm = Asm::new(alloc);
    let start = asm.label()?;
    let end = asm.label()?;
    asm.bind(start);
    let x0 = Register::of(0);
    let x10 = Register::of(10);
    asm.emit_to(
        Ins::Beq {
            rs1: x10,
            rs2: x0,
            imm: BranchOffset::of(0),
        },
        end,
    )?;
    asm.emit(Ins::Addi {
        rd: x10,
        rs1: x10,
        imm: Immediate::of(-1),
    })?;
    asm.emit_to(
        Ins::Jal {
            rd: x0,
            imm: JumpOffset::of(0),
        },
        start,
    )?;
    asm.bind(end);
    asm.emit(Ins::Ecall)?;
    Ok(asm.finish()?)
}

#[test]
fn labels_before_and_behind(rt: HostRuntime) -> Result<(), Fail> {
    let bytes = with_labels(rt.alloc())?;
    let wanted = hex::decode(rt.alloc(), "630605001305f5ff6ff09fff73000000")?;
    assert_eq!(rt; bytes.as_slice(), wanted.as_slice());
    Ok(())
}
