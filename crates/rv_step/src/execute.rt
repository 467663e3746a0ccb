ghost use Rattle.std.specs.Prelude.{◌≡◌, ◌≢◌};
ghost use Rattle.ilc_io.specs.Count.{next_count};
ghost use Rattle.rv_step.specs.Machine.{machine_step, effect};
ghost use Rattle.rv_step.specs.Outcomes.{outside, Asks, SinkCounts};
ghost use Rattle.rv_step.specs.Steps.{Does, StepAnswers, EndIsTrue};
ghost use Rattle.rv_step.specs.declared.calls.Request.TheVariants.{ReadInput};

use crate::fault::StepFault;
use crate::machine::Machine;
use crate::trap::Cause;
use crate::value;
use ilc_io::{Sink, Source};
use rv_isa::{Ins, decode};

impl Machine {
    /// One step in the midst of a run. `at_end` says whether the source has said that it is at its end;
    /// it isn't asked again then.
    pub(crate) fn advance<I: Source, O: Sink, E: Sink>(
        &mut self,
        input: &mut I,
        out: &mut O,
        err: &mut E,
        at_end: &mut bool,
    ) -> Result<Option<u8>, StepFault>
        requires { EndIsTrue at_end.old (outside (I.rest input.old) (O.written out.old) (E.written err.old)) }
        ensures answers { StepAnswers (machine_step self.old) result at_end.old at_end.new self.old self.new
            (outside (I.rest input.old) (O.written out.old) (E.written err.old))
            (outside (I.rest input.new) (O.written out.new) (E.written err.new)) }
        ensures read_fault { result ≡ Err StepFault.ReadFault →
            Asks self.old ReadInput × (I.faults input.new ≡ next_count (I.faults input.old)) }
        ensures write_fault { result ≡ Err StepFault.WriteFault →
            SinkCounts (Asks self.old) (O.faults out.old) (O.faults out.new) (E.faults err.old) (E.faults err.new) }
        ensures input_faults { result ≢ Err StepFault.ReadFault → I.faults input.new ≡ I.faults input.old }
        ensures output_faults { result ≢ Err StepFault.WriteFault → O.faults out.new ≡ O.faults out.old }
        ensures error_faults { result ≢ Err StepFault.WriteFault → E.faults err.new ≡ E.faults err.old }
    {
        let Some(word) = self.fetch() else {
            return Err(StepFault::Trap(self.trap(Cause::Fetch)));
        };
        let Ok(ins) = decode(word) else {
            return Err(StepFault::Trap(self.trap(Cause::Illegal)));
        };
        match ins {
            Ins::Ecall => self.call(input, out, err, at_end),
            _ => match self.perform(ins) {
                Ok(()) => Ok(None),
                Err(cause) => Err(StepFault::Trap(self.trap(cause))),
            },
        }
    }

    /// Does an instruction that calls nothing outside.
    #[inline]
    fn perform(&mut self, ins: Ins) -> Result<(), Cause>
        requires { ins ≢ Ins.Ecall }
        ensures { Does (effect ins self.old) result self.old self.new }
    {
        match ins {
            Ins::Lui { rd, imm } => self.give(rd, value::upper(imm)),
            Ins::Auipc { rd, imm } => self.give(rd, value::add_upper(self.pc(), imm)),
            Ins::Jal { rd, imm } => self.jump(rd, value::jump_target(self.pc(), imm)),
            Ins::Jalr { rd, rs1, imm } => self.jump(
                rd,
                value::without_bit_0(self.address(rs1, imm)),
            ),
            Ins::Beq { rs1, rs2, imm } => self.branch_if(
                value::is_equal(self.get(rs1), self.get(rs2)),
                imm,
            ),
            Ins::Bne { rs1, rs2, imm } => self.branch_unless(
                value::is_equal(self.get(rs1), self.get(rs2)),
                imm,
            ),
            Ins::Blt { rs1, rs2, imm } => self.branch_if(
                value::is_less(self.get(rs1), self.get(rs2)),
                imm,
            ),
            Ins::Bge { rs1, rs2, imm } => self.branch_unless(
                value::is_less(self.get(rs1), self.get(rs2)),
                imm,
            ),
            Ins::Bltu { rs1, rs2, imm } => self.branch_if(
                value::is_less_unsigned(self.get(rs1), self.get(rs2)),
                imm,
            ),
            Ins::Bgeu { rs1, rs2, imm } => self.branch_unless(
                value::is_less_unsigned(self.get(rs1), self.get(rs2)),
                imm,
            ),
            Ins::Lb { rd, rs1, imm } => self.load_byte(rd, self.address(rs1, imm)),
            Ins::Lh { rd, rs1, imm } => self.load_half(rd, self.address(rs1, imm)),
            Ins::Lw { rd, rs1, imm } => self.load_word(rd, self.address(rs1, imm)),
            Ins::Ld { rd, rs1, imm } => self.load_double(rd, self.address(rs1, imm)),
            Ins::Lbu { rd, rs1, imm } => self.load_byte_unsigned(rd, self.address(rs1, imm)),
            Ins::Lhu { rd, rs1, imm } => self.load_half_unsigned(rd, self.address(rs1, imm)),
            Ins::Lwu { rd, rs1, imm } => self.load_word_unsigned(rd, self.address(rs1, imm)),
            Ins::Sb { rs1, rs2, imm } => self.store(self.address(rs1, imm), 1, self.get(rs2)),
            Ins::Sh { rs1, rs2, imm } => self.store(self.address(rs1, imm), 2, self.get(rs2)),
            Ins::Sw { rs1, rs2, imm } => self.store(self.address(rs1, imm), 4, self.get(rs2)),
            Ins::Sd { rs1, rs2, imm } => self.store(self.address(rs1, imm), 8, self.get(rs2)),
            Ins::Addi { rd, rs1, imm } => self.give(rd, value::add_immediate(self.get(rs1), imm)),
            Ins::Slti { rd, rs1, imm } => self.give(
                rd,
                value::one_if(value::is_less_than_immediate(self.get(rs1), imm)),
            ),
            Ins::Sltiu { rd, rs1, imm } => self.give(
                rd,
                value::one_if(value::is_less_unsigned(self.get(rs1), value::immediate(imm))),
            ),
            Ins::Xori { rd, rs1, imm } => self.give(rd, self.get(rs1) ^ value::immediate(imm)),
            Ins::Ori { rd, rs1, imm } => self.give(rd, self.get(rs1) | value::immediate(imm)),
            Ins::Andi { rd, rs1, imm } => self.give(rd, self.get(rs1) & value::immediate(imm)),
            Ins::Slli { rd, rs1, shamt } => self.give(
                rd,
                value::shift_left(self.get(rs1), shamt.value()),
            ),
            Ins::Srli { rd, rs1, shamt } => self.give(
                rd,
                value::shift_right(self.get(rs1), shamt.value()),
            ),
            Ins::Srai { rd, rs1, shamt } => self.give(
                rd,
                value::shift_right_signed(self.get(rs1), shamt.value()),
            ),
            Ins::Addiw { rd, rs1, imm } => self.give(
                rd,
                value::add_immediate_word(self.get(rs1), imm),
            ),
            Ins::Slliw { rd, rs1, shamt } => self.give(
                rd,
                value::shift_word_left(self.get(rs1), shamt.value()),
            ),
            Ins::Srliw { rd, rs1, shamt } => self.give(
                rd,
                value::shift_word_right(self.get(rs1), shamt.value()),
            ),
            Ins::Sraiw { rd, rs1, shamt } => self.give(
                rd,
                value::shift_word_right_signed(self.get(rs1), shamt.value()),
            ),
            Ins::Add { rd, rs1, rs2 } => self.give(rd, value::add(self.get(rs1), self.get(rs2))),
            Ins::Sll { rd, rs1, rs2 } => self.give(
                rd,
                value::shift_left(self.get(rs1), value::low_6(self.get(rs2))),
            ),
            Ins::Slt { rd, rs1, rs2 } => self.give(
                rd,
                value::one_if(value::is_less(self.get(rs1), self.get(rs2))),
            ),
            Ins::Sltu { rd, rs1, rs2 } => self.give(
                rd,
                value::one_if(value::is_less_unsigned(self.get(rs1), self.get(rs2))),
            ),
            Ins::Xor { rd, rs1, rs2 } => self.give(rd, self.get(rs1) ^ self.get(rs2)),
            Ins::Srl { rd, rs1, rs2 } => self.give(
                rd,
                value::shift_right(self.get(rs1), value::low_6(self.get(rs2))),
            ),
            Ins::Or { rd, rs1, rs2 } => self.give(rd, self.get(rs1) | self.get(rs2)),
            Ins::And { rd, rs1, rs2 } => self.give(rd, self.get(rs1) & self.get(rs2)),
            Ins::Sub { rd, rs1, rs2 } => self.give(rd, value::sub(self.get(rs1), self.get(rs2))),
            Ins::Sra { rd, rs1, rs2 } => self.give(
                rd,
                value::shift_right_signed(self.get(rs1), value::low_6(self.get(rs2))),
            ),
            Ins::Mul { rd, rs1, rs2 } => self.give(rd, value::mul(self.get(rs1), self.get(rs2))),
            Ins::Mulh { rd, rs1, rs2 } => self.give(
                rd,
                value::mul_upper(self.get(rs1), self.get(rs2)),
            ),
            Ins::Mulhsu { rd, rs1, rs2 } => self.give(
                rd,
                value::mul_upper_mixed(self.get(rs1), self.get(rs2)),
            ),
            Ins::Mulhu { rd, rs1, rs2 } => self.give(
                rd,
                value::mul_upper_unsigned(self.get(rs1), self.get(rs2)),
            ),
            Ins::Div { rd, rs1, rs2 } => self.give(rd, value::div(self.get(rs1), self.get(rs2))),
            Ins::Divu { rd, rs1, rs2 } => self.give(
                rd,
                value::div_unsigned(self.get(rs1), self.get(rs2)),
            ),
            Ins::Rem { rd, rs1, rs2 } => self.give(rd, value::rem(self.get(rs1), self.get(rs2))),
            Ins::Remu { rd, rs1, rs2 } => self.give(
                rd,
                value::rem_unsigned(self.get(rs1), self.get(rs2)),
            ),
            Ins::Addw { rd, rs1, rs2 } => self.give(
                rd,
                value::add_word(self.get(rs1), self.get(rs2)),
            ),
            Ins::Sllw { rd, rs1, rs2 } => self.give(
                rd,
                value::shift_word_left(self.get(rs1), value::low_5(self.get(rs2))),
            ),
            Ins::Srlw { rd, rs1, rs2 } => self.give(
                rd,
                value::shift_word_right(self.get(rs1), value::low_5(self.get(rs2))),
            ),
            Ins::Subw { rd, rs1, rs2 } => self.give(
                rd,
                value::sub_word(self.get(rs1), self.get(rs2)),
            ),
            Ins::Sraw { rd, rs1, rs2 } => self.give(
                rd,
                value::shift_word_right_signed(self.get(rs1), value::low_5(self.get(rs2))),
            ),
            Ins::Mulw { rd, rs1, rs2 } => self.give(
                rd,
                value::mul_word(self.get(rs1), self.get(rs2)),
            ),
            Ins::Divw { rd, rs1, rs2 } => self.give(
                rd,
                value::div_word(self.get(rs1), self.get(rs2)),
            ),
            Ins::Divuw { rd, rs1, rs2 } => self.give(
                rd,
                value::div_word_unsigned(self.get(rs1), self.get(rs2)),
            ),
            Ins::Remw { rd, rs1, rs2 } => self.give(
                rd,
                value::rem_word(self.get(rs1), self.get(rs2)),
            ),
            Ins::Remuw { rd, rs1, rs2 } => self.give(
                rd,
                value::rem_word_unsigned(self.get(rs1), self.get(rs2)),
            ),
            Ins::Ecall => unreachable!(),
        }
    }
}
