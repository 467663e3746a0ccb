ghost use Rattle.std.specs.Prelude.{◌≡◌, ◌≢◌, ◌<◌, ◌^◌, ◌↔◌, ℕ, IfOk, IfErr, IfSome, IsErr};
ghost use Rattle.std.specs.Result.{result_ok};
ghost use Rattle.rv_isa.specs.declared.ins.Ins.{Ins};
ghost use Rattle.rv_isa.specs.Instructions.{word_of, IsLegal};
ghost use Rattle.rv_isa.specs.Parts.{parts_of};
ghost use Rattle.rv_isa.specs.Rows.{instruction};

use crate::fields::Fields;
use crate::ins::Ins;
use crate::opcodes::instruction_of;
use thiserror::Error;

/// A word that no row of the table has. Those of `fence` and `ebreak` are among these.
#[derive(Clone, Copy, Debug, PartialEq, Eq, Error)]
#[error("illegal instruction {0:#010x}")]
pub struct Illegal(pub u32);

/// The instruction of a word. `Illegal` is each word that is none of RV64I or M, and the words of two instructions of
/// RV64I: `fence` in its forms (`fence.tso`, `pause`), and `ebreak`.
pub fn decode(word: u32) -> Result<Ins, Illegal>
    ensures row { IfOk result (λ ins. IsLegal ins × (word_of ins ≡ word)) }
    ensures back { (ins : Ins) → IsLegal ins → word_of ins ≡ word → result ≡ Ok ins }
    ensures illegal { IsErr result ↔ ((ins : Ins) → IsLegal ins → word_of ins ≢ word) }
    ensures carried { IfErr result (λ illegal. illegal.0 ≡ word) }
    ensures by_parts { result_ok result ≡ instruction (parts_of word) }
{
    instruction_of(&Fields::new(word)).ok_or(Illegal(word))
}

/// Two instructions with their operands in range that have one word are one instruction.
pub fn one_instruction()
    ensures { (a b : Ins) → IsLegal a → IsLegal b → word_of a ≡ word_of b → a ≡ b }
{}

/// The word of an instruction with its operands in range has 32 bits.
pub fn words_fit()
    ensures { (ins : Ins) → IsLegal ins → word_of ins < 2 ^ 32 }
{}

/// The parts of a word with 32 bits give the instruction whose word it is, and nothing where there is none.
pub fn parts_of_words()
    ensures known { (ins : Ins) → IsLegal ins → instruction (parts_of (word_of ins)) ≡ Some ins }
    ensures found { (word : ℕ) → word < 2 ^ 32 →
        IfSome (instruction (parts_of word)) (λ ins. IsLegal ins × (word_of ins ≡ word)) }
{}
