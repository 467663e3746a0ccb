ghost use Rattle.std.specs.Prelude.{◌≡◌, ◌↔◌, ℕ, List, [], length, Ok, Err};
ghost use Rattle.il_code.specs.declared.body.Instr.{Instr};
ghost use Rattle.il_code.specs.Listing.{listed, AreTiles, IsBadOpcode};
ghost use Rattle.il_code.specs.Opcodes.{opcodes};
ghost use Rattle.il_code.specs.Bodies.{body_by_code, body_of};
ghost use Rattle.il_code.specs.Headers.{tiny_header};
ghost use Rattle.il_code.specs.Tiny.{tiny_body};

use crate::opcode::OPCODES;

/// The table of opcodes is that of the standard, row by row (ECMA-335 III.1.2.1).
pub fn opcodes_of_the_standard()
    ensures { OPCODES ≡ opcodes }
{}

/// Code is listed as the instructions that tile it, and refused at an offset where none stands whole behind those that
/// tile it so far.
pub fn tiling()
    ensures whole { (code : List ℕ) (instrs : List Instr) →
        (listed code ≡ Ok instrs) ↔ AreTiles code (length code) instrs }
    ensures cut { (code : List ℕ) (offset : ℕ) → (listed code ≡ Err offset) ↔ IsBadOpcode code offset }
{}

/// What is exactly a tiny header and its code is the body of this code, without clauses.
pub fn tiny_bodies()
    ensures { (bytes code : List ℕ) → tiny_body bytes ≡ Ok code →
        body_of bytes ≡ body_by_code (tiny_header bytes) [] (listed code) }
{}
