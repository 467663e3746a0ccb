use crate::opcode::Op;
use num_core::List;

/// A method body (ECMA-335 II.25.4).
#[derive(Debug, Drop)]
pub struct Body {
    /// The most slots that the evaluation stack may have.
    pub max_stack: u16,
    /// The token of the signature of the locals, or 0.
    pub locals: u32,
    pub code: List<Instr>,
    pub clauses: List<Clause>,
}

/// An instruction, with the offset at which it stands and that of the instruction behind it.
#[derive(Debug, Drop)]
pub struct Instr {
    pub at: u32,
    pub next: u32,
    pub op: Op,
    pub operand: Operand,
}

/// What stands behind an opcode. A target is an offset in the code.
#[derive(Debug, Drop)]
pub enum Operand {
    Nothing,
    Number(i64),
    Token(u32),
    Target(u32),
    Targets(List<u32>),
}

/// An exception handling clause (ECMA-335 II.25.4.6), with its ranges as offsets in the code.
#[derive(Clone, Copy, Debug, PartialEq, Eq)]
pub struct Clause {
    pub kind: ClauseKind,
    pub try_at: u32,
    pub try_end: u32,
    pub handler_at: u32,
    pub handler_end: u32,
    /// The token of the class of a catch, or the offset of the code of a filter.
    pub class: u32,
}

#[derive(Clone, Copy, Debug, PartialEq, Eq)]
pub enum ClauseKind {
    Catch,
    Filter,
    Finally,
    Fault,
}
