ghost use Rattle.std.specs.Prelude.{◌≡◌, true, All, IfOk, OnOk};
ghost use Rattle.rv_isa.specs.Instructions.{IsLegal};
ghost use Rattle.lir_core.specs.Check.{is_sound};
ghost use Rattle.rv_gen.specs.Lines.{lines_of};
ghost use Rattle.rv_gen.specs.Placing.{code_of, fixes_of, map_of, words_of};

use crate::calling::enter;
use crate::operations::operations;
use crate::placing::place_code;
use lir_core::LirBody;
use num_core::{Fix, List, Memory};
use rv_lines::line::Line;
use std::alloc::Global;

/// The code of a body.
#[derive(Debug, Drop)]
pub struct Code {
    /// The instructions' words. Who enters the body goes to the first.
    pub words: List<u32>,
    /// The places in `words` of an `auipc` that takes an address, whose next word takes the low 12 bits, with their
    /// sign. Both are 0 there.
    pub fixes: List<Fix>,
    /// Places in `words`, each with the offset of the CIL instruction whose code begins there.
    pub map: List<(u32, u32)>,
}

/// A body of more lines than these isn't selected: it is taken for want of memory.
const MOST_LINES: usize = 134_217_728;

/// The code of a body, for RV64IM. In it the first eight variables of the body have the homes x18 to x25. An operation
/// of exceptions becomes what it does where no body has handlers.
pub fn select(alloc: Global, body: &LirBody) -> Result<Code, Memory>
    requires sound { is_sound body.now ≡ true }
    ensures words { IfOk result (λ code. code.words ≡ words_of body.now) }
    ensures fixes { IfOk result (λ code. code.fixes ≡ fixes_of body.now) }
    ensures map { IfOk result (λ code. code.map ≡ map_of body.now) }
    ensures legal { OnOk result (All IsLegal (code_of body.now)) }
{
    let lines = lines(alloc, body)?;
    if lines.len() > MOST_LINES {
        return Err(Memory);
    }
    place_code(alloc, lines.as_slice(), body.marks.as_slice())
}

/// The lines of a body.
#[tactic(auto, unfolding(crate::specs::Lines::lines_of))]
fn lines(alloc: Global, body: &LirBody) -> Result<List<Line>, Memory>
    ensures { IfOk result (λ lines. lines ≡ lines_of body.now) }
{
    let mut lines = List::new(alloc);
    enter(&mut lines, body)?;
    operations(&mut lines, body)?;
    Ok(lines)
}
