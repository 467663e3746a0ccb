ghost use Rattle.std.specs.Prelude.{◌≡◌, [], ◌∷◌, ◌++◌, OnOk, OnErr};

use num_core::{Bytes, List, Memory, Text};
use std::alloc::Global;

/// The names that `size` was asked for, each with its answer.
pub type Answers = List<(Bytes, Option<u64>)>;

/// Notes an answer of `size`.
pub fn note(
    answers: &mut Answers,
    alloc: Global,
    name: &Text,
    answer: Option<u64>,
) -> Result<(), Memory>
    ensures ok { OnOk result (answers.new ≡ answers.old ++ (name.now, answer) ∷ []) }
    ensures err { OnErr result (answers.new ≡ answers.old) }
{
    let name = List::from_slice(alloc, name.bytes())?;
    answers.push((name, answer)).map_err(|_| Memory)
}
