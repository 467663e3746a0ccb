//! Laws of what the contracts of this crate say. Each function does nothing, and ensures its laws.
ghost use Rattle.std.specs.Prelude.{◌≡◌, ◌↔◌, ℕ, List, Ok, Err};
ghost use Rattle.ilc.specs.Answer.{TellsAll, ComesTo, AreOne};
ghost use Rattle.ilc.specs.Cause.{Cause};
ghost use Rattle.ilc.specs.Refusals.{IsFormed};
ghost use Rattle.ilc.specs.Seen.{StoreSeen, StreamsSeen};
ghost use Rattle.ilc.specs.Words.{command_of, AsksFor, IsFirstWrong};
ghost use Rattle.ilc.specs.declared.command.Command.{Command};
ghost use Rattle.ilc.specs.declared.outcome.Outcome.{Outcome};
ghost use Rattle.ilc.specs.declared.outcome.Outcome.TheVariants.{Refused};
ghost use Rattle.ilc.specs.declared.refusal.Refusal.{Refusal};

/// Words are accepted exactly where they are a line of a command, and else the index of the first word that no line
/// goes on with is told.
pub fn accepted_words()
    ensures accepted { (words : List (List ℕ)) (asked : Command) →
        (command_of words ≡ Ok asked) ↔ AsksFor words asked }
    ensures first_wrong { (words : List (List ℕ)) (index : ℕ) →
        command_of words ≡ Err index → IsFirstWrong index words }
{}

/// Where the store and the source tell all, words come to one outcome, but for counted faults and want of memory.
pub fn one_outcome()
    ensures { (words : List (List ℕ)) (before : StoreSeen) (streams : StreamsSeen) (a b : Outcome) →
        TellsAll before.told streams.outside.rest → ComesTo words before streams a → ComesTo words before streams b
        → AreOne a b }
{}

/// Each refusal that has its cause has the fields that the row of its fault names.
pub fn formed_refusals()
    ensures { (words : List (List ℕ)) (before now : StoreSeen) (streams between : StreamsSeen) (refusal : Refusal) →
        Cause words before now streams between (Refused refusal) → IsFormed refusal }
{}
