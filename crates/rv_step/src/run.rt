ghost use Rattle.std.specs.Prelude.{◌≡◌, ◌≢◌, ℕ, ◌≤◌, IfOk};
ghost use Rattle.ilc_io.specs.Count.{next_count};
ghost use Rattle.rv_step.specs.Outcomes.{outside, Asks, SinkCounts, GoesOn, EndsAfter, TrapsWithin, ReadFailsWithin};
ghost use Rattle.rv_step.specs.Outcomes.{WriteFailsWithin};
ghost use Rattle.rv_step.specs.declared.trap.Trap.{Trap};

use crate::fault::{RunFault, StepFault};
use crate::machine::Machine;
use ilc_io::{Sink, Source};

/// A run that came to its end.
#[derive(Clone, Copy, Debug, PartialEq, Eq)]
pub struct Ran {
    /// What the program ended with.
    pub status: u8,
    /// The number of steps, with the one that ended it.
    pub steps: u64,
}

impl Machine {
    /// One step: the number that the program ended with, if it has ended.
    pub fn step<I: Source, O: Sink, E: Sink>(
        &mut self,
        input: &mut I,
        out: &mut O,
        err: &mut E,
    ) -> Result<Option<u8>, StepFault>
        ensures goes_on { result ≡ Ok None → GoesOn self.old 1 self.new
            (outside (I.rest input.old) (O.written out.old) (E.written err.old))
            (outside (I.rest input.new) (O.written out.new) (E.written err.new)) }
        ensures ends { (status : ℕ) → result ≡ Ok (Some status) → EndsAfter self.old 1 status self.new
            (outside (I.rest input.old) (O.written out.old) (E.written err.old))
            (outside (I.rest input.new) (O.written out.new) (E.written err.new)) }
        ensures traps { (trap : Trap) → result ≡ Err (StepFault.Trap trap) → TrapsWithin self.old 1 trap self.new
            (outside (I.rest input.old) (O.written out.old) (E.written err.old))
            (outside (I.rest input.new) (O.written out.new) (E.written err.new)) }
        ensures read_fails { result ≡ Err StepFault.ReadFault → ReadFailsWithin self.old 1 self.new
            (outside (I.rest input.old) (O.written out.old) (E.written err.old))
            (outside (I.rest input.new) (O.written out.new) (E.written err.new)) }
        ensures write_fails { result ≡ Err StepFault.WriteFault → WriteFailsWithin self.old 1 self.new
            (outside (I.rest input.old) (O.written out.old) (E.written err.old))
            (outside (I.rest input.new) (O.written out.new) (E.written err.new)) }
        ensures read_fault { result ≡ Err StepFault.ReadFault → I.faults input.new ≡ next_count (I.faults input.old) }
        ensures write_fault { result ≡ Err StepFault.WriteFault →
            SinkCounts (Asks self.new) (O.faults out.old) (O.faults out.new) (E.faults err.old) (E.faults err.new) }
        ensures input_faults { result ≢ Err StepFault.ReadFault → I.faults input.new ≡ I.faults input.old }
        ensures output_faults { result ≢ Err StepFault.WriteFault → O.faults out.new ≡ O.faults out.old }
        ensures error_faults { result ≢ Err StepFault.WriteFault → E.faults err.new ≡ E.faults err.old }
    {
        let mut at_end = false;
        self.advance(input, out, err, &mut at_end)
    }

    /// A run of at most so many steps.
    pub fn run<I: Source, O: Sink, E: Sink>(
        &mut self,
        input: &mut I,
        out: &mut O,
        err: &mut E,
        steps: u64,
    ) -> Result<Ran, RunFault>
        ensures ends { IfOk result (λ ran. EndsAfter self.old ran.steps ran.status self.new
            (outside (I.rest input.old) (O.written out.old) (E.written err.old))
            (outside (I.rest input.new) (O.written out.new) (E.written err.new))) }
        ensures within { IfOk result (λ ran. ran.steps ≤ steps) }
        ensures spent { (done : ℕ) → result ≡ Err (RunFault.Spent done) → (done ≡ steps)
            × GoesOn self.old steps self.new (outside (I.rest input.old) (O.written out.old) (E.written err.old))
            (outside (I.rest input.new) (O.written out.new) (E.written err.new)) }
        ensures traps { (trap : Trap) → result ≡ Err (RunFault.Trap trap) → TrapsWithin self.old steps trap self.new
            (outside (I.rest input.old) (O.written out.old) (E.written err.old))
            (outside (I.rest input.new) (O.written out.new) (E.written err.new)) }
        ensures read_fails { result ≡ Err RunFault.ReadFault → ReadFailsWithin self.old steps self.new
            (outside (I.rest input.old) (O.written out.old) (E.written err.old))
            (outside (I.rest input.new) (O.written out.new) (E.written err.new)) }
        ensures write_fails { result ≡ Err RunFault.WriteFault → WriteFailsWithin self.old steps self.new
            (outside (I.rest input.old) (O.written out.old) (E.written err.old))
            (outside (I.rest input.new) (O.written out.new) (E.written err.new)) }
        ensures read_fault { result ≡ Err RunFault.ReadFault → I.faults input.new ≡ next_count (I.faults input.old) }
        ensures write_fault { result ≡ Err RunFault.WriteFault →
            SinkCounts (Asks self.new) (O.faults out.old) (O.faults out.new) (E.faults err.old) (E.faults err.new) }
        ensures input_faults { result ≢ Err RunFault.ReadFault → I.faults input.new ≡ I.faults input.old }
        ensures output_faults { result ≢ Err RunFault.WriteFault → O.faults out.new ≡ O.faults out.old }
        ensures error_faults { result ≢ Err RunFault.WriteFault → E.faults err.new ≡ E.faults err.old }
    {
        let mut at_end = false;
        for done in 0..steps {
            match self.advance(input, out, err, &mut at_end) {
                Ok(None) => {}
                Ok(Some(status)) => {
                    return Ok(Ran {
                        status,
                        steps: done + 1,
                    });
                }
                Err(fault) => return Err(RunFault::from(fault)),
            }
        }
        Err(RunFault::Spent(steps))
    }
}
