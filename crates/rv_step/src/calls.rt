//! Calls of the environment.
ghost use Rattle.std.specs.Prelude.{◌≡◌, ◌+◌, ◌≤◌, ℕ, List, length, Option, OnOk, OnErr, IfOk, IfSome, Bool, [], ◌≢◌};
ghost use Rattle.std.specs.Prelude.{true};
ghost use Rattle.ilc_io.specs.Count.{next_count};
ghost use Rattle.rv_step.specs.Machine.{environment_call, register, request as is_request, writes, reads, to_output};
ghost use Rattle.rv_step.specs.Machine.{to_error, next_pc, with_register};
ghost use Rattle.rv_step.specs.Outcomes.{outside, Requests, SinkCounts};
ghost use Rattle.rv_step.specs.Steps.{StepAnswers, EndIsTrue, Wrote, WroteSome};

use crate::fault::StepFault;
use crate::machine::Machine;
use crate::trap::Cause;
use ilc_io::{Failed, Sink, Source};
use rv_isa::Register;

/// The register of the first argument and of the answer.
const A0: u8 = 10;

/// The register of the second argument, an address.
const A1: u8 = 11;

/// The register of the third argument, a number of bytes.
const A2: u8 = 12;

/// The register of the number of the call.
const A7: u8 = 17;

/// The calls of the environment, numbered as Linux's of this architecture.
#[derive(Clone, Copy)]
pub(crate) enum Request {
    Exit,
    ReadInput,
    WriteOutput,
    WriteError,
    Unknown,
}

fn requested(number: u64, a0: u64) -> Request
    ensures { result ≡ is_request number a0 }
{
    if number == 93 {
        Request::Exit
    } else if number == 63 && a0 == 0 {
        Request::ReadInput
    } else if number == 64 && a0 == 1 {
        Request::WriteOutput
    } else if number == 64 && a0 == 2 {
        Request::WriteError
    } else {
        Request::Unknown
    }
}

/// Writes all bytes.
fn write_all<S: Sink>(sink: &mut S, bytes: &[u8]) -> Result<(), Failed>
    ensures all { OnOk result (Wrote bytes.now (S.written sink.old) (S.written sink.new)) }
    ensures some { OnErr result (WroteSome bytes.now (S.written sink.old) (S.written sink.new)) }
    ensures counted { OnErr result (S.faults sink.new ≡ next_count (S.faults sink.old)) }
    ensures not_counted { OnOk result (S.faults sink.new ≡ S.faults sink.old) }
{
    let mut done = 0;
    while done < bytes.len() {
        match sink.write(&bytes[done..]) {
            Ok(count) => done += count,
            Err(failed) => return Err(failed),
        }
    }
    Ok(())
}

impl Machine {
    /// Does the call of the environment whose number is in a7.
    #[inline(never)]
    pub(crate) fn call<I: Source, O: Sink, E: Sink>(
        &mut self,
        input: &mut I,
        out: &mut O,
        err: &mut E,
        at_end: &mut bool,
    ) -> Result<Option<u8>, StepFault>
        requires { EndIsTrue at_end.old (outside (I.rest input.old) (O.written out.old) (E.written err.old)) }
        ensures answers { StepAnswers (environment_call self.old) result at_end.old at_end.new self.old self.new
            (outside (I.rest input.old) (O.written out.old) (E.written err.old))
            (outside (I.rest input.new) (O.written out.new) (E.written err.new)) }
        ensures read_fault { result ≡ Err StepFault.ReadFault →
            Requests self.old Request.ReadInput × (I.faults input.new ≡ next_count (I.faults input.old)) }
        ensures write_fault { result ≡ Err StepFault.WriteFault →
            SinkCounts (Requests self.old) (O.faults out.old) (O.faults out.new) (E.faults err.old) (E.faults err.new) }
        ensures input_faults { result ≢ Err StepFault.ReadFault → I.faults input.new ≡ I.faults input.old }
        ensures output_faults { result ≢ Err StepFault.WriteFault → O.faults out.new ≡ O.faults out.old }
        ensures error_faults { result ≢ Err StepFault.WriteFault → E.faults err.new ≡ E.faults err.old }
    {
        let a0 = self.get(Register::of(A0));
        match requested(self.get(Register::of(A7)), a0) {
            Request::Exit => Ok(Some((a0 % 256) as u8)),
            Request::ReadInput => self.read_call(input, at_end),
            Request::WriteOutput => self.write_call(out),
            Request::WriteError => self.write_call(err),
            Request::Unknown => Err(StepFault::Trap(self.trap(Cause::Call))),
        }
    }

    /// Puts the answer of a call in a0, and goes on to the next instruction.
    fn answer(&mut self, number: u64)
        ensures { self.new ≡ record {
          pc = next_pc self.old;
          registers = with_register self.old.registers 10 number;
          segments = self.old.segments;
        } }
    {
        self.put(Register::of(A0), number);
        self.go_on();
    }

    /// Writes the a2 bytes from a1 on.
    fn write_call<S: Sink>(&mut self, sink: &mut S) -> Result<Option<u8>, StepFault>
        ensures to_output { (ended : Bool) (rest error : Option (List ℕ)) → EndIsTrue ended
            (outside rest (S.written sink.old) error) →
            StepAnswers (writes self.old to_output) result ended ended self.old self.new
            (outside rest (S.written sink.old) error) (outside rest (S.written sink.new) error) }
        ensures to_error { (ended : Bool) (rest output : Option (List ℕ)) → EndIsTrue ended
            (outside rest output (S.written sink.old)) →
            StepAnswers (writes self.old to_error) result ended ended self.old self.new
            (outside rest output (S.written sink.old)) (outside rest output (S.written sink.new)) }
        ensures not_read { result ≢ Err StepFault.ReadFault }
        ensures counted { result ≡ Err StepFault.WriteFault → (register self.old 12 ≢ 0)
            × (S.faults sink.new ≡ next_count (S.faults sink.old)) }
        ensures not_counted { result ≢ Err StepFault.WriteFault → S.faults sink.new ≡ S.faults sink.old }
    {
        let count = self.get(Register::of(A2));
        if count == 0 {
            self.answer(0);
            return Ok(None);
        }
        let Some(bytes) = self.read(self.get(Register::of(A1)), count) else {
            return Err(StepFault::Trap(self.trap(Cause::Load)));
        };
        match write_all(sink, bytes) {
            Ok(()) => {
                self.answer(count);
                Ok(None)
            }
            Err(_) => Err(StepFault::WriteFault),
        }
    }

    /// Reads into the a2 bytes from a1 on what there is.
    fn read_call<I: Source>(
        &mut self,
        input: &mut I,
        at_end: &mut bool,
    ) -> Result<Option<u8>, StepFault>
        requires { at_end.old ≡ true → IfSome (I.rest input.old) (λ rest. rest ≡ []) }
        ensures answers { (output error : Option (List ℕ)) →
            StepAnswers (reads self.old) result at_end.old at_end.new self.old self.new
            (outside (I.rest input.old) output error) (outside (I.rest input.new) output error) }
        ensures not_written { result ≢ Err StepFault.WriteFault }
        ensures counted { result ≡ Err StepFault.ReadFault → (register self.old 12 ≢ 0)
            × (I.faults input.new ≡ next_count (I.faults input.old)) }
        ensures not_counted { result ≢ Err StepFault.ReadFault → I.faults input.new ≡ I.faults input.old }
    {
        let wanted = self.get(Register::of(A2));
        if wanted == 0 {
            self.answer(0);
            return Ok(None);
        }
        match self.fill(self.get(Register::of(A1)), wanted, input, at_end) {
            Ok(Some(got)) => {
                self.answer(got);
                Ok(None)
            }
            Ok(None) => Err(StepFault::Trap(self.trap(Cause::Store))),
            Err(_) => Err(StepFault::ReadFault),
        }
    }
}
