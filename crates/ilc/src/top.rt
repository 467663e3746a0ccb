ghost use Rattle.std.specs.Prelude.{◌≡◌, ◌⊎◌, ℕ, List, Bool, ◌≤◌, Ok};
ghost use Rattle.ilc.specs.Answer.{Answers, HasWritten, HasBare, HasProgram, NoneCounted, NoneOfStreams};
ghost use Rattle.ilc.specs.Answer.{HasListed, HasAssembly, HasImage, HasText};
ghost use Rattle.ilc.specs.Seen.{store_seen, streams_seen};
ghost use Rattle.ilc.specs.Words.{command_of};

use crate::command::Command;
use crate::perform::perform;
use crate::report::report;
use ilc_io::{Files, Sink, Source};
use num_core::Text;
use std::alloc::Global;

/// Does what the words of a command line say, over these files and streams, and gives the status that the
/// process ends with.
///
/// The words are those behind the program's name: `body FILE -o OUT` builds the bare body in FILE and writes an
/// executable file to OUT, `run ELF --steps N --count` runs an executable file on the machine for at most N steps, and
/// prints as error text how many it did to its end, `dis FILE` prints the text of the assembly in FILE, and
/// `asm FILE -o OUT` writes to OUT the image of the assembly whose text is in FILE. A refusal prints one line as error
/// text.
pub fn ilc<F: Files, I: Source, O: Sink, E: Sink>(
    alloc: Global,
    words: &[Text],
    files: &mut F,
    input: &mut I,
    out: &mut O,
    err: &mut E,
) -> u8
    ensures answers { Answers words.now
        (store_seen (F.told files.old) (F.asked files.old) (F.calls files.old) (F.read_faults files.old)
        (F.write_faults files.old))
        (store_seen (F.told files.new) (F.asked files.new) (F.calls files.new) (F.read_faults files.new)
        (F.write_faults files.new))
        (streams_seen (I.rest input.old) (O.written out.old) (E.written err.old) (I.faults input.old)
        (O.faults out.old) (E.faults err.old))
        (streams_seen (I.rest input.new) (O.written out.new) (E.written err.new) (I.faults input.new)
        (O.faults out.new) (E.faults err.new))
        result }
    // Where the words are `body FILE -o OUT` and the status is 0, the file that was written does what the body does.
    ensures body { (file out : List ℕ) → command_of words.now ≡ Ok (Command.Body file out) → result ≡ 0
        → HasWritten file out (F.told files.old) (F.told files.new) }
    // Where FILE has the bytes of a bare body and no fault of the store is counted, it is built, or memory is wanting.
    ensures body_complete { (file out : List ℕ) → command_of words.now ≡ Ok (Command.Body file out)
        → HasBare file (F.told files.old)
        → NoneCounted
        (store_seen (F.told files.old) (F.asked files.old) (F.calls files.old) (F.read_faults files.old)
        (F.write_faults files.old))
        (store_seen (F.told files.new) (F.asked files.new) (F.calls files.new) (F.read_faults files.new)
        (F.write_faults files.new))
        → (result ≡ 0) ⊎ (result ≡ 75) }
    // Where ELF has the bytes of a program that ends within the steps that it may do, and no fault is counted, the
    // status is the program's, or memory is wanting.
    ensures run_complete { (elf : List ℕ) (limit : ℕ) (count : Bool) (steps status : ℕ) →
        command_of words.now ≡ Ok (Command.Run elf limit count)
        → steps ≤ limit → HasProgram elf steps status (F.told files.old) (I.rest input.old)
        → NoneCounted
        (store_seen (F.told files.old) (F.asked files.old) (F.calls files.old) (F.read_faults files.old)
        (F.write_faults files.old))
        (store_seen (F.told files.new) (F.asked files.new) (F.calls files.new) (F.read_faults files.new)
        (F.write_faults files.new))
        → NoneOfStreams
        (streams_seen (I.rest input.old) (O.written out.old) (E.written err.old) (I.faults input.old)
        (O.faults out.old) (E.faults err.old))
        (streams_seen (I.rest input.new) (O.written out.new) (E.written err.new) (I.faults input.new)
        (O.faults out.new) (E.faults err.new))
        → (result ≡ status) ⊎ (result ≡ 75) }
    // Where the words are `dis FILE` and the status is 0, the text of the assembly in FILE was written as output.
    ensures dis { (file : List ℕ) → command_of words.now ≡ Ok (Command.Dis file) → result ≡ 0
        → HasListed file (F.told files.old) (O.written out.old) (O.written out.new) }
    // Where FILE has the bytes of an assembly and no fault is counted, its text is written, or memory is wanting.
    ensures dis_complete { (file : List ℕ) → command_of words.now ≡ Ok (Command.Dis file)
        → HasAssembly file (F.told files.old)
        → NoneCounted
        (store_seen (F.told files.old) (F.asked files.old) (F.calls files.old) (F.read_faults files.old)
        (F.write_faults files.old))
        (store_seen (F.told files.new) (F.asked files.new) (F.calls files.new) (F.read_faults files.new)
        (F.write_faults files.new))
        → NoneOfStreams
        (streams_seen (I.rest input.old) (O.written out.old) (E.written err.old) (I.faults input.old)
        (O.faults out.old) (E.faults err.old))
        (streams_seen (I.rest input.new) (O.written out.new) (E.written err.new) (I.faults input.new)
        (O.faults out.new) (E.faults err.new))
        → (result ≡ 0) ⊎ (result ≡ 75) }
    // Where the words are `asm FILE -o OUT` and the status is 0, the image of the module that the text in FILE means
    // was written.
    ensures asm { (file out : List ℕ) → command_of words.now ≡ Ok (Command.Asm file out) → result ≡ 0
        → HasImage file out (F.told files.old) (F.told files.new) }
    // Where FILE has the text of an assembly and no fault of the store is counted, its image is written, or memory is
    // wanting.
    ensures asm_complete { (file out : List ℕ) → command_of words.now ≡ Ok (Command.Asm file out)
        → HasText file (F.told files.old)
        → NoneCounted
        (store_seen (F.told files.old) (F.asked files.old) (F.calls files.old) (F.read_faults files.old)
        (F.write_faults files.old))
        (store_seen (F.told files.new) (F.asked files.new) (F.calls files.new) (F.read_faults files.new)
        (F.write_faults files.new))
        → (result ≡ 0) ⊎ (result ≡ 75) }
{
    let outcome = perform(alloc, words, files, input, out, err);
    let _ = report(err, &outcome);
    outcome.status()
}
