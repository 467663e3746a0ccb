ghost use Rattle.std.specs.Prelude.{◌≡◌, ℕ, List, ◌∷◌, [], ◌<◌, ◌≤◌, ◌^◌, length, Option, IfOk, IfErr};
ghost use Rattle.ilc.specs.Seen.{store_seen, streams_seen};
ghost use Rattle.il_text.specs.Assembling.{assembled};
ghost use Rattle.il_text.specs.Reading.{Refuses};
ghost use Rattle.ilc_build.specs.Implements.{Builds};
ghost use Rattle.ilc.specs.Cause.{NotTaken, IsRead, IsMade, WriteOutcome, BodyOutcome, IsLoaded, MachineOutcome};
ghost use Rattle.ilc.specs.Cause.{Cause, Assembles, IsAssembly, DisOutcome, TextOutcome, IsImageOf, AsmOutcome};
ghost use Rattle.ilc.specs.Stages.{Stage, body_stages, elf_stages, assembly_stages, text_stages, fault_of, fields_of};
ghost use Rattle.ilc.specs.Stages.{refusal_of, image_finding};
ghost use Rattle.ilc.specs.Stages.{body_method as body_method_text};
ghost use Rattle.ilc.specs.Reading.{IsRefusedBy, IsNoAssembly, IsUnreadable, TellsTables, IsOrMemory, ReadGives};
ghost use Rattle.ilc.specs.Reading.{TellsText};
ghost use Rattle.ilc.specs.declared.outcome.Outcome.TheVariants.{Refused};

use crate::command::{Command, parse_command};
use crate::outcome::Outcome;
use crate::reading::{WordsFault, copied};
use crate::refusal::{Fault, Field, Fields, Refusal};
use crate::report::{report_count, write_all};
use elf_file::{ElfFault, load_elf};
use il_text::{IlTextFault, assemble, list};
use ilc_build::{BuildFault, build_body};
use ilc_io::{FileFault, Files, Sink, Source, read_file, write_file};
use md_tables::{Module, TableFault, read_tables};
use md_write::write_image;
use num_core::{Bytes, Text};
use pe_image::{PeFault, open_image};
use rv_step::{Machine, RunFault};
use std::alloc::Global;

/// The most bytes of a file other than an executable.
const FILE_LIMIT: u64 = 16_777_216;

/// The most bytes of an executable file.
const ELF_LIMIT: u64 = 1_073_741_824;

/// Does what the words say.
pub(crate) fn perform<F: Files, I: Source, O: Sink, E: Sink>(
    alloc: Global,
    words: &[Text],
    files: &mut F,
    input: &mut I,
    out: &mut O,
    err: &mut E,
) -> Outcome
    ensures { Cause words.now
        (store_seen (F.told files.old) (F.asked files.old) (F.calls files.old) (F.read_faults files.old)
        (F.write_faults files.old))
        (store_seen (F.told files.new) (F.asked files.new) (F.calls files.new) (F.read_faults files.new)
        (F.write_faults files.new))
        (streams_seen (I.rest input.old) (O.written out.old) (E.written err.old) (I.faults input.old)
        (O.faults out.old) (E.faults err.old))
        (streams_seen (I.rest input.new) (O.written out.new) (E.written err.new) (I.faults input.new)
        (O.faults out.new) (E.faults err.new))
        result }
{
    match parse_command(alloc, words) {
        Err(WordsFault::Wrong(index)) => Outcome::Usage { index },
        Err(WordsFault::Memory) => Outcome::Memory,
        Ok(Command::Body { file, out: target }) => body(alloc, files, &file, &target),
        Ok(Command::Run { elf, steps, count }) => match load(alloc, files, &elf) {
            Ok(mut machine) => run(&mut machine, input, out, err, steps, count),
            Err(outcome) => outcome,
        },
        Ok(Command::Asm { file, out: target }) => asm(alloc, files, &file, &target),
        Ok(Command::Dis { file }) => dis(alloc, files, out, &file),
    }
}

/// Builds the body in a file, and writes the executable to another.
fn body<F: Files>(alloc: Global, files: &mut F, file: &Text, out: &Text) -> Outcome
    ensures { BodyOutcome file.now out.now
        (store_seen (F.told files.old) (F.asked files.old) (F.calls files.old) (F.read_faults files.old)
        (F.write_faults files.old))
        (store_seen (F.told files.new) (F.asked files.new) (F.calls files.new) (F.read_faults files.new)
        (F.write_faults files.new))
        result }
{
    match build(alloc, files, file) {
        Ok(elf) => write(files, out, elf.as_slice()),
        Err(outcome) => outcome,
    }
}

/// Builds the body in a file.
fn build<F: Files>(alloc: Global, files: &mut F, file: &Text) -> Result<Bytes, Outcome>
    ensures built { IfOk result (λ elf. IsMade Builds file.now elf
        (store_seen (F.told files.old) (F.asked files.old) (F.calls files.old) (F.read_faults files.old)
        (F.write_faults files.old))
        (store_seen (F.told files.new) (F.asked files.new) (F.calls files.new) (F.read_faults files.new)
        (F.write_faults files.new))) }
    ensures refused { IfErr result (NotTaken body_stages file.now FILE_LIMIT
        (store_seen (F.told files.old) (F.asked files.old) (F.calls files.old) (F.read_faults files.old)
        (F.write_faults files.old))
        (store_seen (F.told files.new) (F.asked files.new) (F.calls files.new) (F.read_faults files.new)
        (F.write_faults files.new))) }
    ensures same_files { F.told files.new ≡ F.told files.old }
{
    let bytes = match read(alloc, files, file, FILE_LIMIT) {
        Ok(bytes) => bytes,
        Err(outcome) => return Err(outcome),
    };
    match build_body(alloc, bytes.as_slice()) {
        Ok(elf) => Ok(elf),
        Err(fault) => Err(build_outcome(alloc, fault, file)),
    }
}

/// Loads an executable file.
fn load<F: Files>(alloc: Global, files: &mut F, elf: &Text) -> Result<Machine, Outcome>
    ensures loaded { IfOk result (λ machine. IsLoaded elf.now machine
        (store_seen (F.told files.old) (F.asked files.old) (F.calls files.old) (F.read_faults files.old)
        (F.write_faults files.old))
        (store_seen (F.told files.new) (F.asked files.new) (F.calls files.new) (F.read_faults files.new)
        (F.write_faults files.new))) }
    ensures refused { IfErr result (NotTaken elf_stages elf.now ELF_LIMIT
        (store_seen (F.told files.old) (F.asked files.old) (F.calls files.old) (F.read_faults files.old)
        (F.write_faults files.old))
        (store_seen (F.told files.new) (F.asked files.new) (F.calls files.new) (F.read_faults files.new)
        (F.write_faults files.new))) }
    ensures same_files { F.told files.new ≡ F.told files.old }
{
    let content = match read(alloc, files, elf, ELF_LIMIT) {
        Ok(content) => content,
        Err(outcome) => return Err(outcome),
    };
    match load_elf(alloc, content.as_slice()) {
        Ok(machine) => Ok(machine),
        Err(ElfFault::BadElf(place)) => {
            Err(refused(alloc, Fault::BadElf, elf.bytes(), &[place]))
        }
        Err(ElfFault::Memory) => Err(Outcome::Memory),
    }
}

/// Reads a whole file.
fn read<F: Files>(alloc: Global, files: &mut F, name: &Text, limit: u64) -> Result<Bytes, Outcome>
    ensures read { IfOk result (λ bytes. IsRead name.now limit bytes
        (store_seen (F.told files.old) (F.asked files.old) (F.calls files.old) (F.read_faults files.old)
        (F.write_faults files.old))
        (store_seen (F.told files.new) (F.asked files.new) (F.calls files.new) (F.read_faults files.new)
        (F.write_faults files.new))) }
    ensures not_read { (stages : List Stage) → IfErr result (NotTaken stages name.now limit
        (store_seen (F.told files.old) (F.asked files.old) (F.calls files.old) (F.read_faults files.old)
        (F.write_faults files.old))
        (store_seen (F.told files.new) (F.asked files.new) (F.calls files.new) (F.read_faults files.new)
        (F.write_faults files.new))) }
    ensures same_files { F.told files.new ≡ F.told files.old }
    ensures same_write_faults { F.write_faults files.new ≡ F.write_faults files.old }
{
    match read_file(alloc, files, name, limit) {
        Ok(bytes) => Ok(bytes),
        Err(fault) => Err(read_outcome(alloc, fault, name)),
    }
}

/// The outcome of a file that wasn't read.
fn read_outcome(alloc: Global, fault: FileFault, name: &Text) -> Outcome
    ensures { ReadGives fault name.now result }
{
    match fault {
        FileFault::Missing => match copied(alloc, name.bytes()) {
            Ok(name) => Outcome::NoFile { name },
            Err(_) => Outcome::Memory,
        },
        FileFault::TooLong(size) => Outcome::TooLong { size },
        FileFault::Failed => Outcome::ReadFault,
        FileFault::Memory => Outcome::Memory,
    }
}

/// The outcome of a file that isn't built.
fn build_outcome(alloc: Global, fault: BuildFault, file: &Text) -> Outcome
    ensures { (bytes : List ℕ) → IsRefusedBy bytes file.now fault result }
{
    match fault {
        BuildFault::BadHeader(at) => {
            refused(alloc, Fault::BadHeader, file.bytes(), &[at as u64])
        }
        BuildFault::BadOpcode(at) => {
            refused(alloc, Fault::BadOpcode, body_method(), &[at as u64])
        }
        BuildFault::BadTarget(at) => {
            refused(alloc, Fault::BadTarget, body_method(), &[at as u64])
        }
        BuildFault::OpcodeOutside(at) => {
            refused(alloc, Fault::OpcodeOutside, body_method(), &[at as u64])
        }
        BuildFault::Unverified(at) => {
            refused(alloc, Fault::Unverified, body_method(), &[at as u64])
        }
        BuildFault::Memory => Outcome::Memory,
    }
}

/// The one method of a bare body.
fn body_method() -> &'static [u8]
    ensures { result.now ≡ body_method_text }
{
    b"[body]Body::Main()->System.Int32"
}

/// The refusal for a fault of what has this text, of which these numbers are told, two at most.
fn refused(alloc: Global, fault: Fault, text: &[u8], numbers: &[u64]) -> Outcome
    ensures { IsOrMemory (Refused (fault_of fault text.now numbers.now)) result }
{
    match copied(alloc, text) {
        Ok(text) => Outcome::Refused(Refusal {
            fault,
            fields: fields(text, numbers),
        }),
        Err(_) => Outcome::Memory,
    }
}

/// The fields of a text and numbers, two at most.
fn fields(text: Text, numbers: &[u64]) -> Fields
    ensures { result ≡ fields_of text numbers.now }
{
    let text = Field::Text(text);
    let Some((first, rest)) = numbers.split_first() else {
        return Fields::One(text);
    };
    match rest.first() {
        None => Fields::Two(text, Field::Number(*first)),
        Some(second) => Fields::Three(text, Field::Number(*first), Field::Number(*second)),
    }
}

/// Writes a whole file.
fn write<F: Files>(files: &mut F, out: &Text, bytes: &[u8]) -> Outcome
    ensures outcome { WriteOutcome out.now bytes.now
        (store_seen (F.told files.old) (F.asked files.old) (F.calls files.old) (F.read_faults files.old)
        (F.write_faults files.old))
        (store_seen (F.told files.new) (F.asked files.new) (F.calls files.new) (F.read_faults files.new)
        (F.write_faults files.new))
        result }
    ensures same_asked { F.asked files.new ≡ F.asked files.old }
{
    match write_file(files, out, bytes) {
        Ok(()) => Outcome::Written,
        Err(FileFault::Failed) => Outcome::WriteFault,
        Err(_) => Outcome::Memory,
    }
}

/// Runs a machine for at most so many steps, and prints how many it did to its end, if they are counted.
fn run<I: Source, O: Sink, E: Sink>(
    machine: &mut Machine,
    input: &mut I,
    out: &mut O,
    err: &mut E,
    steps: u64,
    count: bool,
) -> Outcome
    ensures { MachineOutcome machine.old steps count
        (streams_seen (I.rest input.old) (O.written out.old) (E.written err.old) (I.faults input.old)
        (O.faults out.old) (E.faults err.old))
        (streams_seen (I.rest input.new) (O.written out.new) (E.written err.new) (I.faults input.new)
        (O.faults out.new) (E.faults err.new))
        result }
{
    match machine.run(input, out, err, steps) {
        Ok(ran) if !count => Outcome::Ended { status: ran.status },
        Ok(ran) => match report_count(err, ran.steps) {
            Ok(()) => Outcome::Ended { status: ran.status },
            Err(_) => Outcome::WriteFault,
        },
        Err(RunFault::Spent(steps)) => Outcome::Refused(Refusal {
            fault: Fault::Spent,
            fields: Fields::One(Field::Number(steps)),
        }),
        Err(RunFault::Trap(trap)) => Outcome::Refused(Refusal {
            fault: Fault::Trap,
            fields: Fields::Two(Field::Address(trap.pc), Field::Cause(trap.cause)),
        }),
        Err(RunFault::ReadFault) => Outcome::ReadFault,
        Err(RunFault::WriteFault) => Outcome::WriteFault,
    }
}

/// Why a file holds no assembly.
pub(crate) enum AssemblyFault {
    Image(PeFault),
    Tables(TableFault),
}

/// Prints the text of the assembly in a file.
fn dis<F: Files, O: Sink>(alloc: Global, files: &mut F, out: &mut O, file: &Text) -> Outcome
    ensures outcome { (rest error : Option (List ℕ)) (input_faults error_faults : ℕ) → DisOutcome file.now
        (store_seen (F.told files.old) (F.asked files.old) (F.calls files.old) (F.read_faults files.old)
        (F.write_faults files.old))
        (store_seen (F.told files.new) (F.asked files.new) (F.calls files.new) (F.read_faults files.new)
        (F.write_faults files.new))
        (streams_seen rest (O.written out.old) error input_faults (O.faults out.old) error_faults)
        (streams_seen rest (O.written out.new) error input_faults (O.faults out.new) error_faults)
        result }
    ensures same_files { F.told files.new ≡ F.told files.old }
{
    let assembly = match assembly(alloc, files, file) {
        Ok(assembly) => assembly,
        Err(outcome) => return outcome,
    };
    match list(alloc, &assembly) {
        Ok(text) => print(out, text.as_slice()),
        Err(_) => Outcome::Memory,
    }
}

/// Writes a text as output.
fn print<O: Sink>(out: &mut O, text: &[u8]) -> Outcome
    ensures { (rest error : Option (List ℕ)) (input_faults error_faults : ℕ) → TextOutcome text.now
        (streams_seen rest (O.written out.old) error input_faults (O.faults out.old) error_faults)
        (streams_seen rest (O.written out.new) error input_faults (O.faults out.new) error_faults)
        result }
{
    match write_all(out, text) {
        Ok(()) => Outcome::Written,
        Err(_) => Outcome::WriteFault,
    }
}

/// The module of the assembly in a file.
fn assembly<F: Files>(alloc: Global, files: &mut F, file: &Text) -> Result<Module, Outcome>
    ensures read { IfOk result (λ assembly. IsAssembly file.now assembly
        (store_seen (F.told files.old) (F.asked files.old) (F.calls files.old) (F.read_faults files.old)
        (F.write_faults files.old))
        (store_seen (F.told files.new) (F.asked files.new) (F.calls files.new) (F.read_faults files.new)
        (F.write_faults files.new))) }
    ensures refused { IfErr result (NotTaken assembly_stages file.now FILE_LIMIT
        (store_seen (F.told files.old) (F.asked files.old) (F.calls files.old) (F.read_faults files.old)
        (F.write_faults files.old))
        (store_seen (F.told files.new) (F.asked files.new) (F.calls files.new) (F.read_faults files.new)
        (F.write_faults files.new))) }
    ensures same_files { F.told files.new ≡ F.told files.old }
{
    let bytes = match read(alloc, files, file, FILE_LIMIT) {
        Ok(bytes) => bytes,
        Err(outcome) => return Err(outcome),
    };
    match module_in(alloc, bytes.as_slice()) {
        Ok(assembly) => Ok(assembly),
        Err(fault) => Err(assembly_outcome(alloc, fault, file)),
    }
}

/// The module of the assembly that bytes are.
fn module_in(alloc: Global, bytes: &[u8]) -> Result<Module, AssemblyFault>
    requires { length bytes.now < 2 ^ 32 }
    ensures read { IfOk result (Assembles bytes.now) }
    ensures refused { IfErr result (IsNoAssembly bytes.now) }
{
    let image = match open_image(bytes) {
        Ok(image) => image,
        Err(fault) => return Err(AssemblyFault::Image(fault)),
    };
    match read_tables(alloc, &image) {
        Ok(assembly) => Ok(assembly),
        Err(fault) => Err(AssemblyFault::Tables(fault)),
    }
}

/// The outcome of a file that holds no assembly.
fn assembly_outcome(alloc: Global, fault: AssemblyFault, file: &Text) -> Outcome
    ensures { (bytes : List ℕ) → IsUnreadable bytes file.now fault result }
{
    match fault {
        AssemblyFault::Image(fault) => image_outcome(alloc, fault, file),
        AssemblyFault::Tables(fault) => tables_outcome(alloc, fault, file),
    }
}

/// The outcome of a file that is no image.
fn image_outcome(alloc: Global, fault: PeFault, file: &Text) -> Outcome
    ensures { IsOrMemory (Refused (refusal_of file.now (image_finding fault))) result }
{
    match fault {
        PeFault::NotPe => refused(alloc, Fault::NotPe, file.bytes(), &[]),
        PeFault::NoCliHeader => refused(alloc, Fault::NoCliHeader, file.bytes(), &[]),
        PeFault::Cut(place) => refused(alloc, Fault::Cut, file.bytes(), &[place]),
    }
}

/// The outcome of an image whose tables are refused.
fn tables_outcome(alloc: Global, fault: TableFault, file: &Text) -> Outcome
    ensures { TellsTables file.now fault result }
{
    match fault {
        TableFault::BadTable(table, row) => {
            refused(
                alloc,
                Fault::BadTable,
                file.bytes(),
                &[table as u64, row as u64],
            )
        }
        TableFault::RefusedTable(table) => {
            refused(alloc, Fault::RefusedTable, file.bytes(), &[table as u64])
        }
        TableFault::BadHeader(address) => {
            refused(alloc, Fault::BadHeader, file.bytes(), &[address as u64])
        }
        TableFault::Memory => Outcome::Memory,
    }
}

/// Assembles the text in a file, and writes the image of its module to another.
fn asm<F: Files>(alloc: Global, files: &mut F, file: &Text, out: &Text) -> Outcome
    ensures { AsmOutcome file.now out.now
        (store_seen (F.told files.old) (F.asked files.old) (F.calls files.old) (F.read_faults files.old)
        (F.write_faults files.old))
        (store_seen (F.told files.new) (F.asked files.new) (F.calls files.new) (F.read_faults files.new)
        (F.write_faults files.new))
        result }
{
    match image(alloc, files, file) {
        Ok(image) => write(files, out, image.as_slice()),
        Err(outcome) => outcome,
    }
}

/// The image of the module that the text in a file means.
fn image<F: Files>(alloc: Global, files: &mut F, file: &Text) -> Result<Bytes, Outcome>
    ensures made { IfOk result (λ image. IsMade IsImageOf file.now image
        (store_seen (F.told files.old) (F.asked files.old) (F.calls files.old) (F.read_faults files.old)
        (F.write_faults files.old))
        (store_seen (F.told files.new) (F.asked files.new) (F.calls files.new) (F.read_faults files.new)
        (F.write_faults files.new))) }
    ensures refused { IfErr result (NotTaken text_stages file.now FILE_LIMIT
        (store_seen (F.told files.old) (F.asked files.old) (F.calls files.old) (F.read_faults files.old)
        (F.write_faults files.old))
        (store_seen (F.told files.new) (F.asked files.new) (F.calls files.new) (F.read_faults files.new)
        (F.write_faults files.new))) }
    ensures same_files { F.told files.new ≡ F.told files.old }
{
    let text = match read(alloc, files, file, FILE_LIMIT) {
        Ok(text) => text,
        Err(outcome) => return Err(outcome),
    };
    match image_meant(alloc, text.as_slice()) {
        Ok(image) => Ok(image),
        Err(fault) => Err(text_outcome(alloc, fault, file)),
    }
}

/// The image of the module that a text means. Each row of a module has a line of its own, so a text that is read has no
/// table with too many rows.
fn image_meant(alloc: Global, text: &[u8]) -> Result<Bytes, IlTextFault>
    ensures made { IfOk result (IsImageOf text.now) }
    ensures refused { IfErr result (Refuses (assembled text.now)) }
{
    let assembly = match assemble(alloc, text) {
        Ok(assembly) => assembly,
        Err(fault) => return Err(fault),
    };
    match write_image(alloc, &assembly) {
        Ok(image) => Ok(image),
        Err(_) => Err(IlTextFault::Memory),
    }
}

/// The outcome of a text that means no module.
fn text_outcome(alloc: Global, fault: IlTextFault, file: &Text) -> Outcome
    ensures { TellsText file.now fault result }
{
    match fault {
        IlTextFault::BadText(line, column) => {
            refused(
                alloc,
                Fault::BadText,
                file.bytes(),
                &[line as u64, column as u64],
            )
        }
        IlTextFault::Memory => Outcome::Memory,
    }
}
