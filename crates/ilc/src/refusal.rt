ghost use Rattle.std.specs.Prelude.{◌≡◌};
ghost use Rattle.ilc.specs.Refusals.{refusal_row};

use num_core::Text;
use rv_step::Cause;

/// What is wrong with the input of a command.
#[derive(Clone, Copy, Debug, PartialEq, Eq)]
pub enum Fault {
    /// A file doesn't begin as a PE file does.
    NotPe,
    /// A file holds no metadata, or code that isn't CIL (ECMA-335 II.25).
    NoCliHeader,
    /// A header or a range of bytes of an image isn't whole.
    Cut,
    /// A row of a table of metadata is bad (ECMA-335 II.22).
    BadTable,
    /// A table of metadata that no assembly has.
    RefusedTable,
    /// A file is no tiny header and its code, or no whole body stands at a method's address (ECMA-335 II.25.4).
    BadHeader,
    /// No instruction stands whole at an offset of the code (ECMA-335 III.1.2).
    BadOpcode,
    /// An instruction has a target at which none stands, or control runs past the end of the code behind it.
    BadTarget,
    /// The code isn't verified (ECMA-335 III.1.8).
    Unverified,
    /// A program goes on after the steps that it may do.
    Spent,
    /// Control comes to an instruction that isn't compiled.
    OpcodeOutside,
    /// The machine can't do an instruction.
    Trap,
    /// A file is no executable that loads (System V gABI, "Object Files").
    BadElf,
    /// A file is no text of an assembly.
    BadText,
}

/// The number, the name and the status of a fault.
#[derive(Clone, Copy, Debug)]
pub struct FaultRow {
    /// The number by which the fault is told.
    pub number: u64,
    pub name: &'static [u8],
    /// The status that the process ends with.
    pub status: u8,
}

/// A field of a refusal.
#[derive(Debug, Drop)]
pub enum Field {
    /// The name of a file, or the text of a method, a node or a type.
    Text(Text),
    Number(u64),
    /// A number that is told in hexadecimal.
    Address(u64),
    Cause(Cause),
}

/// The fields of a refusal, in order.
#[derive(Debug, Drop)]
pub enum Fields {
    None,
    One(Field),
    Two(Field, Field),
    Three(Field, Field, Field),
}

/// Why the input of a command is refused: a fault, and what is told of it. The fields have the forms that the row of
/// the fault names.
#[derive(Debug, Drop)]
pub struct Refusal {
    pub fault: Fault,
    pub fields: Fields,
}

impl Fault {
    /// The row of the table for a fault.
    pub fn row(self) -> FaultRow
        ensures number { result.number ≡ (refusal_row self).number }
        ensures name { result.name.now ≡ (refusal_row self).name }
        ensures status { result.status ≡ (refusal_row self).status }
    {
        match self {
            Fault::NotPe => row(1, b"NotPe", 65),
            Fault::NoCliHeader => row(2, b"NoCliHeader", 65),
            Fault::Cut => row(3, b"Cut", 65),
            Fault::BadTable => row(4, b"BadTable", 65),
            Fault::RefusedTable => row(5, b"RefusedTable", 65),
            Fault::BadHeader => row(9, b"BadHeader", 65),
            Fault::BadOpcode => row(10, b"BadOpcode", 65),
            Fault::BadTarget => row(11, b"BadTarget", 65),
            Fault::Unverified => row(20, b"Unverified", 70),
            Fault::Spent => row(21, b"Spent", 124),
            Fault::OpcodeOutside => row(24, b"OpcodeOutside", 69),
            Fault::Trap => row(29, b"Trap", 132),
            Fault::BadElf => row(30, b"BadElf", 65),
            Fault::BadText => row(31, b"BadText", 65),
        }
    }
}

impl Fault {
    /// The name by which the fault is told.
    pub fn name(self) -> &'static [u8]
        ensures { result.now ≡ (refusal_row self).name }
    {
        self.row().name
    }
}

fn row(number: u64, name: &'static [u8], status: u8) -> FaultRow
    ensures number { result.number ≡ number }
    ensures name { result.name.now ≡ name.now }
    ensures status { result.status ≡ status }
{
    FaultRow {
        number,
        name,
        status,
    }
}
