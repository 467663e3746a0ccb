ghost use Rattle.std.specs.Prelude.{◌≡◌, true};
ghost use Rattle.core_lib.specs.Classes.{classes};
ghost use Rattle.core_lib.specs.Words.{mnemonics};
ghost use Rattle.core_lib.specs.Sound.{AreOpcodes, are_sound};

/// The classes of the core name classes, members, texts and labels that are there, and no two are alike.
pub fn names_are_found()
    ensures { are_sound classes ≡ true }
{}

/// The mnemonics in which their code is written are opcodes of the standard (ECMA-335 III.1.2.1).
pub fn mnemonics_of_the_standard()
    ensures { AreOpcodes mnemonics }
{}
