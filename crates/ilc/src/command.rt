ghost use Rattle.std.specs.Prelude.{◌≡◌, ◌<◌, ◌^◌, length, IfOk, IsUtf8, unwrap_or};
ghost use Rattle.ilc.specs.Grammar.{number_of as number_of_word};
ghost use Rattle.ilc.specs.Words.{command_of, command_from as command_of_items, first_name as first_name_of};
ghost use Rattle.ilc.specs.Words.{argument_of as argument_in, behind_command, default_steps, Reads};

use crate::grammar::{
    CommandName, CommandOption, Item, MOST_STEPS, command_named, is_given, number_of,
};
use crate::reading::{WordsFault, copied, read_items};
use num_core::{Memory, Text};
use std::alloc::Global;

/// The most steps of a run where none are named.
const DEFAULT_STEPS: u64 = 1_000_000_000_000;

/// A command, with its files and what else it is told.
#[derive(Debug, Drop)]
pub enum Command {
    /// `body FILE -o OUT`: builds the bare body in FILE and writes the executable file to OUT.
    Body { file: Text, out: Text },
    /// `run ELF --steps N --count`: runs the executable file ELF on the machine, for at most N steps, and with
    /// `--count` prints how many it did to its end.
    Run { elf: Text, steps: u64, count: bool },
    /// `dis FILE`: prints the text of the assembly in FILE.
    Dis { file: Text },
    /// `asm FILE -o OUT`: writes the image of the assembly whose text is in FILE to OUT.
    Asm { file: Text, out: Text },
}

/// The command that the words give.
pub(crate) fn parse_command(alloc: Global, words: &[Text]) -> Result<Command, WordsFault>
    ensures { Reads result (command_of words.now) }
{
    let Some((first, rest)) = words.split_first() else {
        return Err(WordsFault::Wrong(0));
    };
    let Some(command) = command_named(first) else {
        return Err(WordsFault::Wrong(0));
    };
    match read_items(alloc, command, rest) {
        Ok(items) => match command_from(alloc, command, items.as_slice()) {
            Ok(command) => Ok(command),
            Err(_) => Err(WordsFault::Memory),
        },
        Err(fault) => Err(fault),
    }
}

/// What the items ask for.
fn command_from(alloc: Global, command: CommandName, items: &[Item]) -> Result<Command, Memory>
    ensures { IfOk result (λ asked. asked ≡ command_of_items command items.now) }
{
    let name = copied(alloc, first_name(items))?;
    match command {
        CommandName::Body => Ok(Command::Body {
            file: name,
            out: copied(alloc, argument_of(items, CommandOption::Out))?,
        }),
        CommandName::Run => Ok(Command::Run {
            elf: name,
            steps: steps_of(items),
            count: is_given(items, CommandOption::Count),
        }),
        CommandName::Dis => Ok(Command::Dis { file: name }),
        CommandName::Asm => Ok(Command::Asm {
            file: name,
            out: copied(alloc, argument_of(items, CommandOption::Out))?,
        }),
    }
}

/// The number of steps that the items ask for.
fn steps_of(items: &[Item]) -> u64
    ensures { result ≡ unwrap_or
        (number_of_word MOST_STEPS (argument_in CommandOption.Steps items.now)) default_steps }
{
    number_of(MOST_STEPS, argument_of(items, CommandOption::Steps)).unwrap_or(DEFAULT_STEPS)
}

/// The first name, or no bytes.
fn first_name(items: &[Item]) -> &[u8]
    ensures { result.now ≡ first_name_of items.now }
{
    for item in items {
        if let Item::Name(name) = item {
            return name.bytes();
        }
    }
    &[]
}

/// The argument of an option, or no bytes.
fn argument_of(items: &[Item], wanted: CommandOption) -> &[u8]
    ensures argument { result.now ≡ argument_in wanted items.now }
    ensures utf8 { IsUtf8 result.now }
{
    for item in items {
        if let Item::Setting(_, argument) = item {
            if item.gives(wanted) {
                return argument.bytes();
            }
        }
    }
    &[]
}
