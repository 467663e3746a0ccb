ghost use Rattle.std.specs.Prelude.{◌≡◌, ℕ, ◌↔◌, ◌≤◌, ◌&&◌, length, count_by, codes, IsUtf8, decimal as decimal_digits};
ghost use Rattle.std.specs.Str.{bytes_eq};
ghost use Rattle.std.specs.List.{find, list_any, list_all};
ghost use Rattle.ilc.specs.Grammar.{option_row, command_row, commands, is_name as is_name_of, is_name_item};
ghost use Rattle.ilc.specs.Grammar.{number_of as number_of_word, gives as gives_option, writes_to as writes_to_file};
ghost use Rattle.ilc.specs.Grammar.{is_given as is_given_in, fits as fits_behind, may_be_given as may_be_given_behind};
ghost use Rattle.ilc.specs.Grammar.{has_room as has_room_for, option_named as option_of};
ghost use Rattle.ilc.specs.Grammar.{command_named as command_of_name, is_whole as is_whole_line};

use crate::report::decimal;
use itoa::Buffer;
use num_core::Text;

/// The commands.
#[derive(Clone, Copy, Debug, PartialEq, Eq)]
pub enum CommandName {
    Body,
    Run,
    Dis,
    Asm,
}

/// The options of the commands.
#[derive(Clone, Copy, Debug, PartialEq, Eq)]
pub enum CommandOption {
    Out,
    Steps,
    Count,
}

/// What an option takes: the word behind it, or nothing.
#[derive(Clone, Copy, Debug, PartialEq, Eq)]
pub enum Argument {
    Nothing,
    /// The name of a file that is written. No two of them in a line are equal.
    Output,
    /// A number in decimal digits, without sign and leading zeros, of at most this.
    Number(u64),
}

/// A part of a line: one word, or an option with its argument.
#[derive(Debug, Drop)]
pub enum Item {
    Name(Text),
    /// An option that takes nothing.
    Switch(CommandOption),
    /// An option and its argument.
    Setting(CommandOption, Text),
}

/// How an option is written, what it takes, and whether it may be given more than once.
#[derive(Clone, Copy, Debug)]
pub struct OptionRow {
    pub name: &'static [u8],
    pub argument: Argument,
    pub repeats: bool,
}

/// How a command is written, how many names it takes, and which options it has.
#[derive(Clone, Copy, Debug)]
pub struct CommandRow {
    pub name: &'static [u8],
    /// The fewest names.
    pub least: usize,
    /// The most names, if there is such a number.
    pub most: Option<usize>,
    pub options: &'static [CommandOption],
    /// Those of the options that are to be given.
    pub required: &'static [CommandOption],
}

/// The most steps that can be asked for.
pub const MOST_STEPS: u64 = 9_223_372_036_854_775_807;

impl CommandOption {
    /// The row of the table for an option.
    pub fn row(self) -> OptionRow
        ensures name { result.name.now ≡ (option_row self).name }
        ensures argument { result.argument ≡ (option_row self).argument }
        ensures repeats { result.repeats ≡ (option_row self).repeats }
    {
        match self {
            CommandOption::Out => OptionRow {
                name: b"-o",
                argument: Argument::Output,
                repeats: false,
            },
            CommandOption::Steps => OptionRow {
                name: b"--steps",
                argument: Argument::Number(MOST_STEPS),
                repeats: false,
            },
            CommandOption::Count => OptionRow {
                name: b"--count",
                argument: Argument::Nothing,
                repeats: false,
            },
        }
    }

    /// Whether a word is the option.
    fn is_written(self, word: &[u8]) -> bool
        ensures { result ≡ bytes_eq word.now (option_row self).name }
    {
        word == self.row().name
    }
}

impl CommandName {
    /// The row of the table for a command.
    pub fn row(self) -> CommandRow
        ensures name { result.name.now ≡ (command_row self).name }
        ensures least { result.least ≡ (command_row self).least }
        ensures most { result.most ≡ (command_row self).most }
        ensures options { result.options.now ≡ (command_row self).options }
        ensures required { result.required.now ≡ (command_row self).required }
    {
        match self {
            CommandName::Body => CommandRow {
                name: b"body",
                least: 1,
                most: Some(1),
                options: &[CommandOption::Out],
                required: &[CommandOption::Out],
            },
            CommandName::Run => CommandRow {
                name: b"run",
                least: 1,
                most: Some(1),
                options: &[CommandOption::Steps, CommandOption::Count],
                required: &[],
            },
            CommandName::Dis => CommandRow {
                name: b"dis",
                least: 1,
                most: Some(1),
                options: &[],
                required: &[],
            },
            CommandName::Asm => CommandRow {
                name: b"asm",
                least: 1,
                most: Some(1),
                options: &[CommandOption::Out],
                required: &[CommandOption::Out],
            },
        }
    }

    /// Whether a word is the command.
    fn is_written(self, word: &[u8]) -> bool
        ensures { result ≡ bytes_eq word.now (command_row self).name }
    {
        word == self.row().name
    }
}

impl Item {
    fn is_name(&self) -> bool
        ensures { result ≡ is_name_item self.now }
    {
        matches!(self, Item::Name(_))
    }

    /// Whether the item gives an option.
    pub(crate) fn gives(&self, wanted: CommandOption) -> bool
        ensures { result ≡ gives_option wanted self.now }
    {
        match self {
            Item::Name(_) => false,
            Item::Switch(given) => wanted.is_written(given.row().name),
            Item::Setting(given, _) => wanted.is_written(given.row().name),
        }
    }

    /// Whether the item names a file as one that is written.
    fn writes_to(&self, file: &Text) -> bool
        ensures { result ≡ writes_to_file file.now self.now }
    {
        match self {
            Item::Name(_) | Item::Switch(_) => false,
            Item::Setting(given, word) => {
                given.row().argument.is_output() && word.bytes() == file.bytes()
            }
        }
    }
}

impl Argument {
    fn is_output(self) -> bool
        ensures { result ≡ Rattle.ilc.specs.Grammar.is_output self }
    {
        matches!(self, Argument::Output)
    }

    /// Whether a word can be the argument behind these items.
    pub(crate) fn fits(self, items: &[Item], word: &Text) -> bool
        ensures { result ≡ fits_behind self items.now word.now }
    {
        match self {
            Argument::Nothing => false,
            Argument::Output => !word.bytes().is_empty() && !are_written(items, word),
            Argument::Number(most) => number_of(most, word.bytes()).is_some(),
        }
    }
}

/// The command that a word is.
pub(crate) fn command_named(word: &Text) -> Option<CommandName>
    ensures { result ≡ command_of_name word.now }
{
    [
        CommandName::Body,
        CommandName::Run,
        CommandName::Dis,
        CommandName::Asm,
    ]
    .iter()
    .copied()
    .find(|command| command.is_written(word.bytes()))
}

/// The option of a command that a word is.
pub(crate) fn option_named(command: CommandName, word: &Text) -> Option<CommandOption>
    ensures { result ≡ option_of command word.now }
{
    command
        .row()
        .options
        .iter()
        .copied()
        .find(|option| option.is_written(word.bytes()))
}

/// Whether the items give an option.
pub(crate) fn is_given(items: &[Item], wanted: CommandOption) -> bool
    ensures { result ≡ is_given_in wanted items.now }
{
    items.iter().any(|item| item.gives(wanted))
}

/// Whether one of the items names a file as one that is written.
fn are_written(items: &[Item], file: &Text) -> bool
    ensures { result ≡ list_any (writes_to_file file.now) items.now }
{
    items.iter().any(|item| item.writes_to(file))
}

/// Whether an option may be given behind these items.
pub(crate) fn may_be_given(items: &[Item], option: CommandOption) -> bool
    ensures { result ≡ may_be_given_behind option items.now }
{
    option.row().repeats || !is_given(items, option)
}

/// Whether a command takes a name more than these items have.
pub(crate) fn has_room(command: CommandName, items: &[Item]) -> bool
    ensures { result ≡ has_room_for (command_row command).most (count_by is_name_item items.now) }
{
    match command.row().most {
        None => true,
        Some(most) => count_names(items) < most,
    }
}

fn count_names(items: &[Item]) -> usize
    ensures { result ≡ count_by is_name_item items.now }
{
    items.iter().filter(|item| item.is_name()).count()
}

/// Whether the items are all that a command wants.
pub(crate) fn is_whole(command: CommandName, items: &[Item]) -> bool
    ensures { result ≡ is_whole_line command items.now }
{
    command.row().least <= count_names(items) && are_given(command.row().required, items)
}

/// Whether the items give each of these options.
fn are_given(options: &[CommandOption], items: &[Item]) -> bool
    ensures { result ≡ list_all (λ option. is_given_in option items.now) options.now }
{
    options.iter().all(|option| is_given(items, *option))
}

/// Whether a word can be a name: it isn't empty, and doesn't begin as an option.
pub(crate) fn is_name(word: &Text) -> bool
    ensures { result ≡ is_name_of word.now }
{
    match word.bytes() {
        [] => false,
        [first, ..] => *first != b'-',
    }
}

/// The number that a word is, in decimal digits without sign and leading zeros, if it is at most `most`.
pub(crate) fn number_of(most: u64, word: &[u8]) -> Option<u64>
    requires { IsUtf8 word.now }
    ensures number { result ≡ number_of_word most word.now }
    ensures spelled { (number : ℕ) → result ≡ Some number
        ↔ (number ≤ most) × (word.now ≡ decimal_digits number) }
{
    let Ok(text) = std::str::from_utf8(word) else {
        return None;
    };
    let Ok(number) = text.parse::<u64>() else {
        return None;
    };
    let mut buffer = Buffer::new();
    if number <= most && word == decimal(&mut buffer, number) {
        Some(number)
    } else {
        None
    }
}
