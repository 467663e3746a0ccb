ghost use Rattle.std.specs.Prelude.{◌≡◌, [], ◌∷◌, ◌++◌, ℕ, List, Some, None, IfOk, OnOk, OnErr};
ghost use Rattle.ilc.specs.Grammar.{option_row, option_named as option_of};
ghost use Rattle.ilc.specs.declared.grammar.CommandName.{CommandName};
ghost use Rattle.ilc.specs.Words.{reading, with_item, with_word, with_option, with_argument, begun, items_from, Reads};

use crate::grammar::{
    Argument, CommandName, CommandOption, Item, has_room, is_name, is_whole, may_be_given,
    option_named,
};
use num_core::{List, Memory, Text};
use std::alloc::Global;

/// How far the words behind a command are read: the items so far, and the option that takes the next word as its
/// argument, if there is one.
#[derive(Debug, Drop)]
pub struct Reading {
    items: List<Item>,
    awaits: Option<CommandOption>,
}

/// Why words are no command.
#[derive(Clone, Copy, Debug, PartialEq, Eq)]
pub enum WordsFault {
    /// The word at this index is the first that is wrong or missing.
    Wrong(usize),
    Memory,
}

/// Why a word isn't taken.
#[derive(Clone, Copy, Debug, PartialEq, Eq)]
enum WordFault {
    Wrong,
    Memory,
}

impl Reading {
    /// Takes the next word.
    fn take(&mut self, alloc: Global, command: CommandName, word: &Text) -> Result<(), WordFault>
        ensures taken { OnOk result (with_word command self.old word.now self.old.awaits ≡ Some self.new) }
        ensures wrong { result ≡ Err WordFault.Wrong → with_word command self.old word.now self.old.awaits ≡ None }
    {
        match self.awaits {
            Some(option) => self.take_argument(alloc, option, word),
            None => match option_named(command, word) {
                Some(option) => self.take_option(option),
                None => self.take_name(alloc, command, word),
            },
        }
    }

    /// Takes the argument of an option.
    fn take_argument(
        &mut self,
        alloc: Global,
        option: CommandOption,
        word: &Text,
    ) -> Result<(), WordFault>
        ensures taken { OnOk result (with_argument self.old word.now option ≡ Some self.new) }
        ensures wrong { result ≡ Err WordFault.Wrong → with_argument self.old word.now option ≡ None }
    {
        if !option.row().argument.fits(self.items.as_slice(), word) {
            return Err(WordFault::Wrong);
        }
        match copied(alloc, word.bytes()) {
            Ok(word) => self.add(Item::Setting(option, word)),
            Err(_) => Err(WordFault::Memory),
        }
    }

    /// Takes an option.
    fn take_option(&mut self, option: CommandOption) -> Result<(), WordFault>
        ensures taken { (of : CommandName) (word : List ℕ) →
            OnOk result (with_option of self.old word (Some option) ≡ Some self.new) }
        ensures wrong { (of : CommandName) (word : List ℕ) →
            result ≡ Err WordFault.Wrong → with_option of self.old word (Some option) ≡ None }
    {
        if !may_be_given(self.items.as_slice(), option) {
            return Err(WordFault::Wrong);
        }
        self.begin(option)
    }

    /// Goes on behind an option.
    fn begin(&mut self, option: CommandOption) -> Result<(), WordFault>
        ensures begun { OnOk result (self.new ≡ begun self.old option (option_row option).argument) }
        ensures memory { OnErr result (result ≡ Err WordFault.Memory) }
    {
        match option.row().argument {
            Argument::Nothing => self.add(Item::Switch(option)),
            Argument::Output | Argument::Number(_) => {
                self.awaits = Some(option);
                Ok(())
            }
        }
    }

    /// Takes a name.
    fn take_name(
        &mut self,
        alloc: Global,
        command: CommandName,
        word: &Text,
    ) -> Result<(), WordFault>
        ensures taken { OnOk result (with_option command self.old word.now None ≡ Some self.new) }
        ensures wrong { result ≡ Err WordFault.Wrong → with_option command self.old word.now None ≡ None }
    {
        if !is_name(word) || !has_room(command, self.items.as_slice()) {
            return Err(WordFault::Wrong);
        }
        match copied(alloc, word.bytes()) {
            Ok(word) => self.add(Item::Name(word)),
            Err(_) => Err(WordFault::Memory),
        }
    }

    /// Adds an item.
    fn add(&mut self, item: Item) -> Result<(), WordFault>
        ensures added { OnOk result (self.new ≡ with_item self.old item) }
        ensures memory { OnErr result (result ≡ Err WordFault.Memory) }
    {
        if self.items.push(item).is_err() {
            return Err(WordFault::Memory);
        }
        self.awaits = None;
        Ok(())
    }
}

/// The items of the words behind a command.
pub(crate) fn read_items(
    alloc: Global,
    command: CommandName,
    words: &[Text],
) -> Result<List<Item>, WordsFault>
    ensures { Reads result (items_from command 1 (reading [] None) words.now) }
{
    let mut reading = Reading {
        items: List::new(alloc),
        awaits: None,
    };
    for (index, word) in words.iter().enumerate() {
        match reading.take(alloc, command, word) {
            Ok(()) => {}
            Err(WordFault::Wrong) => return Err(WordsFault::Wrong(index + 1)),
            Err(WordFault::Memory) => return Err(WordsFault::Memory),
        }
    }
    if reading.awaits.is_none() && is_whole(command, reading.items.as_slice()) {
        Ok(reading.items)
    } else {
        Err(WordsFault::Wrong(words.len() + 1))
    }
}

/// A text of these bytes, which are those of another.
pub(crate) fn copied(alloc: Global, bytes: &[u8]) -> Result<Text, Memory>
    ensures { IfOk result (λ text. text ≡ bytes.now) }
{
    Text::new(alloc, bytes).map_err(|_| Memory)
}
