//! Reads the words.

ghost use Rattle.std.specs.Prelude.{◌≡◌, ◌↔◌, ℕ, List, None, Some, Err, IfOk, map, string_bytes};
ghost use Rattle.misp_words.specs.Count.{count_limit, events_limit};
ghost use Rattle.misp_words.specs.Words.{command_of, command_data};

use crate::command::{Command, command_of};
use crate::grammar::agrees;
use crate::{MAX_COUNT, MAX_EVENTS};
use std::alloc::Global;
use std::marker::Model;

/// Why words are not read.
#[derive(Clone, Copy, PartialEq, Eq)]
pub enum WordsFault {
    /// The words are not accepted.
    Usage,
    OutOfMemory,
}

/// What these words ask for. They are those after the name of the program.
pub fn read_words<'a>(alloc: Global, words: &'a [String]) -> Result<Command<'a>, WordsFault>
    ensures usage { result ≡ Err WordsFault.Usage
        ↔ command_of (map string_bytes words.now) ≡ None }
    ensures read { IfOk result (λ command.
        command_of (map string_bytes words.now) ≡ Some (command_data command)) }
    ensures limits { (MAX_COUNT ≡ count_limit) × (MAX_EVENTS ≡ events_limit) }
{
    let Some(command) = command_of(words) else {
        return Err(WordsFault::Usage);
    };
    if agrees(alloc, words) {
        Ok(command)
    } else {
        Err(WordsFault::OutOfMemory)
    }
}

/// The words after the name of the program, with what was read of them. Contracts see the words.
#[derive(Drop)]
pub struct Words<'a> {
    given: &'a [String],
    read: Result<Command<'a>, WordsFault>,
}

impl<'a> Model for Words<'a> {
    ghost use Rattle.std.specs.Prelude.{ℕ, List, map, string_bytes};
    ghost use Rattle.misp_words.specs.Reading.{IsReadingOf};

    ghost Value = { List (List ℕ) };

    ghost view = { λ w. map string_bytes w.given.now };

    ghost invariant = { λ w. IsReadingOf (map string_bytes w.given.now) w.read };
}

impl<'a> Words<'a> {
    /// Reads the words.
    pub fn read(alloc: Global, given: &'a [String]) -> Words<'a>
        ensures { result ≡ map string_bytes given.now }
    {
        let read = read_words(alloc, given);
        Words { given, read }
    }

    /// What the words ask for.
    pub fn command(&self) -> Result<&Command<'a>, WordsFault>
        ensures usage { result ≡ Err WordsFault.Usage ↔ command_of self.now ≡ None }
        ensures read { IfOk result (λ command.
            command_of self.now ≡ Some (command_data command.now)) }
    {
        match &self.read {
            Ok(command) => Ok(command),
            Err(fault) => Err(*fault),
        }
    }
}
