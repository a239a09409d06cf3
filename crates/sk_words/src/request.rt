//! What the words ask for.

ghost use Rattle.std.specs.Prelude.{◌≡◌, Err, false, find, map, option_map, option_and_then, IfOk, IfSome, IsTrue};
ghost use Rattle.std.specs.Str.{bytes_eq};
ghost use Rattle.std.specs.Int.{IsInRange};
ghost use Rattle.sk_words.specs.Words.{is_taken, command_text, option_text};
ghost use Rattle.sk_words.specs.Request.{all_commands, command_of as command_by, first_missing as missing_by, first_out_of_range as out_of_range_by, is_in_range as is_within_range, is_out_of_range as is_outside, name_of, options_fault as fault_by, number_of as number_of_text, number_or, options_of, text_or, used, word_of};
ghost use Rattle.sk_words.specs.Asked.{rows_in, options_in, AsksFor, MayAsk, NeedsNumber};

use crate::fault::{WordsFault, WordsStop};
use crate::matched::{MatchStop, matches_in};
use crate::ranges::{is_in_range, meant, number_of};
use crate::tables::{Command, OptionName};
use crate::topic::command_by_word;
use clap::ArgMatches;
use std::alloc::Global;
use std::marker::Model;

/// A command and its options: none that it needs is missing, and each that is given is in its range.
#[derive(Drop)]
pub struct Request<'a> {
    command: Command,
    matches: ArgMatches<'a>,
}

impl<'a> Model for Request<'a> {
    ghost use Rattle.sk_words.specs.Asked.{AsksFor, Given, rows_in};

    ghost Value = { Given };

    ghost view = { λ r. record { command = r.command; rows = rows_in r.matches } };

    ghost invariant = { λ r. AsksFor (rows_in r.matches) r.command };
}

/// The text that the words give an option.
pub fn given_text<'a>(matches: &ArgMatches<'a>, name: OptionName) -> Option<&'a str>
    ensures { option_map (λ s. s.now) result ≡ option_text (name_of name) (rows_in matches.now) }
{
    matches.get_str(name.word())
}

/// The text of an option, as it is meant.
fn text_of<'a>(matches: &ArgMatches<'a>, name: OptionName) -> Option<&'a str>
    ensures { option_map (λ s. s.now) result ≡ options_of (rows_in matches.now) name }
{
    match given_text(matches, name) {
        Some(text) => Some(meant(name, text)),
        None => None,
    }
}

/// The word that stands for the command.
pub fn command_word<'a>(matches: &ArgMatches<'a>) -> Option<&'a str>
    ensures { option_map (λ s. s.now) result ≡ command_text (rows_in matches.now) }
{
    matches.get_str("command")
}

/// The command of the words.
fn command_of(matches: &ArgMatches) -> Option<Command>
    ensures { result ≡ command_by (rows_in matches.now) }
{
    match command_word(matches) {
        Some(word) => command_by_word(word),
        None => None,
    }
}

/// The first option that the command needs and the words do not give.
fn first_missing(command: Command, matches: &ArgMatches) -> Option<OptionName>
    ensures { result ≡ missing_by command (options_of (rows_in matches.now)) }
{
    command
        .needs()
        .iter()
        .copied()
        .find(|name| text_of(matches, *name).is_none())
}

/// The number of an option.
fn number_given(matches: &ArgMatches, name: OptionName) -> Option<u64>
    ensures { result ≡ option_and_then number_of_text (options_of (rows_in matches.now) name) }
{
    match text_of(matches, name) {
        Some(text) => number_of(text),
        None => None,
    }
}

/// The number of the spacecraft.
fn spacecraft_of(command: Command, matches: &ArgMatches) -> u32
    requires asked { AsksFor (rows_in matches.now) command }
    requires needed { NeedsNumber command }
    ensures number { result ≡ number_or 0 OptionName.Sc (used command (options_of (rows_in matches.now))) }
    ensures range { IsInRange 1 999_999_999 result }
{
    let _ = command;
    match number_given(matches, OptionName::Sc) {
        Some(number) => number as u32,
        None => 0,
    }
}

/// The option is given, with a text out of its range.
fn is_out_of_range(matches: &ArgMatches, name: OptionName) -> bool
    ensures { result ≡ is_outside (options_of (rows_in matches.now)) name }
{
    match text_of(matches, name) {
        Some(text) => !is_in_range(name, text),
        None => false,
    }
}

/// The first option that is out of its range.
fn first_out_of_range(matches: &ArgMatches) -> Option<OptionName>
    ensures { result ≡ out_of_range_by (options_of (rows_in matches.now)) }
{
    OptionName::all()
        .iter()
        .copied()
        .find(|name| is_out_of_range(matches, *name))
}

/// Why the options of a command are refused.
fn options_fault(command: Command, matches: &ArgMatches) -> Option<WordsFault>
    ensures { result ≡ fault_by command (options_of (rows_in matches.now)) }
{
    match first_missing(command, matches) {
        Some(name) => Some(WordsFault::NeedOption(name)),
        None => first_out_of_range(matches).map(WordsFault::OutOfRange),
    }
}

/// What the words ask for, the first of which stands for the program's name.
pub fn requested<'a>(alloc: Global, words: &'a [&'a str]) -> Result<Request<'a>, WordsStop>
    ensures asked { MayAsk (map (λ w. w.now) words.entry.now) result }
    ensures not_taken { result ≡ Err (WordsStop.Refused WordsFault.NotTaken) → is_taken (map (λ w. w.now) words.entry.now) ≡ false }
{
    let matches = match matches_in(alloc, words) {
        Ok(matches) => matches,
        Err(MatchStop::NotTaken) => return Err(WordsStop::Refused(WordsFault::NotTaken)),
        Err(MatchStop::NoMemory) => return Err(WordsStop::NoMemory),
    };
    let Some(command) = command_of(&matches) else {
        return Err(WordsStop::Refused(WordsFault::UnknownCommand));
    };
    match options_fault(command, &matches) {
        Some(fault) => Err(WordsStop::Refused(fault)),
        None => Ok(Request { command, matches }),
    }
}

impl<'a> Request<'a> {
    /// The command.
    pub fn command(&self) -> Command
        ensures { result ≡ self.now.command }
    {
        self.command
    }

    /// The text of an option that the command uses, where it is given.
    pub fn text(&self, name: OptionName) -> Option<&'a str>
        ensures text { option_map (λ s. s.now) result ≡ options_in self.now name }
        ensures range { IfSome result (λ s. IsTrue (is_within_range name s.now)) }
    {
        if self.command.uses_option(name) {
            text_of(&self.matches, name)
        } else {
            None
        }
    }

    /// The text of an option; nothing where it is not given.
    pub fn text_or_empty(&self, name: OptionName) -> &'a str
        ensures { result.now ≡ text_or name (options_in self.now) }
    {
        match self.text(name) {
            Some(text) => text,
            None => "",
        }
    }

    /// The number of the spacecraft.
    pub fn spacecraft(&self) -> u32
        requires { NeedsNumber self.now.command }
        ensures number { result ≡ number_or 0 OptionName.Sc (options_in self.now) }
        ensures range { IsInRange 1 999_999_999 result }
    {
        spacecraft_of(self.command, &self.matches)
    }
}
