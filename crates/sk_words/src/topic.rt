//! Words that ask about the program itself.

ghost use Rattle.std.specs.Prelude.{◌≡◌, Ok, None, map};
ghost use Rattle.std.specs.Str.{bytes_eq};
ghost use Rattle.sk_words.specs.Topics.{asks_for_help as is_for_help, asks_for_version as is_for_version, command_by_word as by_word, topic_of as topic_by, topic_of_two as topic_by_two, topic_of_word as topic_by_word};
ghost use Rattle.sk_words.specs.Asked.{Request as Asked, WordsAsk};

use crate::tables::Command;

/// What the words ask about the program: all of it, its version, or one command.
#[derive(Clone, Copy, Debug)]
pub enum Topic {
    Program,
    Version,
    Of(Command),
}

fn asks_for_help(word: &str) -> bool
    ensures { result ≡ is_for_help word.now }
{
    word == "help" || word == "--help" || word == "-h"
}

fn asks_for_version(word: &str) -> bool
    ensures { result ≡ is_for_version word.now }
{
    word == "--version" || word == "-V"
}

fn topic_of_word(word: &str) -> Option<Topic>
    ensures { result ≡ topic_by_word word.now }
{
    if asks_for_help(word) {
        Some(Topic::Program)
    } else if asks_for_version(word) {
        Some(Topic::Version)
    } else {
        None
    }
}

/// The command of a word.
pub fn command_by_word(word: &str) -> Option<Command>
    ensures { result ≡ by_word word.now }
{
    Command::all()
        .iter()
        .copied()
        .find(|command| command.word() == word)
}

fn topic_of_two(word: &str, name: &str) -> Option<Topic>
    ensures { result ≡ topic_by_two word.now name.now }
{
    if word == "help" {
        command_by_word(name).map(Topic::Of)
    } else {
        None
    }
}

fn topic_in(words: &[&str]) -> Option<Topic>
    ensures { result ≡ topic_by (map (λ w. w.now) words.now) }
{
    match words {
        [_, word] => topic_of_word(word),
        [_, word, name] => topic_of_two(word, name),
        _ => None,
    }
}

/// What the words ask about the program, the first of which stands for its name. Words that ask for anything else have
/// no topic: no words that ask for a command are taken for these.
pub fn topic_of(words: &[&str]) -> Option<Topic>
    ensures topic { result ≡ topic_by (map (λ w. w.now) words.now) }
    ensures apart { (request : Asked) → WordsAsk (map (λ w. w.now) words.now) (Ok request) → result ≡ None }
{
    topic_in(words)
}
