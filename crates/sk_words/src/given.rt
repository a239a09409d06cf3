//! The words as they were given, whether or not they ask for something: for what is told of them.

ghost use Rattle.std.specs.Prelude.{◌≡◌, ◌≢◌, ◌∷◌, [], Err, IfOk, codes, map, option_map, string_bytes};
ghost use Rattle.sk_words.specs.Words.{AreMatched, command_text, faults, option_text};
ghost use Rattle.sk_words.specs.Request.{name_of};

use crate::matched::{MatchStop, matches_in};
use crate::request::{command_word, given_text};
use crate::tables::OptionName;
use clap::ArgMatches;
use sk_checks::NoMemory;
use std::alloc::Global;
use std::marker::Model;

/// The command's word and the options' texts, of which none is judged.
#[derive(Drop)]
pub struct GivenWords<'a> {
    matches: ArgMatches<'a>,
}

impl<'a> Model for GivenWords<'a> {
    ghost use Rattle.std.specs.Prelude.{List};
    ghost use Rattle.clap.specs.Words.{Row};
    ghost use Rattle.sk_words.specs.Asked.{rows_in};

    ghost Value = { List Row };

    ghost view = { λ g. rows_in g.matches };
}

/// The words behind a word that stands for the program's name.
pub fn station_words<'a>(alloc: Global, words: &'a [String]) -> Result<Vec<&'a str>, NoMemory>
    ensures { IfOk result (λ v. map (λ w. w.now) v.items ≡ codes "station" ∷ map string_bytes words.entry.now) }
{
    let mut all = Vec::new(alloc);
    all.push("station")?;
    for word in words {
        all.push(word.as_str())?;
    }
    Ok(all)
}

/// The words as they are given, the first of which stands for the program's name.
pub fn given_in<'a>(alloc: Global, words: &'a [&'a str]) -> Result<GivenWords<'a>, MatchStop>
    ensures ok { IfOk result (λ g. AreMatched (map (λ w. w.now) words.entry.now) g) }
    ensures refused { result ≡ Err MatchStop.NotTaken → faults (map (λ w. w.now) words.entry.now) ≢ [] }
{
    match matches_in(alloc, words) {
        Ok(matches) => Ok(GivenWords { matches }),
        Err(stop) => Err(stop),
    }
}

impl<'a> GivenWords<'a> {
    /// The text of an option, where it is given.
    pub fn option(&self, name: OptionName) -> Option<&'a str>
        ensures { option_map (λ s. s.now) result ≡ option_text (name_of name) self.now }
    {
        given_text(&self.matches, name)
    }

    /// The word that stands for the command.
    pub fn command_word(&self) -> Option<&'a str>
        ensures { option_map (λ s. s.now) result ≡ command_text self.now }
    {
        command_word(&self.matches)
    }
}
