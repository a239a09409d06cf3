//! The words, read as one command with options of one text each.
ghost use Rattle.std.specs.Prelude.{◌≡◌, ◌≢◌, IfOk, IfErr, Err, map, true, false, [], List, ℕ};
ghost use Rattle.clap.specs.Words.{app_of, found_of, rows_of, kind_of};
ghost use Rattle.sk_words.specs.Words.{station, with_options, AreMatched, is_taken, faults};

use clap::error::ErrorKind;
use clap::{Arg, ArgMatches, Command, Error};
use sk_checks::NoMemory;
use std::alloc::Global;

/// Why the words give no matches.
#[derive(Clone, Copy, Debug)]
pub enum MatchStop {
    NotTaken,
    NoMemory,
}

static OPTION_WORDS: [&str; 19] = [
    "leap",
    "kernel",
    "obs",
    "sc",
    "tol-ns",
    "rate-decimals",
    "band-ppm",
    "slip-ns",
    "hold",
    "id",
    "clock",
    "seed",
    "count",
    "reject",
    "time",
    "new",
    "over",
    "from",
    "to",
];

/// The command with an option of one text for each name.
fn add_options<'a>(
    alloc: Global,
    command: Command<'a>,
    names: &'a [&'a str],
) -> Result<Command<'a>, NoMemory>
    ensures { IfOk result (λ c. app_of c ≡ with_options (map (λ n. n.now) names.entry.now) (app_of command.entry)) }
{
    let mut command = command;
    for name in names {
        command = command.arg(Arg::new(alloc, name).long(name))?;
    }
    Ok(command)
}

/// One required word, and the options.
#[tactic(auto, unfolding(crate::specs::Words::station))]
fn station_command<'a>(alloc: Global) -> Result<Command<'a>, NoMemory>
    ensures { IfOk result (λ c. app_of c ≡ station) }
{
    let word = Arg::new(alloc, "command").required(true);
    let command = Command::new(alloc, "station").arg(word)?;
    add_options(alloc, command, OPTION_WORDS.as_slice())
}

/// What a refusal of the words means.
fn stop_of(error: Error) -> MatchStop
    ensures taken { result ≡ MatchStop.NotTaken → kind_of error ≢ ErrorKind.OutOfMemory }
    ensures memory { result ≡ MatchStop.NoMemory → kind_of error ≡ ErrorKind.OutOfMemory }
{
    match error.kind() {
        ErrorKind::OutOfMemory => MatchStop::NoMemory,
        _ => MatchStop::NotTaken,
    }
}

/// The matches of the words, the first of which stands for the program's name.
pub fn matches_in<'a>(alloc: Global, words: &'a [&'a str]) -> Result<ArgMatches<'a>, MatchStop>
    ensures ok { IfOk result (λ m. AreMatched (map (λ w. w.now) words.entry.now) (rows_of (found_of m))) }
    ensures not_taken { result ≡ Err MatchStop.NotTaken → is_taken (map (λ w. w.now) words.entry.now) ≡ false }
    ensures refused { result ≡ Err MatchStop.NotTaken → faults (map (λ w. w.now) words.entry.now) ≢ [] }
{
    let Ok(command) = station_command(alloc) else {
        return Err(MatchStop::NoMemory);
    };
    match command.try_get_matches_from(words) {
        Ok(matches) => Ok(matches),
        Err(error) => Err(stop_of(error)),
    }
}

/// What clap says of words that it does not take; an empty text where it takes them, and where it would show a help of
/// its own.
pub fn refusal_text<'a>(alloc: Global, words: &'a [&'a str]) -> Result<String, NoMemory> {
    let command = station_command(alloc)?;
    match command.try_get_matches_from(words) {
        Ok(_) => Ok(String::new(alloc)),
        Err(error) => said_by(alloc, &error),
    }
}

fn said_by(alloc: Global, error: &Error) -> Result<String, NoMemory> {
    match error.kind() {
        ErrorKind::OutOfMemory => Err(NoMemory),
        ErrorKind::DisplayHelp => Ok(String::new(alloc)),
        _ => format!(in alloc; "{error}"),
    }
}
