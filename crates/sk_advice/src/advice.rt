//! The sentences behind the line of a refusal.

ghost use Rattle.std.specs.Prelude.{◌≡◌, ◌++◌, ◌∷◌, [], false, IfOk, OnOk, map};
ghost use Rattle.sk_advice.specs.Sentences.{AreSentences, sentences};
ghost use Rattle.sk_advice.specs.Advice.{advice_text, cause_in, cure_in, is_before as is_before_leap, is_before_table as is_before_first_leap, is_not_taken as is_not_taken_end, lacks_leap as lacks_leap_seconds, observation_is_before as observation_is_early, record_is_before as record_is_early, time_is_before as time_is_early, words_not_taken as are_not_taken};
ghost use Rattle.sk_advice.specs.Told.{IsAdvice};

use crate::causes::status_cause;
use crate::cures::status_cure;
use crate::further::{further_line, hint_of};
use crate::naming::subject_line;
use crate::sentences::{push_lines, push_sentence};
use crate::subject::subject_of;
use sk_checks::NoMemory;
use sk_leap::UtcFault;
use sk_obs::ObsFault;
use sk_status::{ObsStop, Status, TimeStop};
use sk_words::{GivenWords, MatchStop, OptionName, WordsFault, given_in, refusal_text};
use std::alloc::Global;

fn is_before_table(fault: UtcFault) -> bool
    ensures { result ≡ is_before_first_leap fault }
{
    match fault {
        UtcFault::BeforeTable => true,
        UtcFault::NotInDay => false,
        UtcFault::PastRange => false,
    }
}

fn record_is_before(fault: ObsFault) -> bool
    ensures { result ≡ record_is_early fault }
{
    match fault {
        ObsFault::UtcRefused(_, fault) => is_before_table(fault),
        _ => false,
    }
}

fn observation_is_before(stop: ObsStop) -> bool
    ensures { result ≡ observation_is_early stop }
{
    match stop {
        ObsStop::Record(fault) => record_is_before(fault),
        _ => false,
    }
}

fn time_is_before(stop: TimeStop) -> bool
    ensures { result ≡ time_is_early stop }
{
    match stop {
        TimeStop::Utc(fault) => is_before_table(fault),
        _ => false,
    }
}

fn is_before(status: Status) -> bool
    ensures { result ≡ is_before_leap status }
{
    match status {
        Status::ObservationRefused(stop) => observation_is_before(stop),
        Status::TimeRefused(stop) => time_is_before(stop),
        _ => false,
    }
}

/// A UTC is refused, and no leap seconds kernel was given.
fn lacks_leap(given: &GivenWords, status: Status) -> bool
    ensures { result ≡ lacks_leap_seconds given.now status }
{
    is_before(status) && given.option(OptionName::Leap).is_none()
}

fn cause(given: &GivenWords, status: Status) -> &'static str
    ensures { result.now ≡ cause_in given.now status }
{
    if lacks_leap(given, status) {
        "no --leap was given, and without leap seconds no UTC and no CDS code has a time."
    } else {
        status_cause(status)
    }
}

fn cure(given: &GivenWords, status: Status) -> &'static str
    ensures { result.now ≡ cure_in given.now status }
{
    if lacks_leap(given, status) {
        "Give --leap=FILE, a leap seconds kernel, as NAIF's naif0012.tls."
    } else {
        status_cure(status)
    }
}

fn push_wrong(text: &mut Vec<u8>, given: &GivenWords, status: Status) -> Result<(), NoMemory>
    ensures { OnOk result (text.new.items ≡ text.old.items ++ sentences (cause_in given.now status ∷ cure_in given.now status ∷ [])) }
{
    push_sentence(text, cause(given, status).as_bytes())?;
    push_sentence(text, cure(given, status).as_bytes())?;
    Ok(())
}

/// The sentences of a status where clap takes the words.
fn given_advice(alloc: Global, given: &GivenWords, status: Status) -> Result<Vec<u8>, NoMemory>
    ensures { IfOk result (λ text. text.items ≡ advice_text given.now status) }
{
    let subject = subject_of(status);
    let mut text = Vec::new(alloc);
    push_sentence(&mut text, subject_line(alloc, given, subject)?.as_slice())?;
    push_wrong(&mut text, given, status)?;
    push_sentence(&mut text, further_line(alloc, status)?.as_slice())?;
    push_sentence(&mut text, hint_of(alloc, subject)?.as_slice())?;
    Ok(text)
}

const USAGE: &str =
    "Write each option as one word, as --kernel=FILE or --sc=-99, and no blank beside the =.\nusage: station COMMAND --NAME=VALUE ..\n       station help, or station help COMMAND";

/// What clap says of words that it does not take.
fn said_advice(alloc: Global, words: &[&str]) -> Result<Vec<u8>, NoMemory>
    ensures { IfOk result (λ text. AreSentences text.items) }
{
    let said = refusal_text(alloc, words)?;
    let mut text = Vec::new(alloc);
    push_lines(&mut text, said.as_str())?;
    push_lines(&mut text, USAGE)?;
    Ok(text)
}

fn words_not_taken(fault: WordsFault) -> bool
    ensures { result ≡ are_not_taken fault }
{
    match fault {
        WordsFault::NotTaken => true,
        _ => false,
    }
}

fn is_not_taken(status: Status) -> bool
    ensures { result ≡ is_not_taken_end status }
{
    match status {
        Status::WordsRefused(fault) => words_not_taken(fault),
        _ => false,
    }
}

/// The sentences of a status where clap does not take the words: none, where the status is another one.
fn not_taken_advice(alloc: Global, words: &[&str], status: Status) -> Result<Vec<u8>, NoMemory>
    ensures are_sentences { IfOk result (λ text. AreSentences text.items) }
    ensures silent { IfOk result (λ text. is_not_taken_end status ≡ false → text.items ≡ []) }
{
    if is_not_taken(status) {
        said_advice(alloc, words)
    } else {
        Ok(Vec::new(alloc))
    }
}

/// The sentences behind the line of a status. The first word stands for the program's name.
pub fn advice(alloc: Global, words: &[&str], status: Status) -> Result<Vec<u8>, NoMemory>
    ensures { IfOk result (λ text. IsAdvice (map (λ w. w.now) words.now) status text.items) }
{
    match given_in(alloc, words) {
        Ok(given) => given_advice(alloc, &given, status),
        Err(MatchStop::NotTaken) => not_taken_advice(alloc, words, status),
        Err(MatchStop::NoMemory) => Err(NoMemory),
    }
}
