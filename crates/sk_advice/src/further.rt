//! Further lines: what there is to choose from, more of the cure, and how to find the record.

ghost use Rattle.std.specs.Prelude.{◌≡◌, ◌++◌, IfOk, OnOk, string_bytes};
ghost use Rattle.sk_words.specs.Request.{numbers_of};
ghost use Rattle.sk_words.specs.Help.{given_as};
ghost use Rattle.sk_advice.specs.Advice.{barrier_line as barrier_line_of, commands_text, further_of, further_of_fit, further_of_observation, further_of_record, further_of_words, hint_at as hint_at_place, hint_of as hint_of_subject, numbers_line as numbers_line_of, old_line as old_line_of, option_line as option_line_of, pair_line as pair_line_of, range_line as range_line_of, record_hint as record_hint_of};

use crate::distances::{push_away, push_distance};
use crate::naming::{push_counted, push_text};
use crate::subject::{Place, Subject};
use sk_checks::NoMemory;
use sk_decimal::Fixed;
use sk_fit::{Barrier, FitFault, Miss};
use sk_obs::ObsFault;
use sk_status::{ObsStop, Status};
use sk_words::{Command, OptionName, WordsFault};
use std::alloc::Global;

fn commands_line(alloc: Global) -> Result<Vec<u8>, NoMemory>
    ensures { IfOk result (λ line. line.items ≡ commands_text) }
{
    let mut line = Vec::new(alloc);
    push_text(&mut line, "the commands are")?;
    for command in Command::all() {
        push_text(&mut line, " ")?;
        push_text(&mut line, command.word())?;
    }
    Ok(line)
}

/// Appends an option and what stands for its value.
fn push_given_as(line: &mut Vec<u8>, name: OptionName) -> Result<(), NoMemory>
    ensures { OnOk result (line.new.items ≡ line.old.items ++ given_as name) }
{
    push_text(line, "--")?;
    push_text(line, name.word())?;
    line.push(b'=')?;
    push_text(line, name.form())?;
    Ok(())
}

fn option_line(alloc: Global, name: OptionName) -> Result<Vec<u8>, NoMemory>
    ensures { IfOk result (λ line. line.items ≡ option_line_of name) }
{
    let mut line = Vec::new(alloc);
    push_given_as(&mut line, name)?;
    push_text(&mut line, ": ")?;
    push_text(&mut line, name.about())?;
    Ok(line)
}

fn numbers_text(alloc: Global, least: u64, greatest: u64) -> Result<String, NoMemory>
    ensures { IfOk result (λ s. string_bytes s ≡ numbers_line_of least greatest) }
{
    format!(in alloc;
        "a whole number from {least} to {greatest}, in digits alone, as 1000000: no point, exponent, _ or blank."
    )
}

fn numbers_line(alloc: Global, least: u64, greatest: u64) -> Result<Vec<u8>, NoMemory>
    ensures { IfOk result (λ line. line.items ≡ numbers_line_of least greatest) }
{
    let text = numbers_text(alloc, least, greatest)?;
    let mut line = Vec::new(alloc);
    push_text(&mut line, text.as_str())?;
    Ok(line)
}

fn range_line(alloc: Global, name: OptionName) -> Result<Vec<u8>, NoMemory>
    ensures { IfOk result (λ line. line.items ≡ range_line_of name (numbers_of name)) }
{
    match name.numbers() {
        Some(numbers) => numbers_line(alloc, numbers.least, numbers.greatest),
        None => option_line(alloc, name),
    }
}

fn words_further(alloc: Global, fault: WordsFault) -> Result<Vec<u8>, NoMemory>
    ensures { IfOk result (λ line. line.items ≡ further_of_words fault) }
{
    match fault {
        WordsFault::NotTaken => Ok(Vec::new(alloc)),
        WordsFault::UnknownCommand => commands_line(alloc),
        WordsFault::NeedOption(name) => option_line(alloc, name),
        WordsFault::OutOfRange(name) => range_line(alloc, name),
    }
}

fn record_further(fault: ObsFault) -> &'static str
    ensures { result.now ≡ further_of_record fault }
{
    match fault {
        ObsFault::TimeForm(_) => {
            "no offset as +00:00, at most 12 decimals, and a day that its month has."
        }
        _ => "",
    }
}

fn observation_further(stop: ObsStop) -> &'static str
    ensures { result.now ≡ further_of_observation stop }
{
    match stop {
        ObsStop::Record(fault) => record_further(fault),
        _ => "",
    }
}

fn fixed_line(alloc: Global, text: &str) -> Result<Vec<u8>, NoMemory>
    ensures { IfOk result (λ line. line.items ≡ text.now) }
{
    let mut line = Vec::new(alloc);
    push_text(&mut line, text)?;
    Ok(line)
}

fn pair_line(alloc: Global, low: Miss, high: Miss) -> Result<Vec<u8>, NoMemory>
    ensures { IfOk result (λ line. line.items ≡ pair_line_of low high) }
{
    let mut line = Vec::new(alloc);
    let too_small = "Each allowed rate is too small at record ";
    push_counted(alloc, &mut line, too_small, low.number)?;
    push_away(&mut line, low.distance, "the line")?;
    push_counted(alloc, &mut line, " or too large at record ", high.number)?;
    push_away(&mut line, high.distance, "it")?;
    push_text(&mut line, ".")?;
    Ok(line)
}

fn old_line(alloc: Global, distance: Fixed<12>) -> Result<Vec<u8>, NoMemory>
    ensures { IfOk result (λ line. line.items ≡ old_line_of distance.units) }
{
    let mut line = Vec::new(alloc);
    push_text(
        &mut line,
        "The line of the kernel's last triple misses it too: the record lies ",
    )?;
    push_distance(&mut line, distance)?;
    push_text(&mut line, "that line.")?;
    Ok(line)
}

fn barrier_line(alloc: Global, barrier: Barrier) -> Result<Vec<u8>, NoMemory>
    ensures { IfOk result (λ line. line.items ≡ barrier_line_of barrier) }
{
    match barrier {
        Barrier::OldLine(distance) => old_line(alloc, distance),
        Barrier::Pair { low, high } => pair_line(alloc, low, high),
    }
}

fn fit_further(alloc: Global, fault: FitFault) -> Result<Vec<u8>, NoMemory>
    ensures { IfOk result (λ line. line.items ≡ further_of_fit fault) }
{
    match fault {
        FitFault::NoRate(_, barrier) => barrier_line(alloc, barrier),
        _ => Ok(Vec::new(alloc)),
    }
}

/// More of what there is to do where a run ends so; an empty line where there is no more.
pub fn further_line(alloc: Global, status: Status) -> Result<Vec<u8>, NoMemory>
    ensures { IfOk result (λ line. line.items ≡ further_of status) }
{
    match status {
        Status::WordsRefused(fault) => words_further(alloc, fault),
        Status::ObservationRefused(stop) => fixed_line(alloc, observation_further(stop)),
        Status::NotPublished(fault) => fit_further(alloc, fault),
        _ => Ok(Vec::new(alloc)),
    }
}

fn record_hint(alloc: Global, number: u32) -> Result<Vec<u8>, NoMemory>
    ensures { IfOk result (λ line. line.items ≡ record_hint_of number) }
{
    let mut line = Vec::new(alloc);
    push_counted(
        alloc,
        &mut line,
        "Record 1 is the header: grep -n . FILE | sed -n ",
        number,
    )?;
    push_text(&mut line, "p prints the record and its line number.")?;
    Ok(line)
}

fn hint_at(alloc: Global, place: Place) -> Result<Vec<u8>, NoMemory>
    ensures { IfOk result (λ line. line.items ≡ hint_at_place place) }
{
    match place {
        Place::Record(number) => record_hint(alloc, number),
        _ => Ok(Vec::new(alloc)),
    }
}

/// How to find the record that a refusal is about; an empty line where it is about none.
pub fn hint_of(alloc: Global, subject: Subject) -> Result<Vec<u8>, NoMemory>
    ensures { IfOk result (λ line. line.items ≡ hint_of_subject subject) }
{
    match subject {
        Subject::File(_, place) => hint_at(alloc, place),
        _ => Ok(Vec::new(alloc)),
    }
}
