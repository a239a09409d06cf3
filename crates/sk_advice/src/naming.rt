//! The line that names what a refusal is about.

ghost use Rattle.std.specs.Prelude.{◌≡◌, ◌++◌, ◌∷◌, decimal, IfOk, OnOk, string_bytes};
ghost use Rattle.sk_words.specs.Words.{option_text};
ghost use Rattle.sk_words.specs.Request.{name_of};
ghost use Rattle.sk_advice.specs.Subjects.{command_word as command_word_of, counted, file_text, given_text, place_text, subject_text, text_of, value_text};

use crate::subject::{Place, Subject};
use sk_checks::NoMemory;
use sk_words::{GivenWords, OptionName};
use std::alloc::Global;

pub fn push_text(line: &mut Vec<u8>, text: &str) -> Result<(), NoMemory>
    ensures { OnOk result (line.new.items ≡ line.old.items ++ text.now) }
{
    line.extend_from_slice(text.as_bytes())?;
    Ok(())
}

fn number_text(alloc: Global, number: u32) -> Result<String, NoMemory>
    ensures { IfOk result (λ s. string_bytes s ≡ decimal number) }
{
    format!(in alloc; "{number}")
}

/// Appends a word and a number.
pub fn push_counted(
    alloc: Global,
    line: &mut Vec<u8>,
    word: &str,
    number: u32,
) -> Result<(), NoMemory>
    ensures { OnOk result (line.new.items ≡ line.old.items ++ counted word.now number) }
{
    let number = number_text(alloc, number)?;
    push_text(line, word)?;
    push_text(line, number.as_str())?;
    Ok(())
}

/// The text of an option; nothing where it is not given.
fn text_or_empty<'a>(given: &GivenWords<'a>, name: OptionName) -> &'a str
    ensures { result.now ≡ text_of given.now name }
{
    match given.option(name) {
        Some(text) => text,
        None => "",
    }
}

fn command_word<'a>(given: &GivenWords<'a>) -> &'a str
    ensures { result.now ≡ command_word_of given.now }
{
    match given.command_word() {
        Some(word) => word,
        None => "",
    }
}

fn push_spacecraft(line: &mut Vec<u8>, given: &GivenWords) -> Result<(), NoMemory>
    ensures { OnOk result (line.new.items ≡ line.old.items ++ place_text given.now Place.Spacecraft) }
{
    push_text(line, ", spacecraft ")?;
    push_text(line, text_or_empty(given, OptionName::Sc))?;
    Ok(())
}

fn push_place(
    alloc: Global,
    line: &mut Vec<u8>,
    given: &GivenWords,
    place: Place,
) -> Result<(), NoMemory>
    ensures { OnOk result (line.new.items ≡ line.old.items ++ place_text given.now place) }
{
    match place {
        Place::Whole => {}
        Place::Line(number) => push_counted(alloc, line, ", line ", number)?,
        Place::Item(number) => push_counted(alloc, line, ", item ", number)?,
        Place::Pair(number) => push_counted(alloc, line, ", pair ", number)?,
        Place::Triple(number) => push_counted(alloc, line, ", triple ", number)?,
        Place::Record(number) => push_counted(alloc, line, ", record ", number)?,
        Place::TableLine(number) => push_counted(alloc, line, ", table line ", number)?,
        Place::Spacecraft => push_spacecraft(line, given)?,
    }
    Ok(())
}

fn push_file(line: &mut Vec<u8>, given: &GivenWords, name: OptionName) -> Result<(), NoMemory>
    ensures { OnOk result (line.new.items ≡ line.old.items ++ file_text given.now name) }
{
    push_text(line, text_or_empty(given, name))?;
    push_text(line, " (--")?;
    push_text(line, name.word())?;
    push_text(line, ")")?;
    Ok(())
}

fn push_value(line: &mut Vec<u8>, text: &str) -> Result<(), NoMemory>
    ensures { OnOk result (line.new.items ≡ line.old.items ++ 61 ∷ text.now) }
{
    line.push(b'=')?;
    push_text(line, text)?;
    Ok(())
}

fn push_given_value(
    line: &mut Vec<u8>,
    given: &GivenWords,
    name: OptionName,
) -> Result<(), NoMemory>
    ensures { OnOk result (line.new.items ≡ line.old.items ++ value_text (option_text (name_of name) given.now)) }
{
    match given.option(name) {
        Some(text) => push_value(line, text)?,
        None => {}
    }
    Ok(())
}

fn push_given(line: &mut Vec<u8>, given: &GivenWords, name: OptionName) -> Result<(), NoMemory>
    ensures { OnOk result (line.new.items ≡ line.old.items ++ given_text given.now name) }
{
    push_text(line, "--")?;
    push_text(line, name.word())?;
    push_given_value(line, given, name)?;
    Ok(())
}

fn command_line(alloc: Global, given: &GivenWords) -> Result<Vec<u8>, NoMemory>
    ensures { IfOk result (λ line. line.items ≡ subject_text given.now Subject.Command) }
{
    let mut line = Vec::new(alloc);
    push_text(&mut line, command_word(given))?;
    push_text(&mut line, ":")?;
    Ok(line)
}

fn given_line(alloc: Global, given: &GivenWords, name: OptionName) -> Result<Vec<u8>, NoMemory>
    ensures { IfOk result (λ line. line.items ≡ subject_text given.now (Subject.Given name)) }
{
    let mut line = Vec::new(alloc);
    push_given(&mut line, given, name)?;
    push_text(&mut line, ":")?;
    Ok(line)
}

fn file_line(
    alloc: Global,
    given: &GivenWords,
    name: OptionName,
    place: Place,
) -> Result<Vec<u8>, NoMemory>
    ensures { IfOk result (λ line. line.items ≡ subject_text given.now (Subject.File name place)) }
{
    let mut line = Vec::new(alloc);
    push_file(&mut line, given, name)?;
    push_place(alloc, &mut line, given, place)?;
    push_text(&mut line, ":")?;
    Ok(line)
}

fn over_line(
    alloc: Global,
    given: &GivenWords,
    number: u32,
    place: Place,
) -> Result<Vec<u8>, NoMemory>
    ensures { IfOk result (λ line. line.items ≡ subject_text given.now (Subject.Over number place)) }
{
    let mut line = Vec::new(alloc);
    push_counted(alloc, &mut line, "file ", number)?;
    push_text(&mut line, " of --over")?;
    push_place(alloc, &mut line, given, place)?;
    push_text(&mut line, ":")?;
    Ok(line)
}

/// The line of a subject; empty where there is none.
pub fn subject_line(
    alloc: Global,
    given: &GivenWords,
    subject: Subject,
) -> Result<Vec<u8>, NoMemory>
    ensures { IfOk result (λ line. line.items ≡ subject_text given.now subject) }
{
    match subject {
        Subject::Nothing => Ok(Vec::new(alloc)),
        Subject::Command => command_line(alloc, given),
        Subject::Given(name) => given_line(alloc, given, name),
        Subject::File(name, place) => file_line(alloc, given, name, place),
        Subject::Over(number, place) => over_line(alloc, given, number, place),
    }
}
