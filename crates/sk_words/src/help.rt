//! The pages of the help and of the version.

ghost use Rattle.std.specs.Prelude.{◌≡◌, ◌∷◌, ◌++◌, IfOk, OnOk, codes, map, drop, string_bytes};
ghost use Rattle.std.specs.List.{flat_map};
ghost use Rattle.sk_words.specs.Request.{all_commands, all_options, name_of, needs, uses, numbers_of};
ghost use Rattle.sk_words.specs.Help.{blanks as blanks_of, command_page as command_page_of, command_rows, default_text as default_by, given_as, heading_of, is_shown as is_shown_by, lines, needed_text, numbers_row, opening as opening_lines, closing as closing_lines, numbers_text as numbers_by, opening_rows, option_rows, others_of, page_of, program_page as program_page_of, row, shown_rows, usage_of, version as version_by, version_page as version_page_of};

use crate::limits::Numbers;
use crate::tables::{Command, OptionName};
use crate::topic::Topic;
use sk_checks::NoMemory;
use std::alloc::Global;

const VERSION: &str = "0.9.0";

const BLANKS: &str = "                      ";

static OPENING: [&str; 6] = [
    "keeps a spacecraft clock kernel (NAIF SCLK type 1), exactly",
    "",
    "usage: station COMMAND --NAME=VALUE ..",
    "       station help COMMAND",
    "",
    "Commands",
];

static CLOSING: [&str; 5] = [
    "",
    "Status: 0 done, 2 words, 3 leap seconds kernel, 4 clock kernel, 5 observations,",
    "6 not published, 7 reading, 8 writing, 9 memory, 10 time, 11 not accepted,",
    "12 the kernel of --new, 13 range, 14 a kernel of --over. A refusal is told on",
    "standard error; docs/REFUSALS.md tells what each means and what to do.",
];

#[tactic(auto, unfolding(crate::specs::Help::opening))]
fn opening() -> &'static [&'static str]
    ensures { map (λ l. l.now) result.now ≡ opening_lines }
{
    OPENING.as_slice()
}

#[tactic(auto, unfolding(crate::specs::Help::closing))]
fn closing() -> &'static [&'static str]
    ensures { map (λ l. l.now) result.now ≡ closing_lines }
{
    CLOSING.as_slice()
}

fn push_text(page: &mut Vec<u8>, text: &str) -> Result<(), NoMemory>
    ensures { OnOk result (page.new.items ≡ page.old.items ++ text.now) }
{
    page.extend_from_slice(text.as_bytes())?;
    Ok(())
}

fn push_lines(page: &mut Vec<u8>, texts: &[&str]) -> Result<(), NoMemory>
    ensures { OnOk result (page.new.items ≡ page.old.items ++ lines (map (λ t. t.now) texts.now)) }
{
    for text in texts {
        push_text(page, text)?;
        page.push(b'\n')?;
    }
    Ok(())
}

/// Appends the blanks that follow a label of this length.
fn push_blanks(page: &mut Vec<u8>, label: usize) -> Result<(), NoMemory>
    ensures { OnOk result (page.new.items ≡ page.old.items ++ drop label blanks_of) }
{
    if let Some(blanks) = BLANKS.as_bytes().get(label..) {
        page.extend_from_slice(blanks)?;
    }
    Ok(())
}

fn push_row(page: &mut Vec<u8>, label: &[u8], text: &[u8]) -> Result<(), NoMemory>
    ensures { OnOk result (page.new.items ≡ page.old.items ++ row label.now text.now) }
{
    page.extend_from_slice(label)?;
    push_blanks(page, label.len())?;
    page.extend_from_slice(text)?;
    page.push(b'\n')?;
    Ok(())
}

fn push_given_as(page: &mut Vec<u8>, name: OptionName) -> Result<(), NoMemory>
    ensures { OnOk result (page.new.items ≡ page.old.items ++ given_as name) }
{
    push_text(page, "--")?;
    push_text(page, name.word())?;
    page.push(b'=')?;
    push_text(page, name.form())?;
    Ok(())
}

fn default_text(alloc: Global, default: Option<u64>) -> Result<String, NoMemory>
    ensures { IfOk result (λ s. string_bytes s ≡ default_by default) }
{
    match default {
        Some(number) => format!(in alloc; "; {number} where it is not given"),
        None => Ok(String::new(alloc)),
    }
}

fn numbers_text(alloc: Global, numbers: Numbers) -> Result<String, NoMemory>
    ensures { IfOk result (λ s. string_bytes s ≡ numbers_by numbers) }
{
    let least = numbers.least;
    let greatest = numbers.greatest;
    let default = default_text(alloc, numbers.default)?;
    format!(in alloc; "{least} to {greatest}{default}")
}

fn push_numbers(alloc: Global, page: &mut Vec<u8>, numbers: Option<Numbers>) -> Result<(), NoMemory>
    ensures { OnOk result (page.new.items ≡ page.old.items ++ numbers_row numbers) }
{
    if let Some(numbers) = numbers {
        let text = numbers_text(alloc, numbers)?;
        push_row(page, b"", text.as_bytes())?;
    }
    Ok(())
}

/// The label of an option's row.
fn option_label(alloc: Global, name: OptionName) -> Result<Vec<u8>, NoMemory>
    ensures { IfOk result (λ label. label.items ≡ codes "  " ++ given_as name) }
{
    let mut label = Vec::new(alloc);
    push_text(&mut label, "  ")?;
    push_given_as(&mut label, name)?;
    Ok(label)
}

fn push_option(alloc: Global, page: &mut Vec<u8>, name: OptionName) -> Result<(), NoMemory>
    ensures { OnOk result (page.new.items ≡ page.old.items ++ option_rows name) }
{
    let label = option_label(alloc, name)?;
    push_row(page, label.as_slice(), name.about().as_bytes())?;
    push_numbers(alloc, page, name.numbers())?;
    Ok(())
}

/// Some command uses the option.
fn is_shown(name: OptionName) -> bool
    ensures { result ≡ is_shown_by name }
{
    Command::all()
        .iter()
        .any(|command| command.uses_option(name))
}

fn push_shown(alloc: Global, page: &mut Vec<u8>, name: OptionName) -> Result<(), NoMemory>
    ensures { OnOk result (page.new.items ≡ page.old.items ++ shown_rows name) }
{
    if is_shown(name) {
        push_option(alloc, page, name)?;
    }
    Ok(())
}

fn push_all_shown(alloc: Global, page: &mut Vec<u8>) -> Result<(), NoMemory>
    ensures { OnOk result (page.new.items ≡ page.old.items ++ flat_map shown_rows all_options) }
{
    for name in OptionName::all() {
        push_shown(alloc, page, *name)?;
    }
    Ok(())
}

fn push_used(alloc: Global, page: &mut Vec<u8>, command: Command) -> Result<(), NoMemory>
    ensures { OnOk result (page.new.items ≡ page.old.items ++ flat_map option_rows (uses command)) }
{
    for name in command.uses() {
        push_option(alloc, page, *name)?;
    }
    Ok(())
}

fn needed(alloc: Global, command: Command) -> Result<Vec<u8>, NoMemory>
    ensures { IfOk result (λ text. text.items ≡ needed_text command) }
{
    let mut text = Vec::new(alloc);
    push_text(&mut text, "needs")?;
    for name in command.needs() {
        push_text(&mut text, " --")?;
        push_text(&mut text, name.word())?;
    }
    Ok(text)
}

fn push_command(alloc: Global, page: &mut Vec<u8>, command: Command) -> Result<(), NoMemory>
    ensures { OnOk result (page.new.items ≡ page.old.items ++ command_rows command) }
{
    let mut label = Vec::new(alloc);
    push_text(&mut label, "  ")?;
    push_text(&mut label, command.word())?;
    push_row(page, label.as_slice(), command.writes().as_bytes())?;
    push_row(page, b"", needed(alloc, command)?.as_slice())?;
    Ok(())
}

fn push_commands(alloc: Global, page: &mut Vec<u8>) -> Result<(), NoMemory>
    ensures { OnOk result (page.new.items ≡ page.old.items ++ flat_map command_rows all_commands) }
{
    for command in Command::all() {
        push_command(alloc, page, *command)?;
    }
    Ok(())
}

/// Appends the options that the command needs.
fn push_needs(page: &mut Vec<u8>, command: Command) -> Result<(), NoMemory>
    ensures { OnOk result (page.new.items ≡ page.old.items ++ flat_map (λ name. 32 ∷ given_as name) (needs command)) }
{
    for name in command.needs() {
        page.push(b' ')?;
        push_given_as(page, *name)?;
    }
    Ok(())
}

/// Whether the command uses options that it does not need.
fn others(command: Command) -> &'static str
    ensures { result.now ≡ others_of command }
{
    if command.needs().len() < command.uses().len() {
        " [OPTION ..]"
    } else {
        ""
    }
}

fn push_usage(page: &mut Vec<u8>, command: Command) -> Result<(), NoMemory>
    ensures { OnOk result (page.new.items ≡ page.old.items ++ usage_of command) }
{
    push_text(page, "usage: station ")?;
    push_text(page, command.word())?;
    push_needs(page, command)?;
    push_text(page, others(command))?;
    Ok(())
}

/// The version of the program.
pub fn version() -> &'static str
    ensures { result.now ≡ version_by }
{
    VERSION
}

fn version_page(alloc: Global) -> Result<Vec<u8>, NoMemory>
    ensures { IfOk result (λ page. page.items ≡ version_page_of) }
{
    let mut page = Vec::new(alloc);
    push_text(&mut page, "station ")?;
    push_text(&mut page, VERSION)?;
    page.push(b'\n')?;
    Ok(page)
}

fn push_opening(page: &mut Vec<u8>) -> Result<(), NoMemory>
    ensures { OnOk result (page.new.items ≡ page.old.items ++ opening_rows) }
{
    push_text(page, "station ")?;
    push_text(page, VERSION)?;
    push_text(page, ": ")?;
    push_lines(page, opening())?;
    Ok(())
}

fn program_page(alloc: Global) -> Result<Vec<u8>, NoMemory>
    ensures { IfOk result (λ page. page.items ≡ program_page_of) }
{
    let mut page = Vec::new(alloc);
    push_opening(&mut page)?;
    push_commands(alloc, &mut page)?;
    push_text(&mut page, "\nOptions\n")?;
    push_all_shown(alloc, &mut page)?;
    push_lines(&mut page, closing())?;
    Ok(page)
}

fn push_heading(page: &mut Vec<u8>, command: Command) -> Result<(), NoMemory>
    ensures { OnOk result (page.new.items ≡ page.old.items ++ heading_of command) }
{
    push_text(page, "station ")?;
    push_text(page, command.word())?;
    push_text(page, ": ")?;
    push_text(page, command.writes())?;
    push_text(page, "\n\n")?;
    Ok(())
}

fn command_page(alloc: Global, command: Command) -> Result<Vec<u8>, NoMemory>
    ensures { IfOk result (λ page. page.items ≡ command_page_of command) }
{
    let mut page = Vec::new(alloc);
    push_heading(&mut page, command)?;
    push_usage(&mut page, command)?;
    push_text(&mut page, "\n\nOptions\n")?;
    push_used(alloc, &mut page, command)?;
    page.push(b'\n')?;
    push_lines(&mut page, command.remarks())?;
    Ok(page)
}

/// The page of a topic: lines of at most 80 columns, each ended by a line feed. Only want of memory is refused.
#[tactic(auto, unfolding(crate::specs::Help::page_of))]
pub fn page(alloc: Global, topic: Topic) -> Result<Vec<u8>, NoMemory>
    ensures { IfOk result (λ page. page.items ≡ page_of topic) }
{
    match topic {
        Topic::Program => program_page(alloc),
        Topic::Version => version_page(alloc),
        Topic::Of(command) => command_page(alloc, command),
    }
}
