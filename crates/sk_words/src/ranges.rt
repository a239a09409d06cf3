//! The ranges of the options.

ghost use Rattle.std.specs.Prelude.{◌≡◌, length};
ghost use Rattle.std.specs.Char.{is_ascii_digit};
ghost use Rattle.std.specs.List.{list_all};
ghost use Rattle.sk_words.specs.Request.{is_number as is_number_text, is_number_in as is_number_within, is_numbered as is_numbered_by, is_file_name as is_name_text, is_in_range as is_within_range, number_of as number_of_text, over_names, meant as meant_by, without_sign as unsigned};

use crate::tables::OptionName;
use sk_calendar::read_calendar_time;

const MOST_DIGITS: usize = 16;

/// Each byte is a digit.
fn are_digits(text: &[u8]) -> bool
    ensures { result ≡ list_all is_ascii_digit text.now }
{
    text.iter().all(|byte| byte.is_ascii_digit())
}

/// The text is 1 to 16 digits.
fn is_number(text: &[u8]) -> bool
    ensures { result ≡ is_number_text text.now }
{
    1 <= text.len() && text.len() <= MOST_DIGITS && are_digits(text)
}

/// The number that 1 to 16 digits write.
pub fn number_of(text: &str) -> Option<u64>
    ensures { result ≡ number_of_text text.now }
{
    if is_number(text.as_bytes()) {
        text.parse().ok()
    } else {
        None
    }
}

/// The text is a number from `low` to `high`.
fn is_number_in(low: u64, high: u64, text: &str) -> bool
    ensures { result ≡ is_number_within low high text.now }
{
    match number_of(text) {
        Some(number) => low <= number && number <= high,
        None => false,
    }
}

/// The text is one of the numbers that the option takes.
fn is_numbered(name: OptionName, text: &str) -> bool
    ensures { result ≡ is_numbered_by name text.now }
{
    match name.numbers() {
        Some(numbers) => is_number_in(numbers.least, numbers.greatest, text),
        None => false,
    }
}

/// The text has one byte or more.
fn is_file_name(text: &str) -> bool
    ensures { result ≡ is_name_text text.now }
{
    !text.is_empty()
}

/// The text may be a kernel ID: it is a calendar time, as kernels have them behind their `@`.
fn is_id(text: &[u8]) -> bool
    ensures { result ≡ is_within_range OptionName.Id text.now }
{
    read_calendar_time(text).is_some()
}

/// Each name between commas has one byte or more.
fn are_named(text: &str) -> bool
    ensures { result ≡ list_all is_name_text (over_names text.now) }
{
    text.split(',').all(|name| !name.is_empty())
}

/// How many names stand between commas.
fn count_names(text: &str) -> usize
    ensures { result ≡ length (over_names text.now) }
{
    text.split(',').count()
}

/// The text is 1 to 16 file names, joined by commas.
fn are_file_names(text: &str) -> bool
    ensures { result ≡ is_within_range OptionName.Over text.now }
{
    are_named(text) && count_names(text) <= 16
}

/// The text without one minus sign before it.
fn without_sign(text: &str) -> &str
    ensures { result.now ≡ unsigned text.now }
{
    match text.strip_prefix('-') {
        Some(number) => number,
        None => text,
    }
}

/// What the text of an option means: the number of a spacecraft may have its minus sign.
pub fn meant<'a>(name: OptionName, text: &'a str) -> &'a str
    ensures { result.now ≡ meant_by name text.now }
{
    if name.word() == OptionName::Sc.word() {
        without_sign(text)
    } else {
        text
    }
}

/// The text is in the range of the option.
pub fn is_in_range(name: OptionName, text: &str) -> bool
    ensures { result ≡ is_within_range name text.now }
{
    match name {
        OptionName::Leap => is_file_name(text),
        OptionName::Kernel => is_file_name(text),
        OptionName::Obs => is_file_name(text),
        OptionName::Sc => is_numbered(name, text),
        OptionName::TolNs => is_numbered(name, text),
        OptionName::RateDecimals => is_numbered(name, text),
        OptionName::BandPpm => is_numbered(name, text),
        OptionName::SlipNs => is_numbered(name, text),
        OptionName::Hold => is_numbered(name, text),
        OptionName::Id => is_id(text.as_bytes()),
        OptionName::Clock => true,
        OptionName::Seed => is_numbered(name, text),
        OptionName::Count => is_numbered(name, text),
        OptionName::Reject => is_numbered(name, text),
        OptionName::Time => true,
        OptionName::New => is_file_name(text),
        OptionName::Over => are_file_names(text),
        OptionName::From => is_numbered(name, text),
        OptionName::To => is_numbered(name, text),
    }
}
