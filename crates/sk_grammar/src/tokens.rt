//! The tokens of a data line that may have many bytes.

ghost use Rattle.std.specs.Prelude.{◌≡◌, ◌+◌, ◌^◌, ◌<◌, ◌≤◌, [], length, true, false, Some, IfOk};
ghost use Rattle.std.specs.List.{prefix_len};
ghost use Rattle.sk_decimal.specs.Reading.{number_of};
ghost use Rattle.sk_grammar.specs.Document.{is_name_byte, is_run_byte};
ghost use Rattle.sk_grammar.specs.Quotes.{is_plain as is_plain_byte};
ghost use Rattle.sk_grammar.specs.Refusal.{name_at, run_at};
ghost use Rattle.sk_grammar.specs.ValueReading.{text_from, ended_text, date_of, text_value as text_of, number_value as number_in, run_value as value_of_run, value_at as value_here};
ghost use Rattle.sk_grammar.specs.Stopping.{Gives};

use crate::bytes::Bytes;
use crate::fault::Reason;
use crate::stop::Stop;
use crate::value::Value;
use sk_decimal::{Decimal, NumberFault};
use std::alloc::Global;

/// Whether the byte may stand in a name.
fn is_name(byte: u8) -> bool
    ensures { result ≡ is_name_byte byte }
{
    byte >= 33
        && byte <= 126
        && !(byte == b'(' || byte == b')' || byte == b',' || byte == b'=' || byte == b'\'')
}

/// Whether the byte may stand in a run.
fn is_run(byte: u8) -> bool
    ensures { result ≡ is_run_byte byte }
{
    !(byte == b' '
        || byte == b'\t'
        || byte == b'\n'
        || byte == b','
        || byte == b'('
        || byte == b')'
        || byte == b'\'')
}

/// How many bytes of a name stand in front.
fn name_count(bytes: &[u8]) -> usize
    ensures { result ≡ prefix_len is_name_byte bytes.now }
{
    for (i, byte) in bytes.iter().enumerate() {
        if !is_name(*byte) {
            return i;
        }
    }
    bytes.len()
}

/// How many bytes of a run stand in front.
fn run_count(bytes: &[u8]) -> usize
    ensures { result ≡ prefix_len is_run_byte bytes.now }
{
    for (i, byte) in bytes.iter().enumerate() {
        if !is_run(*byte) {
            return i;
        }
    }
    bytes.len()
}

/// The name at the front; a `+` at its end that stands directly before `=` belongs to the sign.
pub fn name(bytes: &[u8]) -> &[u8]
    ensures { result.now ≡ name_at bytes.now }
{
    let count = name_count(bytes);
    let (run, rest) = bytes.split_at(count);
    match (run, rest) {
        ([name @ .., b'+'], [b'=', ..]) => name,
        _ => run,
    }
}

/// The run at the front.
fn run(bytes: &[u8]) -> &[u8]
    ensures { result.now ≡ run_at bytes.now }
{
    let count = run_count(bytes);
    let (run, _) = bytes.split_at(count);
    run
}

/// The text whose spelling stands behind its first quote, and how many bytes that takes.
fn text(alloc: Global, bytes: &[u8]) -> Result<(Bytes, usize), Stop>
    ensures answer { Gives result (ended_text (text_from false bytes.now)) }
    ensures inside { IfOk result (λ text. text.1 ≤ length bytes.now) }
{
    let mut text = Vec::new(alloc);
    // Behind a quote that ends the text, unless another one follows.
    let mut behind_quote = false;
    for (i, byte) in bytes.iter().enumerate() {
        if *byte == b'\'' {
            if behind_quote {
                text.push(*byte)?;
            }
            behind_quote = !behind_quote;
        } else if behind_quote {
            return Ok((Bytes::from_vec(text), i));
        } else if *byte == b'\n' {
            return Err(Stop::Refused(Reason::TextOpen));
        } else {
            text.push(*byte)?;
        }
    }
    if behind_quote {
        Ok((Bytes::from_vec(text), bytes.len()))
    } else {
        Err(Stop::Refused(Reason::TextOpen))
    }
}

/// How many bytes stand in front of a quote or a line feed.
fn plain_count(bytes: &[u8]) -> usize
    ensures { result ≡ prefix_len is_plain_byte bytes.now }
{
    for (i, byte) in bytes.iter().enumerate() {
        if *byte == b'\'' || *byte == b'\n' {
            return i;
        }
    }
    bytes.len()
}

/// Whether a quote stands in front that ends a text.
fn ends_text(bytes: &[u8]) -> bool
    ensures { result ≡ true → text_from false bytes.now ≡ Some [] }
{
    match bytes {
        [b'\'', b'\'', ..] => false,
        [b'\'', ..] => true,
        _ => false,
    }
}

/// The text as `text` reads it; one with no quote in it is copied at once.
fn text_at(alloc: Global, bytes: &[u8]) -> Result<(Bytes, usize), Stop>
    requires { length bytes.now + 1 < 2 ^ 64 }
    ensures answer { Gives result (ended_text (text_from false bytes.now)) }
    ensures inside { IfOk result (λ text. text.1 ≤ length bytes.now) }
{
    let count = plain_count(bytes);
    let (plain, behind) = bytes.split_at(count);
    if !ends_text(behind) {
        return text(alloc, bytes);
    }
    match Bytes::copied(alloc, plain) {
        Err(_) => Err(Stop::OutOfMemory),
        Ok(copy) => Ok((copy, count + 1)),
    }
}

/// The text value behind its first quote.
fn quoted_value(alloc: Global, bytes: &[u8]) -> Result<(Value, usize), Stop>
    requires { length bytes.now + 1 < 2 ^ 64 }
    ensures { Gives result (text_of number_of (text_from false bytes.now)) }
{
    match text_at(alloc, bytes) {
        Err(stop) => Err(stop),
        Ok((text, size)) => {
            if text.as_slice().len() > 80 {
                return Err(Stop::Refused(Reason::TextTooLong));
            }
            Ok((Value::Text(text), size + 1))
        }
    }
}

/// The number that the run spells.
fn number_value(run: &[u8]) -> Result<(Value, usize), Stop>
    ensures { Gives result (number_in number_of run.now (number_of run.now)) }
{
    match Decimal::read(run) {
        Ok(number) => Ok((Value::Number(number), run.len())),
        Err(NumberFault::NotNumber) => Err(Stop::Refused(Reason::BadNumber)),
        Err(NumberFault::TooWide) => Err(Stop::Refused(Reason::NumberTooWide)),
    }
}

/// The date that the run is, its `@` first.
fn date_value(alloc: Global, run: &[u8]) -> Result<(Value, usize), Stop>
    ensures { Gives result (date_of run.now) }
{
    if run.len() == 1 || run.len() > 80 {
        return Err(Stop::Refused(Reason::BadDate));
    }
    match Bytes::copied(alloc, run) {
        Err(_) => Err(Stop::OutOfMemory),
        Ok(date) => Ok((Value::Date(date), run.len())),
    }
}

/// The value that a run spells.
fn run_value(alloc: Global, run: &[u8]) -> Result<(Value, usize), Stop>
    ensures { Gives result (value_of_run number_of run.now) }
{
    match run {
        [b'@', ..] => date_value(alloc, run),
        _ => number_value(run),
    }
}

/// The value at the front, and how many bytes it takes.
pub fn value_at(alloc: Global, bytes: &[u8]) -> Result<(Value, usize), Stop>
    ensures { Gives result (value_here number_of bytes.now) }
{
    match bytes {
        [b'\'', rest @ ..] => quoted_value(alloc, rest),
        _ => run_value(alloc, run(bytes)),
    }
}
