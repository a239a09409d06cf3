//! Clock strings from left to right.

ghost use Rattle.std.specs.Prelude.{◌≡◌, ◌<◌, ◌≤◌, ◌↔◌, ◌^◌, List, ℕ, Option, Some, None, length, [], ◌∷◌, ◌++◌, option_map, IsTrue, MatchOption, IsSomeAnd};
ghost use Rattle.std.specs.Char.{digit_value, is_ascii_digit};
ghost use Rattle.std.specs.List.{list_all, prefix_len};
ghost use Rattle.std.specs.Str.Parse.{digits_value};
ghost use Rattle.sk_clock.specs.Values.{KeepsValues, KeepsReading};
ghost use Rattle.sk_clock.specs.Scan.{is_blank, is_mark as is_mark_of, is_count as is_count_of, front, behind, next_field as next_field_of, parts_of as parts_of_bytes, values_of as values_of_bytes, reading_of};

use crate::reading::{Reading, Values};
use arrayvec::ArrayVec;

/// How many digits stand in front.
fn digit_count(bytes: &[u8]) -> usize
    ensures { result ≡ prefix_len is_ascii_digit bytes.now }
{
    for (i, byte) in bytes.iter().enumerate() {
        if !byte.is_ascii_digit() {
            return i;
        }
    }
    bytes.len()
}

/// The digits in front, and what stands behind them.
fn split_digits(bytes: &[u8]) -> (&[u8], &[u8])
    ensures digits { result.0.now ≡ front is_ascii_digit bytes.now }
    ensures rest { result.1.now ≡ behind is_ascii_digit bytes.now }
    ensures all { IsTrue (list_all is_ascii_digit result.0.now) }
{
    let count = digit_count(bytes);
    bytes.split_at(count)
}

/// How many blanks stand in front.
fn blank_count(bytes: &[u8]) -> usize
    ensures { result ≡ prefix_len is_blank bytes.now }
{
    for (i, byte) in bytes.iter().enumerate() {
        if *byte != b' ' {
            return i;
        }
    }
    bytes.len()
}

/// What stands behind the blanks in front.
fn without_blanks(bytes: &[u8]) -> &[u8]
    ensures { result.now ≡ behind is_blank bytes.now }
{
    let count = blank_count(bytes);
    let (_, rest) = bytes.split_at(count);
    rest
}

/// Whether there is one digit or more, and so many at most.
fn is_count(most: usize, digits: &[u8]) -> bool
    ensures { result ≡ is_count_of most digits.now }
{
    !digits.is_empty() && digits.len() <= most
}

/// The number that a digit writes.
fn digit_of(byte: u8) -> u8
    requires { IsTrue (is_ascii_digit byte) }
    ensures value { result ≡ digit_value byte }
    ensures small { result < 10 }
{
    byte - b'0'
}

/// The number that the digits write.
fn number_of(digits: &[u8]) -> u64
    requires digits { IsTrue (list_all is_ascii_digit digits.now) }
    requires few { length digits.now ≤ 16 }
    ensures value { result ≡ digits_value 10 digits.now }
    ensures below { result < 10 ^ length digits.now }
{
    let mut number: u64 = 0;
    for digit in digits {
        number = number * 10 + u64::from(digit_of(*digit));
    }
    number
}

/// Whether the byte is a delimiter, and no blank.
fn is_mark(byte: u8) -> bool
    ensures { result ≡ is_mark_of byte }
{
    matches!(byte, b'.' | b':' | b'-' | b',')
}

/// What stands behind a field and its delimiter; `None` where only blanks are left.
fn next_field(bytes: &[u8]) -> Option<&[u8]>
    ensures { option_map (λ rest. rest.now) result ≡ next_field_of bytes.now }
{
    let rest = without_blanks(bytes);
    match rest {
        [] => None,
        [byte, more @ ..] => {
            if is_mark(*byte) {
                Some(without_blanks(more))
            } else {
                Some(rest)
            }
        }
    }
}

/// The partition that is named in front, and the fields behind it.
fn parts_of(bytes: &[u8]) -> (Option<u32>, &[u8])
    ensures partition { result.0 ≡ (parts_of_bytes bytes.now).partition }
    ensures fields { result.1.now ≡ (parts_of_bytes bytes.now).fields }
{
    let (digits, rest) = split_digits(bytes);
    match without_blanks(rest) {
        [b'/', fields @ ..] if is_count(4, digits) => {
            (Some(number_of(digits) as u32), without_blanks(fields))
        }
        _ => (None, bytes),
    }
}

impl Values {
    ghost use Rattle.sk_clock.specs.Values.{KeepsValues};

    /// One more value.
    fn push(&mut self, value: u64)
        ensures { (values : List ℕ) → KeepsValues values self.old → KeepsValues (values ++ value ∷ []) self.new }
    {
        if self.first.is_full() {
            self.more = true;
        } else {
            self.first.push(value);
        }
    }
}

/// The values of the fields; `None` exactly where the text is none of fields.
fn values_of(bytes: &[u8]) -> Option<Values>
    ensures { MatchOption result (values_of_bytes bytes.now ≡ None) (λ values. IsSomeAnd (values_of_bytes bytes.now) (λ all. KeepsValues all values)) }
{
    let mut values = Values {
        first: ArrayVec::new(),
        more: false,
    };
    let mut rest = bytes;
    loop {
        let (digits, behind) = split_digits(rest);
        if !is_count(16, digits) {
            return None;
        }
        values.push(number_of(digits));
        match next_field(behind) {
            None => return Some(values),
            Some(more) => rest = more,
        }
    }
}

/// What a clock string says; `None` exactly where the text is none.
pub fn read(text: &str) -> Option<Reading>
    ensures { MatchOption result (reading_of text.now ≡ None) (λ reading. IsSomeAnd (reading_of text.now) (λ all. KeepsReading all reading)) }
{
    let (partition, fields) = parts_of(without_blanks(text.as_bytes()));
    match values_of(fields) {
        None => None,
        Some(values) => Some(Reading { partition, values }),
    }
}
