//! Canonical clock text.

ghost use Rattle.std.specs.Prelude.{◌≡◌, ◌+◌, ◌-◌, ◌^◌, ◌<◌, ◌≤◌, ◌∷◌, ◌++◌, [], length, codes, decimal, slice_index, OnOk, IfOk};
ghost use Rattle.std.specs.Int.{IsInRange};
ghost use Rattle.std.specs.String.{string_bytes};
ghost use Rattle.sk_checks.specs.Checks.{JudgesUnless, NoneRefuses};
ghost use Rattle.sk_decimal.specs.Number.{padded_decimal};
ghost use Rattle.sk_clock.specs.Clock.{clock_text, count_in as count_in_of, partition_at as partition_at_of, text_in as text_in_of, tick_checks, total as total_of, IsClock};
ghost use Rattle.sk_clock.specs.ClockText.{StandsFor, text_checks};
ghost use Rattle.sk_clock.specs.Kept.{all_text, field_text, later_text};

use crate::clock::Clock;
use crate::fault::TextFault;
use crate::field::Field;
use itoa::Buffer;
use sk_checks::NoMemory;
use std::alloc::Global;

/// Appends a number, with zeros in front of it up to so many digits.
fn push_padded(text: &mut String, width: usize, number: u64) -> Result<(), NoMemory>
    ensures { OnOk result (string_bytes text.new ≡ string_bytes text.old ++ padded_decimal width number) }
{
    let mut buffer = Buffer::new();
    let digits = buffer.format(number);
    for _ in digits.len()..width {
        text.push('0')?;
    }
    text.push_str(digits)?;
    Ok(())
}

/// Appends what the field shows of a count.
fn push_field(text: &mut String, field: &Field, count: u64) -> Result<(), NoMemory>
    requires { count < 2 ^ 60 }
    ensures { OnOk result (string_bytes text.new ≡ string_bytes text.old ++ field_text field.now count) }
{
    push_padded(text, field.width, field.offset + count / field.unit)?;
    Ok(())
}

/// Appends what the fields behind the first show of a count.
fn push_later(
    text: &mut String,
    fields: &[Field],
    delimiter: char,
    count: u64,
) -> Result<(), NoMemory>
    requires count { count < 2 ^ 60 }
    requires ascii { delimiter < 128 }
    ensures { OnOk result (string_bytes text.new ≡ string_bytes text.old ++ later_text delimiter fields.now count) }
{
    let mut rest = count;
    for field in fields {
        text.push(delimiter)?;
        push_field(text, field, rest)?;
        rest %= field.unit;
    }
    Ok(())
}

/// The character between two fields.
fn delimiter_of(code: u8) -> char
    requires { IsInRange 1 5 code }
    ensures value { result ≡ slice_index (codes ".:-, ") (code - 1) }
    ensures ascii { result < 128 }
{
    match code {
        1 => '.',
        2 => ':',
        3 => '-',
        4 => ',',
        _ => ' ',
    }
}

/// Appends all fields of a count.
fn push_fields(
    text: &mut String,
    fields: &[Field],
    delimiter: u8,
    count: u64,
) -> Result<(), NoMemory>
    requires count { count < 2 ^ 60 }
    requires delimiter { IsInRange 1 5 delimiter }
    ensures { OnOk result (string_bytes text.new ≡ string_bytes text.old ++ all_text (slice_index (codes ".:-, ") (delimiter - 1)) fields.now count) }
{
    if let Some((first, later)) = fields.split_first() {
        push_field(text, first, count)?;
        push_later(text, later, delimiter_of(delimiter), count % first.unit)?;
    }
    Ok(())
}

impl Clock {
    /// The count of a tick in its partition.
    fn count_in(&self, partition: u32, tick: u64) -> u64
        requires up_to_total { tick ≤ total_of self.now }
        requires partition_at { partition ≡ partition_at_of self.now tick }
        ensures value { result ≡ count_in_of self.now partition tick }
        ensures small { result < 2 ^ 54 }
        ensures clock { IsClock self.now }
    {
        let earlier = self.earlier.as_slice();
        let partitions = self.partitions.as_slice();
        let place = partition as usize - 1;
        tick - earlier[place] + partitions[place].start
    }

    /// Appends the partition's number, `/`, and the fields of the count.
    fn push_parts(&self, text: &mut String, partition: u32, count: u64) -> Result<(), NoMemory>
        requires { count < 2 ^ 54 }
        ensures { OnOk result (string_bytes text.new ≡ string_bytes text.old ++ text_in_of self.now partition count) }
    {
        text.push_str(Buffer::new().format(partition))?;
        text.push('/')?;
        push_fields(text, self.fields.as_slice(), self.delimiter, count)?;
        Ok(())
    }

    /// Appends the canonical text of a tick.
    pub fn push_text(&self, text: &mut String, tick: u64) -> Result<(), TextFault>
        ensures answer { JudgesUnless TextFault.NoMemory (tick_checks self.now tick) (λ _. string_bytes text.new ≡ string_bytes text.old ++ clock_text self.now tick) result }
        ensures clock { OnOk result (IsClock self.now) }
    {
        let Some(partition) = self.partition_at(tick) else {
            return Err(TextFault::PastPartitions);
        };
        let count = self.count_in(partition, tick);
        let Ok(()) = self.push_parts(text, partition, count) else {
            return Err(TextFault::NoMemory);
        };
        Ok(())
    }

    /// The canonical text of a tick.
    pub fn text_of(&self, alloc: Global, tick: u64) -> Result<String, TextFault>
        ensures answer { JudgesUnless TextFault.NoMemory (tick_checks self.now tick) (λ text. string_bytes text ≡ clock_text self.now tick) result }
        ensures read { IfOk result (λ text. NoneRefuses (text_checks self.now (string_bytes text)) × StandsFor self.now (string_bytes text) tick) }
    {
        let Ok(mut text) = String::with_capacity(alloc, 32) else {
            return Err(TextFault::NoMemory);
        };
        match self.push_text(&mut text, tick) {
            Ok(()) => Ok(text),
            Err(fault) => Err(fault),
        }
    }
}
