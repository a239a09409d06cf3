//! The pairs of a leap second kernel: a number and a date each.

ghost use Rattle.std.specs.Prelude.{◌≡◌, ◌^◌, ◌<◌, ◌≤◌, ◌&&◌, true, nat_lt, IfSome, IfNone, Some, None, length};
ghost use Rattle.std.specs.Option.{ForSome};
ghost use Rattle.sk_checks.specs.Checks.{Judges, JudgesUnless, each_after};
ghost use Rattle.sk_leap.specs.Kernel.{IsLeapDate, entries_of, entry_checks};
ghost use Rattle.sk_leap.specs.Entries.{small_whole as small_whole_of, entry_at as entry_in_front, pair_checks, in_turn, IsReadFrom};

use crate::kernel_date::leap_date;
use crate::pair::LeapPair;
use crate::table::LeapFault;
use sk_decimal::Decimal;
use sk_grammar::Value;
use std::alloc::Global;

/// The number, where it is a whole one from 0 to 1000.
fn small_whole(number: &Decimal) -> Option<u32>
    ensures value { result ≡ small_whole_of number.now }
    ensures small { IfSome result (λ number. number ≤ 1000) }
{
    let Some(whole) = number.to_fixed::<0>() else {
        return None;
    };
    if whole.units < 0 || whole.units > 1000 {
        return None;
    }
    Some(whole.units as u32)
}

/// The number and the date in front, and the values behind them.
fn entry_at(values: &[Value]) -> Option<(u32, &[u8], &[Value])>
    ensures none { IfNone result (entry_in_front values.now ≡ None) }
    ensures some { IfSome result (λ entry. entry_in_front values.now ≡ Some (entry.0, entry.1.now, entry.2.now)) }
    ensures small { IfSome result (λ entry. entry.0 ≤ 1000) }
{
    match values {
        [Value::Number(number), Value::Date(date), rest @ ..] => match small_whole(number) {
            None => None,
            Some(number) => Some((number, date.as_slice(), rest)),
        },
        _ => None,
    }
}

/// Whether the values are one or more pairs of a number and a date.
pub fn are_entries(values: &[Value]) -> bool
    ensures { result ≡ (nat_lt 0 (length values.now) && in_turn values.now) }
{
    let mut rest = values;
    while let Some((_, _, behind)) = entry_at(rest) {
        rest = behind;
    }
    !values.is_empty() && rest.is_empty()
}

/// The pair of a number and a date behind another pair; pairs are numbered from 1.
fn next_pair(
    before: Option<LeapPair>,
    place: u32,
    value: u32,
    date: &[u8],
) -> Result<LeapPair, LeapFault>
    requires { ForSome before (λ last. last.value ≤ 1000) }
    ensures { Judges (pair_checks before place value date.now) (λ pair. (pair.value ≡ value) × IsLeapDate date.now pair.day) result }
{
    let Some(day) = leap_date(date) else {
        return Err(LeapFault::DateForm(place));
    };
    if let Some(last) = before {
        if day <= last.day {
            return Err(LeapFault::DateOrder(place));
        }
        if value != last.value + 1 {
            return Err(LeapFault::LeapStep(place));
        }
    }
    Ok(LeapPair { value, day })
}

/// The pairs of the values, of which each date is after the one before it and each number one more.
pub fn read_pairs(alloc: Global, values: &[Value]) -> Result<Vec<LeapPair>, LeapFault>
    requires short { length values.now < 2 ^ 32 }
    requires turn { in_turn values.now ≡ true }
    ensures { JudgesUnless LeapFault.NoMemory (each_after None 1 entry_checks (entries_of values.now)) (λ pairs. IsReadFrom (entries_of values.now) pairs.items) result }
{
    let mut pairs: Vec<LeapPair> = Vec::new(alloc);
    let mut rest = values;
    while let Some((value, date, behind)) = entry_at(rest) {
        let place = pairs.len() as u32 + 1;
        let pair = match next_pair(pairs.last().copied(), place, value, date) {
            Ok(pair) => pair,
            Err(fault) => return Err(fault),
        };
        let Ok(()) = pairs.push(pair) else {
            return Err(LeapFault::NoMemory);
        };
        rest = behind;
    }
    Ok(pairs)
}
