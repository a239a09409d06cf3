//! The names of months.

ghost use Rattle.std.specs.Prelude.{◌≡◌, ◌≢◌, ◌-◌, ◌≤◌, ℕ, MatchOption, IfSome, IfNone, Some, None, slice_get};
ghost use Rattle.std.specs.Str.{str_to_ascii_lowercase};
ghost use Rattle.sk_leap.specs.Kernel.{month_names};
ghost use Rattle.sk_calendar.specs.Reading.{month_of as month_of_name, month_at as month_in_front, marked_month as month_behind};

use crate::numbers::behind;

/// The months by their English names.
const MONTHS: [[u8; 3]; 12] = [
    *b"jan", *b"feb", *b"mar", *b"apr", *b"may", *b"jun", *b"jul", *b"aug", *b"sep", *b"oct",
    *b"nov", *b"dec",
];

/// The place of the month that has this name in any case.
fn month_place(name: &[u8]) -> Option<u32>
    ensures { MatchOption result ((place : ℕ) → slice_get month_names place ≢ Some (str_to_ascii_lowercase name.now)) (λ place. (place ≤ 11) × (slice_get month_names place ≡ Some (str_to_ascii_lowercase name.now))) }
{
    for (place, month) in MONTHS.iter().enumerate() {
        if month.as_slice().eq_ignore_ascii_case(name) {
            return Some(place as u32);
        }
    }
    None
}

/// The month of a name in any case, from 1.
fn month_of(name: &[u8]) -> Option<u32>
    ensures value { result ≡ month_of_name name.now }
    ensures small { IfSome result (λ month. month ≤ 12) }
{
    match month_place(name) {
        None => None,
        Some(place) => Some(place + 1),
    }
}

/// The month whose name is the three bytes in front, and what follows them.
pub fn month_at(bytes: &[u8]) -> Option<(u32, &[u8])>
    ensures none { IfNone result (month_in_front bytes.now ≡ None) }
    ensures some { IfSome result (λ front. month_in_front bytes.now ≡ Some (front.0, front.1.now)) }
    ensures small { IfSome result (λ front. front.0 ≤ 12) }
{
    if bytes.len() < 3 {
        return None;
    }
    let (name, rest) = bytes.split_at(3);
    match month_of(name) {
        None => None,
        Some(month) => Some((month, rest)),
    }
}

/// The month whose name is the three bytes behind a mark, and what follows them.
pub fn marked_month(bytes: &[u8], mark: u8) -> Option<(u32, &[u8])>
    ensures none { IfNone result (month_behind mark bytes.now ≡ None) }
    ensures some { IfSome result (λ front. month_behind mark bytes.now ≡ Some (front.0, front.1.now)) }
    ensures small { IfSome result (λ front. front.0 ≤ 12) }
{
    match behind(bytes, mark) {
        None => None,
        Some(rest) => month_at(rest),
    }
}
