//! What a table says of a day.

ghost use Rattle.std.specs.Prelude.{◌≡◌};
ghost use Rattle.std.specs.List.{list_any};
ghost use Rattle.std.specs.Ordering.{int_eq};
ghost use Rattle.sk_leap.specs.Leap.{leap_value as value_of_day, day_seconds as seconds_of_day};

use crate::pair::LeapPair;

/// The leap value of a day: that of the last pair whose date is not after it, or 0.
pub fn leap_value(pairs: &[LeapPair], day: i32) -> u32
    ensures { result ≡ value_of_day pairs.now day }
{
    let mut value = 0;
    for pair in pairs {
        if pair.day <= day {
            value = pair.value;
        }
    }
    value
}

/// Whether a pair begins on the day.
fn begins_on(pairs: &[LeapPair], day: i64) -> bool
    ensures { result ≡ list_any (λ pair. int_eq pair.day day) pairs.now }
{
    pairs.iter().any(|pair| i64::from(pair.day) == day)
}

/// How many seconds a day has.
pub fn day_seconds(pairs: &[LeapPair], day: i32) -> u32
    ensures { result ≡ seconds_of_day pairs.now day }
{
    match pairs {
        [_, later @ ..] => {
            if begins_on(later, i64::from(day) + 1) {
                86401
            } else {
                86400
            }
        }
        [] => 86400,
    }
}
