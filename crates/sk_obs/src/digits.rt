//! Numbers of few digits.

ghost use Rattle.std.specs.Prelude.{◌≡◌, ◌≤◌, ◌<◌, ◌^◌, ℕ, length, IsTrue, IfSome, MatchOption};
ghost use Rattle.std.specs.Char.{is_ascii_digit, digit_value};
ghost use Rattle.std.specs.List.{list_all};
ghost use Rattle.std.specs.Str.Parse.{digits_value};
ghost use Rattle.sk_clock.specs.ClockText.{SpellsDigits};

/// The number that a digit writes.
fn digit_of(byte: u8) -> u64
    requires { IsTrue (is_ascii_digit byte) }
    ensures value { result ≡ digit_value byte }
    ensures small { result < 10 }
{
    u64::from(byte - b'0')
}

/// The number that at most 16 digits write.
fn value_of(digits: &[u8]) -> u64
    requires few { length digits.now ≤ 16 }
    requires digits { IsTrue (list_all is_ascii_digit digits.now) }
    ensures value { result ≡ digits_value 10 digits.now }
    ensures small { result < 10 ^ length digits.now }
{
    let mut value = 0;
    for byte in digits {
        value = value * 10 + digit_of(*byte);
    }
    value
}

/// Whether all of these are digits.
fn are_digits(bytes: &[u8]) -> bool
    ensures { result ≡ list_all is_ascii_digit bytes.now }
{
    bytes.iter().all(|byte| byte.is_ascii_digit())
}

/// The number that 1 to `most` digits write; `None` exactly where the bytes are something else.
pub fn read_digits(bytes: &[u8], most: usize) -> Option<u64>
    requires { most ≤ 16 }
    ensures small { IfSome result (λ n. n < 10 ^ most) }
    ensures number { MatchOption result ((n : ℕ) → ¬ SpellsDigits most bytes.now n) (SpellsDigits most bytes.now) }
{
    if bytes.is_empty() {
        return None;
    }
    if bytes.len() > most {
        return None;
    }
    if !are_digits(bytes) {
        return None;
    }
    Some(value_of(bytes))
}
