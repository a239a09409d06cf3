//! Numbers of so many digits, and the marks before them.

ghost use Rattle.std.specs.Prelude.{◌≡◌, ◌<◌, ◌≤◌, ◌^◌, length, IfSome, IfNone, Some, None};
ghost use Rattle.sk_leap.specs.Reading.{number_of as number_of_digits, number_at as number_in_front, behind as behind_mark, marked_number as number_behind};

/// The number that the digits write; `None` where one of them is no digit.
pub fn number_of(digits: &[u8]) -> Option<u64>
    requires { length digits.now ≤ 12 }
    ensures value { result ≡ number_of_digits digits.now }
    ensures small { IfSome result (λ number. number < 10 ^ length digits.now) }
{
    let mut number: u64 = 0;
    for byte in digits {
        if !byte.is_ascii_digit() {
            return None;
        }
        number = number * 10 + u64::from(*byte - b'0');
    }
    Some(number)
}

/// The number that so many digits in front write, and what stands behind them.
pub fn number_at(bytes: &[u8], width: usize) -> Option<(u32, &[u8])>
    requires { width ≤ 4 }
    ensures none { IfNone result (number_in_front width bytes.now ≡ None) }
    ensures some { IfSome result (λ front. number_in_front width bytes.now ≡ Some (front.0, front.1.now)) }
    ensures small { IfSome result (λ front. front.0 < 10 ^ width) }
{
    if bytes.len() < width {
        return None;
    }
    let (digits, rest) = bytes.split_at(width);
    match number_of(digits) {
        None => None,
        Some(number) => Some((number as u32, rest)),
    }
}

/// What stands behind the mark, where it stands in front.
pub fn behind(bytes: &[u8], mark: u8) -> Option<&[u8]>
    ensures none { IfNone result (behind_mark mark bytes.now ≡ None) }
    ensures some { IfSome result (λ rest. behind_mark mark bytes.now ≡ Some rest.now) }
{
    match bytes {
        [] => None,
        [first, rest @ ..] => { if *first == mark { Some(rest) } else { None } }
    }
}

/// The number that so many digits behind a mark write, and what stands behind them.
pub fn marked_number(bytes: &[u8], mark: u8, width: usize) -> Option<(u32, &[u8])>
    requires { width ≤ 4 }
    ensures none { IfNone result (number_behind mark width bytes.now ≡ None) }
    ensures some { IfSome result (λ front. number_behind mark width bytes.now ≡ Some (front.0, front.1.now)) }
    ensures small { IfSome result (λ front. front.0 < 10 ^ width) }
{
    match behind(bytes, mark) {
        None => None,
        Some(rest) => number_at(rest, width),
    }
}
