//! Numbers by their digits, and the marks before them.

ghost use Rattle.std.specs.Prelude.{◌≡◌, ◌+◌, ◌<◌, ◌≤◌, ◌^◌, length, IfSome, IfNone, Some, None};
ghost use Rattle.std.specs.Char.{is_ascii_digit};
ghost use Rattle.std.specs.List.{prefix_len};
ghost use Rattle.sk_leap.specs.Reading.{number_of as number_of_digits, behind as behind_mark};
ghost use Rattle.sk_calendar.specs.Reading.{run_at as run_in_front, number_at as number_in_front, marked_number as number_behind, short_at as short_in_front, marked_short as short_behind};

/// The number that the digits write; `None` where one of them is no digit.
fn number_of(digits: &[u8]) -> Option<u64>
    requires { length digits.now ≤ 18 }
    ensures value { result ≡ number_of_digits digits.now }
    ensures small { IfSome result (λ number. number < 10 ^ length digits.now) }
{
    let mut number: u64 = 0;
    for byte in digits {
        if !byte.is_ascii_digit() {
            return None;
        }
        number = number * 10 + u64::from(*byte - b'0');
    }
    Some(number)
}

/// How many digits stand in front.
fn digit_count(bytes: &[u8]) -> usize
    ensures { result ≡ prefix_len is_ascii_digit bytes.now }
{
    for (i, byte) in bytes.iter().enumerate() {
        if !byte.is_ascii_digit() {
            return i;
        }
    }
    bytes.len()
}

/// How many digits stand in front, 1 to 18, the number that they write, and what follows them.
pub fn run_at(bytes: &[u8]) -> Option<(usize, u64, &[u8])>
    ensures none { IfNone result (run_in_front bytes.now ≡ None) }
    ensures some { IfSome result (λ run. run_in_front bytes.now ≡ Some (run.0, run.1, run.2.now)) }
    ensures width { IfSome result (λ run. run.0 ≤ 18) }
    ensures small { IfSome result (λ run. run.1 < 10 ^ run.0) }
{
    let count = digit_count(bytes);
    if count == 0 || count > 18 {
        return None;
    }
    let (digits, rest) = bytes.split_at(count);
    match number_of(digits) {
        None => None,
        Some(number) => Some((count, number, rest)),
    }
}

/// What stands behind the mark, where it stands in front.
pub fn behind(bytes: &[u8], mark: u8) -> Option<&[u8]>
    ensures none { IfNone result (behind_mark mark bytes.now ≡ None) }
    ensures some { IfSome result (λ rest. behind_mark mark bytes.now ≡ Some rest.now) }
{
    match bytes {
        [] => None,
        [first, rest @ ..] => { if *first == mark { Some(rest) } else { None } }
    }
}

/// The number in front, where it has so many digits, and what follows it.
pub fn number_at(bytes: &[u8], width: usize) -> Option<(u32, &[u8])>
    requires { width ≤ 4 }
    ensures none { IfNone result (number_in_front width bytes.now ≡ None) }
    ensures some { IfSome result (λ front. number_in_front width bytes.now ≡ Some (front.0, front.1.now)) }
    ensures small { IfSome result (λ front. front.0 < 10 ^ width) }
{
    let Some((count, number, rest)) = run_at(bytes) else {
        return None;
    };
    if count == width {
        Some((number as u32, rest))
    } else {
        None
    }
}

/// The number of so many digits behind a mark, and what follows it.
pub fn marked_number(bytes: &[u8], mark: u8, width: usize) -> Option<(u32, &[u8])>
    requires { width ≤ 4 }
    ensures none { IfNone result (number_behind mark width bytes.now ≡ None) }
    ensures some { IfSome result (λ front. number_behind mark width bytes.now ≡ Some (front.0, front.1.now)) }
    ensures small { IfSome result (λ front. front.0 < 10 ^ width) }
{
    match behind(bytes, mark) {
        None => None,
        Some(rest) => number_at(rest, width),
    }
}

/// The number in front, where it has one or two digits, and what follows it.
fn short_at(bytes: &[u8]) -> Option<(u32, &[u8])>
    ensures none { IfNone result (short_in_front bytes.now ≡ None) }
    ensures some { IfSome result (λ front. short_in_front bytes.now ≡ Some (front.0, front.1.now)) }
    ensures small { IfSome result (λ front. front.0 ≤ 99) }
{
    let Some((count, number, rest)) = run_at(bytes) else {
        return None;
    };
    if count <= 2 {
        Some((number as u32, rest))
    } else {
        None
    }
}

/// The number of one or two digits behind a mark, and what follows it.
pub fn marked_short(bytes: &[u8], mark: u8) -> Option<(u32, &[u8])>
    ensures none { IfNone result (short_behind mark bytes.now ≡ None) }
    ensures some { IfSome result (λ front. short_behind mark bytes.now ≡ Some (front.0, front.1.now)) }
    ensures small { IfSome result (λ front. front.0 ≤ 99) }
{
    match behind(bytes, mark) {
        None => None,
        Some(rest) => short_at(rest),
    }
}
