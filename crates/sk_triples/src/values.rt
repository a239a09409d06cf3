//! Values as rows of a number, a time and a number.

ghost use Rattle.std.specs.Prelude.{◌≡◌, ◌≤◌, drop, ◌∷◌, [], List, length, MatchOption, true};
ghost use Rattle.sk_triples.specs.Coefficients.{rows_of};
ghost use Rattle.sk_triples.specs.Values.{first_number as first_number_of, is_time as is_time_of, NoTimeBegins, in_rows, row_of};

use sk_decimal::Decimal;
use sk_grammar::Value;

// The number that is the first value.
fn first_number(values: &[Value]) -> Option<Decimal>
    ensures { result ≡ first_number_of values.now }
{
    match values {
        [Value::Number(number), ..] => Some(*number),
        _ => None,
    }
}

/// The value is no text.
fn is_time(value: &Value) -> bool
    ensures { result ≡ is_time_of value.now }
{
    !matches!(value, Value::Text(_))
}

// The time that is the first value.
fn first_time(values: &[Value]) -> Option<&Value>
    ensures { MatchOption result (NoTimeBegins values.now) (λ time. (1 ≤ length values.now) × (is_time_of time.now ≡ true) × (values.now ≡ time.now ∷ drop 1 values.now)) }
{
    let value = values.first()?;
    if is_time(value) { Some(value) } else { None }
}

/// The row that is the first three values: ticks, time and rate.
pub fn first_row(values: &[Value]) -> Option<(Decimal, &Value, Decimal)>
    ensures { MatchOption result (rows_of values.now ≡ []) (λ row. (3 ≤ length values.now) × (is_time_of row.1.now ≡ true) × (rows_of values.now ≡ row_of row ∷ rows_of (drop 3 values.now))) }
{
    let ticks = first_number(values)?;
    let (_, rest) = values.split_at(1);
    let time = first_time(rest)?;
    let (_, rest) = rest.split_at(1);
    let rate = first_number(rest)?;
    Some((ticks, time, rate))
}

/// The values are rows and nothing else.
pub fn are_rows(values: &[Value]) -> bool
    ensures { result ≡ in_rows values.now }
{
    let mut rest = values;
    'rows: while let Some(_) = first_row(rest) {
        let (_, later) = rest.split_at(3);
        rest = later;
    }
    rest.is_empty()
}
