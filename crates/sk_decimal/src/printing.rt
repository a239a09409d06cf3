//! Plain spellings as text.

ghost use Rattle.std.specs.Prelude.{◌≡◌, ◌≤◌, ◌<◌, ◌+◌, ◌/◌, ◌%◌, ◌^◌, ◌==◌, ◌++◌, [], length, OnOk, OnErr, codes, decimal, cond};
ghost use Rattle.sk_decimal.specs.Number.{fraction_digits, padded_decimal, plain_spelling};

use crate::ending::Ending;
use crate::line::Line;
use sk_checks::NoMemory;

// The power of ten, by 64 bits where it fits: wide products cost more.
fn power_of_ten(places: u32) -> u128
    requires { places ≤ 38 }
    ensures { result ≡ 10 ^ places }
{
    if places < 20 {
        u128::from(10u64.pow(places))
    } else {
        10u128.pow(places)
    }
}

// Appends a size, with its decimals.
fn push_size(line: &mut Line, places: u32, size: u128)
    requires places { places ≤ 38 }
    requires room { length line.old + 88 ≤ 128 }
    ensures { line.new ≡ line.old ++ decimal (size / 10 ^ places) ++ fraction_digits places size }
{
    let scale = power_of_ten(places);
    line.push_number(size / scale);
    if places > 0 {
        line.push(b".");
        line.push_padded(places as usize, size % scale);
    }
}

// The plain spelling of units / 10 ^ places.
fn plain_text(units: i128, places: u32) -> Line
    requires { places ≤ 38 }
    ensures { result ≡ plain_spelling (record { coefficient = units; scale = places }) }
{
    let mut line = Line::new();
    if units < 0 {
        line.push(b"-");
    }
    push_size(&mut line, places, units.unsigned_abs());
    line
}

// The whole part and the rest; by 64 bits where the size has no more: wide quotients cost more.
fn divided(size: u128, scale: u64) -> (u128, u64)
    requires { 0 < scale }
    ensures whole { result.0 ≡ size / scale }
    ensures rest { result.1 ≡ size % scale }
{
    if size <= u128::from(u64::MAX) {
        let size = size as u64;
        return (u128::from(size / scale), size % scale);
    }
    let whole = size / u128::from(scale);
    (whole, (size - whole * u128::from(scale)) as u64)
}

// Puts the text of a number of these parts in front.
fn push_parts(text: &mut Ending, negative: bool, places: u32, whole: u64, rest: u64)
    requires places { places < 20 }
    requires empty { text.old ≡ [] }
    ensures { text.new ≡ cond negative (codes "-") [] ++ decimal whole ++ cond (places == 0) [] (codes "." ++ padded_decimal places rest) }
{
    if places > 0 {
        text.push_padded(places as usize, rest);
        text.push(b'.');
    }
    text.push_number(whole);
    if negative {
        text.push(b'-');
    }
}

/// Appends the plain spelling of units / 10 ^ places.
pub fn print(out: &mut Vec<u8>, units: i128, places: u32) -> Result<(), NoMemory>
    requires { places ≤ 38 }
    ensures ok { OnOk result (out.new.items ≡ out.old.items ++ plain_spelling (record { coefficient = units; scale = places })) }
    ensures err { OnErr result (out.new.items ≡ out.old.items) }
{
    if places < 20 {
        let (whole, rest) = divided(units.unsigned_abs(), 10u64.pow(places));
        if whole <= u128::from(u64::MAX) {
            let mut text = Ending::new();
            push_parts(&mut text, units < 0, places, whole as u64, rest);
            return append(out, text.as_slice());
        }
    }
    append(out, plain_text(units, places).as_slice())
}

// Appends the text.
fn append(out: &mut Vec<u8>, text: &[u8]) -> Result<(), NoMemory>
    ensures ok { OnOk result (out.new.items ≡ out.old.items ++ text.now) }
    ensures err { OnErr result (out.new.items ≡ out.old.items) }
{
    let Ok(()) = out.extend_from_slice(text) else {
        return Err(NoMemory);
    };
    Ok(())
}
