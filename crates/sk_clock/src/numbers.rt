//! Whole numbers of a kernel's variables.

ghost use Rattle.std.specs.Prelude.{◌≡◌, ◌<◌, ◌≤◌, ◌↔◌, ℕ, List, length, map, All, IsTrue, IfOk, MatchOption, None};
ghost use Rattle.std.specs.Int.{IsInRange};
ghost use Rattle.sk_grammar.specs.Variables.{values_at, whole};
ghost use Rattle.sk_clock.specs.Kernel.{IsOneFrom, IsWhole};
ghost use Rattle.sk_clock.specs.Numbers.{AreNumbers, IsWholeNumber};

use sk_checks::NoMemory;
use sk_decimal::{Decimal, Line};
use sk_grammar::Value;
use sk_pool::Pool;
use std::alloc::Global;

/// The decimal as a whole number from `low` to `high`; `None` exactly where it is none.
fn whole_of(number: Decimal, low: u64, high: u64) -> Option<u64>
    ensures { MatchOption result ((n : ℕ) → IsWholeNumber number n → ¬ IsInRange low high n) (λ n. IsWholeNumber number n × IsInRange low high n) }
{
    let Some(fixed) = number.to_fixed::<0>() else {
        return None;
    };
    if fixed.units < i128::from(low) || fixed.units > i128::from(high) {
        return None;
    }
    Some(fixed.units as u64)
}

/// Whether the pool has no such variable.
pub fn lacks(pool: &Pool, name: &Line) -> bool
    ensures { IsTrue result ↔ (values_at name.now pool.now ≡ None) }
{
    pool.values(name.as_slice()).is_none()
}

/// The variable's one whole number from `low` to `high`; `None` exactly where it is none.
pub fn one_whole(pool: &Pool, name: &Line, low: u64, high: u64) -> Option<u64>
    ensures { MatchOption result (¬ IsOneFrom pool.now name.now low high) (λ n. IsWhole pool.now name.now n × IsInRange low high n) }
{
    let Some(number) = pool.one_number(name.as_slice()) else {
        return None;
    };
    whole_of(number, low, high)
}

/// Whether the variable is this one whole number.
pub fn is_whole(pool: &Pool, name: &Line, number: u64) -> bool
    ensures { IsTrue result ↔ IsWhole pool.now name.now number }
{
    one_whole(pool, name, number, number).is_some()
}

/// The value as a whole number from `low` to `high`; `None` exactly where it is none.
fn whole_value(value: &Value, low: u64, high: u64) -> Option<u64>
    ensures { MatchOption result ((n : ℕ) → value.now ≡ whole n → ¬ IsInRange low high n) (λ n. (value.now ≡ whole n) × IsInRange low high n) }
{
    match value {
        Value::Number(number) => whole_of(*number, low, high),
        _ => None,
    }
}

/// The values as whole numbers from `low` to `high`; `None` exactly where they are none.
fn whole_values(
    alloc: Global,
    values: &[Value],
    low: u64,
    high: u64,
) -> Result<Option<Vec<u64>>, NoMemory>
    ensures { IfOk result (λ found. MatchOption found ((ns : List ℕ) → values.now ≡ map whole ns → ¬ All (IsInRange low high) ns) (λ v. (values.now ≡ map whole v.items) × All (IsInRange low high) v.items)) }
{
    let mut numbers = Vec::with_capacity(alloc, values.len())?;
    for value in values {
        let Some(number) = whole_value(value, low, high) else {
            return Ok(None);
        };
        numbers.push(number)?;
    }
    Ok(Some(numbers))
}

/// The variable's whole numbers from `low` to `high`, at most `most` of them; `None` exactly where it has none such.
pub fn whole_numbers(
    alloc: Global,
    pool: &Pool,
    name: &Line,
    most: usize,
    low: u64,
    high: u64,
) -> Result<Option<Vec<u64>>, NoMemory>
    ensures { IfOk result (λ found. MatchOption found ((ns : List ℕ) → ¬ AreNumbers pool.now name.now most low high ns) (λ v. AreNumbers pool.now name.now most low high v.items)) }
{
    let Some(values) = pool.values(name.as_slice()) else {
        return Ok(None);
    };
    if values.len() > most {
        return Ok(None);
    }
    let Some(numbers) = whole_values(alloc, values, low, high)? else {
        return Ok(None);
    };
    Ok(Some(numbers))
}
