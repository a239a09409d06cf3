//! Whether numbers claim the triples of a publication.

ghost use Rattle.std.specs.Prelude.{◌≡◌, ◌↔◌, ◌≤◌, ◌<◌, ◌^◌, IfOk, IsTrue, All, flat_map, map, length, nat_abs, pos, ℕ, ℤ, Some, IfSome, IfNone};
ghost use Rattle.sk_grammar.specs.Document.{IsValue};
ghost use Rattle.sk_grammar.specs.declared.value.Value.TheVariants.{Number};
ghost use Rattle.sk_publication.specs.Publication.{HasNumbers};
ghost use Rattle.sk_publishing.specs.Published.{reduced, triple_values};
ghost use Rattle.sk_audit.specs.Claims.{triple_of};
ghost use Rattle.sk_audit.specs.Read.{AreOfNone, AreReadAs};
ghost use Rattle.sk_line.specs.Triple.{TripleView};

use crate::told::Told;
use sk_checks::NoMemory;
use sk_decimal::Fixed;
use sk_grammar::Value;
use sk_triples::Triple;
use std::alloc::Global;

impl Told {
    /// The triple that begins with the segment.
    fn triple(&self) -> Triple
        ensures { result ≡ triple_of self.now }
    {
        Triple {
            ticks: self.anchor.ticks,
            time: self.anchor.time,
            rate: self.rate,
        }
    }
}

/// The triples of these segments.
pub fn triples_of(alloc: Global, segments: &[Told]) -> Result<Vec<Triple>, NoMemory>
    ensures { IfOk result (λ triples. triples.items ≡ map triple_of segments.now) }
{
    segments
        .iter()
        .map(|segment| segment.triple())
        .collect(alloc)
}

// The numbers are the same.
fn is_same<const S: u32>(a: Fixed<S>, b: Fixed<S>) -> bool
    ensures { IsTrue result ↔ (a.entry ≡ b.entry) }
{
    a == b
}

// The value is this number.
fn is_number<const S: u32>(value: &Value, number: Fixed<S>) -> bool
    requires valid { IsValue value.now }
    requires places { S ≤ 18 }
    requires size { nat_abs number.units < 2 ^ 127 }
    ensures { IsTrue result ↔ (value.now ≡ Number (reduced S number.entry.units)) }
{
    match value {
        Value::Number(claimed) => match claimed.to_fixed::<S>() {
            Some(fixed) => is_same(fixed, number),
            None => false,
        },
        _ => false,
    }
}

// The value is this number of ticks.
fn is_ticks(value: &Value, ticks: u64) -> bool
    requires { IsValue value.now }
    ensures { IsTrue result ↔ (value.now ≡ Number (reduced 0 (pos ticks))) }
{
    let number = Fixed::<0> {
        units: ticks as i128,
    };
    is_number(value, number)
}

// The value is this number of seconds.
fn is_seconds(value: &Value, seconds: Fixed<18>) -> bool
    requires valid { IsValue value.now }
    requires size { nat_abs seconds.units < 2 ^ 127 }
    ensures { IsTrue result ↔ (value.now ≡ Number (reduced 18 seconds.units)) }
{
    is_number(value, seconds)
}

// The values are the ticks, the time and the rate.
fn are_triple(values: &[Value], triple: Triple) -> bool
    requires valid { All IsValue values.now }
    requires numbers { HasNumbers triple }
    ensures { IsTrue result ↔ (values.now ≡ triple_values triple) }
{
    match values {
        [first, second, third] => {
            if !is_ticks(first, triple.ticks) {
                return false;
            }
            if !is_seconds(second, triple.time) {
                return false;
            }
            is_seconds(third, triple.rate)
        }
        _ => false,
    }
}

/// The values are the numbers of these triples, in order.
pub fn are_claimed(values: &[Value], triples: &[Triple]) -> bool
    requires valid { All IsValue values.now }
    requires numbers { All HasNumbers triples.now }
    ensures { IsTrue result ↔ (values.now ≡ flat_map triple_values triples.now) }
{
    let mut rest = values;
    for triple in triples {
        if rest.len() < 3 {
            return false;
        }
        let (three, behind) = rest.split_at(3);
        if !are_triple(three, *triple) {
            return false;
        }
        rest = behind;
    }
    rest.is_empty()
}

// The ticks that a value says, where it says some.
fn ticks_of(value: &Value) -> Option<u64>
    requires { IsValue value.now }
    ensures { (ticks : ℕ) → ticks < 2 ^ 64 → value.now ≡ Number (reduced 0 (pos ticks)) → result ≡ Some ticks }
{
    let Value::Number(number) = value else {
        return None;
    };
    let fixed = number.to_fixed::<0>()?;
    u64::try_from(fixed.units).ok()
}

// The seconds that a value says, where it says some.
fn seconds_of(value: &Value) -> Option<Fixed<18>>
    requires { IsValue value.now }
    ensures { (units : ℤ) → nat_abs units < 2 ^ 127 → value.now ≡ Number (reduced 18 units) → result ≡ Some (record { units = units }) }
{
    let Value::Number(number) = value else {
        return None;
    };
    number.to_fixed::<18>()
}

// The triple that three values say, where they say one.
fn read_triple(values: &[Value]) -> Option<Triple>
    requires { All IsValue values.now }
    ensures { (triple : TripleView) → HasNumbers triple → values.now ≡ triple_values triple → result ≡ Some triple }
{
    match values {
        [first, second, third] => {
            let ticks = ticks_of(first)?;
            let time = seconds_of(second)?;
            let rate = seconds_of(third)?;
            Some(Triple { ticks, time, rate })
        }
        _ => None,
    }
}

/// The triples that the values say; `None` only where they are those of no triples.
pub fn triples_claimed(alloc: Global, values: &[Value]) -> Result<Option<Vec<Triple>>, NoMemory>
    requires { All IsValue values.now }
    ensures some { IfOk result (λ read. IfSome read (λ claims. AreReadAs values.now claims.items)) }
    ensures none { IfOk result (λ read. IfNone read (AreOfNone values.now)) }
{
    let mut claims = Vec::new(alloc);
    let mut rest = values;
    while rest.len() >= 3 {
        let (three, behind) = rest.split_at(3);
        let Some(triple) = read_triple(three) else {
            return Ok(None);
        };
        claims.push(triple)?;
        rest = behind;
    }
    Ok(Some(claims))
}
