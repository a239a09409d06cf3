//! The numbers of triples, as they stand in a kernel.

ghost use Rattle.std.specs.Prelude.{◌≡◌, ◌≤◌, ◌<◌, ◌^◌, ◌++◌, All, OnOk, IfOk, flat_map, nat_abs};
ghost use Rattle.sk_publishing.specs.Published.{reduced, triple_values};
ghost use Rattle.sk_publication.specs.Publication.{HasNumbers};

use sk_checks::NoMemory;
use sk_decimal::{Decimal, Fixed};
use sk_grammar::{List, Value};
use sk_triples::Triple;
use std::alloc::Global;

// The decimal that the number's text spells, which has no zeros at its end.
fn decimal_of<const S: u32>(alloc: Global, number: Fixed<S>) -> Result<Decimal, NoMemory>
    requires places { S ≤ 18 }
    requires size { nat_abs number.units < 2 ^ 127 }
    ensures { IfOk result (λ decimal. decimal ≡ reduced S number.entry.units) }
{
    let mut text = Vec::new(alloc);
    number.print(&mut text)?;
    match Decimal::read(text.as_slice()) {
        Ok(decimal) => Ok(decimal),
        Err(_) => Err(NoMemory),
    }
}

// Appends the ticks, the time and the rate.
fn push_triple(values: &mut Vec<Value>, alloc: Global, triple: Triple) -> Result<(), NoMemory>
    requires { HasNumbers triple }
    ensures { OnOk result (values.new.items ≡ values.old.items ++ triple_values triple) }
{
    let ticks = Fixed::<0> {
        units: triple.ticks as i128,
    };
    values.push(Value::Number(decimal_of(alloc, ticks)?))?;
    values.push(Value::Number(decimal_of(alloc, triple.time)?))?;
    values.push(Value::Number(decimal_of(alloc, triple.rate)?))?;
    Ok(())
}

/// The ticks, the time and the rate of each triple, in order.
pub(crate) fn numbers_of(alloc: Global, triples: &[Triple]) -> Result<List<Value>, NoMemory>
    requires { All HasNumbers triples.now }
    ensures { IfOk result (λ values. values ≡ flat_map triple_values triples.now) }
{
    let mut values = Vec::new(alloc);
    for triple in triples {
        push_triple(&mut values, alloc, *triple)?;
    }
    Ok(List::from_vec(values))
}
