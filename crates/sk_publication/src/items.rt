//! The items of a publication's block.

ghost use Rattle.std.specs.Prelude.{◌≡◌, ◌<◌, ◌≤◌, ◌++◌, ◌∷◌, [], All, IfOk, IfSome, codes, flat_map, length, option_map};
ghost use Rattle.sk_grammar.specs.Document.{IsDate, IsItem};
ghost use Rattle.sk_grammar.specs.declared.value.Value.TheVariants.{Date};
ghost use Rattle.sk_line.specs.Triple.{coefficients_name as coefficients_name_of};
ghost use Rattle.sk_publishing.specs.Published.{coefficient_items, id_items, triple_values};
ghost use Rattle.sk_publication.specs.Publication.{HasNumbers};

use crate::numbers::numbers_of;
use sk_checks::NoMemory;
use sk_decimal::Line;
use sk_grammar::{Bytes, Item, Items, List, Op, Value};
use sk_triples::Triple;
use std::alloc::Global;

// The bytes as a value of their own.
fn copied(alloc: Global, bytes: &[u8]) -> Result<Bytes, NoMemory>
    ensures { IfOk result (λ copy. copy ≡ bytes.now) }
{
    let bytes = Vec::from_slice(alloc, bytes)?;
    Ok(Bytes::from_vec(bytes))
}

// The name of the variable of the spacecraft with the number -sc.
fn coefficients_name(alloc: Global, sc: u32) -> Result<Bytes, NoMemory>
    requires { sc ≤ 999_999_999 }
    ensures { IfOk result (λ name. name ≡ coefficients_name_of sc) }
{
    let mut name = Line::new();
    name.push(b"SCLK01_COEFFICIENTS_");
    name.push_number(sc as u128);
    copied(alloc, name.as_slice())
}

// The date that is `@` and the text.
fn date_of(alloc: Global, id: &str) -> Result<Bytes, NoMemory>
    ensures { IfOk result (λ date. date ≡ codes "@" ++ id.now) }
{
    let mut date = Vec::from_slice(alloc, b"@")?;
    date.extend_from_slice(id.as_bytes())?;
    Ok(Bytes::from_vec(date))
}

// The date, as the values of an item.
fn id_values(alloc: Global, id: &str) -> Result<List<Value>, NoMemory>
    ensures { IfOk result (λ values. values ≡ Date (codes "@" ++ id.now) ∷ []) }
{
    let date = date_of(alloc, id)?;
    let mut values = Vec::new(alloc);
    values.push(Value::Date(date))?;
    Ok(List::from_vec(values))
}

// The items, and behind them the kernel ID where one is given.
fn with_id(items: Items, alloc: Global, id: Option<&str>) -> Result<Items, NoMemory>
    requires id { IfSome id (λ text. IsDate (codes "@" ++ text.now)) }
    requires items { All IsItem items }
    ensures items { IfOk result (λ more. more ≡ items ++ id_items (option_map (λ text. codes "@" ++ text.now) id.entry)) }
    ensures valid { IfOk result (All IsItem) }
{
    let Some(id) = id else {
        return Ok(items);
    };
    let name = copied(alloc, b"SCLK_KERNEL_ID")?;
    let values = id_values(alloc, id)?;
    let item = Item {
        name,
        op: Op::Set,
        values,
    };
    items.with_item(alloc, &item)
}

// The items, and behind them the numbers of the triples where there are any.
fn with_coefficients(
    items: Items,
    alloc: Global,
    sc: u32,
    triples: &[Triple],
) -> Result<Items, NoMemory>
    requires sc { sc ≤ 999_999_999 }
    requires triples { All HasNumbers triples.now }
    requires items { All IsItem items }
    ensures items { IfOk result (λ more. more ≡ items ++ coefficient_items sc (flat_map triple_values triples.now)) }
    ensures valid { IfOk result (All IsItem) }
{
    if triples.is_empty() {
        return Ok(items);
    }
    let name = coefficients_name(alloc, sc)?;
    let values = numbers_of(alloc, triples)?;
    let item = Item {
        name,
        op: Op::Append,
        values,
    };
    items.with_item(alloc, &item)
}

/// The kernel ID and the numbers of the triples, each where it is given.
pub(crate) fn items_of(
    alloc: Global,
    id: Option<&str>,
    sc: u32,
    triples: &[Triple],
) -> Result<Items, NoMemory>
    requires id { IfSome id (λ text. IsDate (codes "@" ++ text.now)) }
    requires sc { sc ≤ 999_999_999 }
    requires triples { All HasNumbers triples.now }
    ensures items { IfOk result (λ items. items ≡ id_items (option_map (λ text. codes "@" ++ text.now) id.entry) ++ coefficient_items sc (flat_map triple_values triples.now)) }
    ensures valid { IfOk result (All IsItem) }
{
    let items = with_id(Items::new(alloc), alloc, id)?;
    with_coefficients(items, alloc, sc, triples)
}
