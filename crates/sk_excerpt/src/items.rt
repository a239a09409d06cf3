//! The items of an excerpt.

ghost use Rattle.std.specs.Prelude.{◌≡◌, ◌+◌, ◌*◌, ◌≤◌, All, IfOk, IsTrue, length, map, if◌then◌else◌};
ghost use Rattle.std.specs.Str.{bytes_eq};
ghost use Rattle.sk_grammar.specs.Document.{IsItem};
ghost use Rattle.sk_grammar.specs.declared.value.Op.TheVariants.{Set};
ghost use Rattle.sk_line.specs.Triple.{coefficients_name as coefficients_name_of};
ghost use Rattle.sk_excerpt.specs.Excerpt.{cut as cut_of, excerpt_item};
ghost use Rattle.sk_excerpt.specs.Cuts.{HasRoom};

use crate::cut::Cut;
use sk_checks::NoMemory;
use sk_decimal::Line;
use sk_grammar::{Bytes, Item, Items, Op, Value};
use sk_pool::{Pool, copied_bytes, copied_values};
use std::alloc::Global;

// The name of the variable of the spacecraft with the number -sc.
fn coefficients_name(sc: u32) -> Line
    requires { sc ≤ 999_999_999 }
    ensures { result ≡ coefficients_name_of sc }
{
    let mut name = Line::new();
    name.push(b"SCLK01_COEFFICIENTS_");
    name.push_number(sc as u128);
    name
}

// What is left of a variable's values: all, and of the coefficients those of the triples that are kept.
fn values_left<'a>(name: &[u8], values: &'a [Value], coefficients: &[u8], cut: Cut) -> &'a [Value]
    requires order { cut.first ≤ cut.last }
    requires room { IsTrue (bytes_eq name.now coefficients.now) → 3 * (cut.last + 1) ≤ length values.now }
    ensures { result.now ≡ (if bytes_eq name.now coefficients.now then cut_of cut.first cut.last values.now else values.now) }
{
    if name != coefficients {
        return values;
    }
    let (_, rest) = values.split_at(3 * cut.first);
    let (left, _) = rest.split_at(3 * (cut.last - cut.first + 1));
    left
}

// The item that sets a variable to these values.
fn setting(alloc: Global, name: &Bytes, values: &[Value]) -> Result<Item, NoMemory>
    requires { IsItem (record { name = name.now; op = Set; values = values.now }) }
    ensures { IfOk result (λ item. item ≡ record { name = name.now; op = Set; values = values.now }) }
{
    let name = copied_bytes(alloc, name)?;
    let values = copied_values(alloc, values)?;
    Ok(Item {
        name,
        op: Op::Set,
        values,
    })
}

/// One item a variable, in order, with what is left of its values.
pub(crate) fn items_left(alloc: Global, pool: &Pool, sc: u32, cut: Cut) -> Result<Items, NoMemory>
    requires sc { sc ≤ 999_999_999 }
    requires order { cut.first ≤ cut.last }
    requires room { All (HasRoom sc cut.last) pool.now }
    ensures items { IfOk result (λ items. items ≡ map (excerpt_item sc cut.first cut.last) pool.now) }
    ensures valid { IfOk result (All IsItem) }
{
    let coefficients = coefficients_name(sc);
    let lists = pool.value_lists();
    let mut items = Items::new(alloc);
    for (place, name) in pool.names().iter().enumerate() {
        let values = lists[place].as_slice();
        let left = values_left(name.as_slice(), values, coefficients.as_slice(), cut);
        let item = setting(alloc, name, left)?;
        items = items.with_item(alloc, &item)?;
    }
    Ok(items)
}
