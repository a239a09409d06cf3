//! Copies of values, and their kinds.

ghost use Rattle.std.specs.Prelude.{◌≡◌, ◌++◌, IfOk, OnOk};
ghost use Rattle.sk_pool.specs.Assigning.{begins_text};

use sk_checks::NoMemory;
use sk_grammar::{Bytes, List, Value};
use std::alloc::Global;

/// A copy of the bytes.
pub fn copied_bytes(alloc: Global, bytes: &Bytes) -> Result<Bytes, NoMemory>
    ensures { IfOk result (λ copy. copy ≡ bytes.now) }
{
    Ok(Bytes::copied(alloc, bytes.as_slice())?)
}

fn copied_value(alloc: Global, value: &Value) -> Result<Value, NoMemory>
    ensures { IfOk result (λ copy. copy ≡ value.now) }
{
    match value {
        Value::Number(number) => Ok(Value::Number(*number)),
        Value::Date(date) => Ok(Value::Date(copied_bytes(alloc, date)?)),
        Value::Text(text) => Ok(Value::Text(copied_bytes(alloc, text)?)),
    }
}

// Appends copies of the values.
pub(crate) fn append_copies(
    alloc: Global,
    held: &mut List<Value>,
    added: &[Value],
) -> Result<(), NoMemory>
    ensures { OnOk result (held.new ≡ held.old ++ added.now) }
{
    for value in added {
        held.push(copied_value(alloc, value)?)?;
    }
    Ok(())
}

/// Copies of the values, in order.
pub fn copied_values(alloc: Global, values: &[Value]) -> Result<List<Value>, NoMemory>
    ensures { IfOk result (λ copies. copies ≡ values.now) }
{
    let mut copies = List::from_vec(Vec::with_capacity(alloc, values.len())?);
    append_copies(alloc, &mut copies, values)?;
    Ok(copies)
}

pub(crate) fn begins_text(values: &[Value]) -> bool
    ensures { result ≡ begins_text values.now }
{
    matches!(values, [Value::Text(_), ..])
}
