//! Values, as they stand in an item.

ghost use Rattle.std.specs.Prelude.{◌≡◌, ◌++◌, OnOk};
ghost use Rattle.sk_grammar.specs.Document.{quoted};
ghost use Rattle.sk_grammar.specs.Canonical.{value_text};

use crate::value::Value;
use sk_checks::NoMemory;

// Appends the text in quotes, with its own quotes doubled.
fn write_text(out: &mut Vec<u8>, text: &[u8]) -> Result<(), NoMemory>
    ensures { OnOk result (out.new.items ≡ out.old.items ++ quoted text.now) }
{
    out.push(b'\'')?;
    for byte in text {
        if *byte == b'\'' {
            out.push(b'\'')?;
        }
        out.push(*byte)?;
    }
    out.push(b'\'')?;
    Ok(())
}

/// Appends the value.
pub fn write_value(out: &mut Vec<u8>, value: &Value) -> Result<(), NoMemory>
    ensures { OnOk result (out.new.items ≡ out.old.items ++ value_text value.now) }
{
    match value {
        Value::Number(number) => number.print(out)?,
        Value::Date(date) => out.extend_from_slice(date.as_slice())?,
        Value::Text(text) => write_text(out, text.as_slice())?,
    }
    Ok(())
}
