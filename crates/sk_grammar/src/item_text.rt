//! Items, as they stand in a block.

ghost use Rattle.std.specs.Prelude.{◌≡◌, ◌++◌, ◌∷◌, [], ◌<◌, ◌≤◌, All, IfOk, OnOk, length, nat_le, if◌then◌else◌, List, ℕ};
ghost use Rattle.sk_grammar.specs.Canonical.{item_lines, vector_lines, value_lines, ended_by_line_feeds};
ghost use Rattle.sk_grammar.specs.Document.{IsValue};
ghost use Rattle.sk_grammar.specs.Writing.{opening, single_line, in_threes};

use crate::value::Op;
use crate::values::Values;
use sk_checks::NoMemory;

/// The most bytes that a data line may have.
const MOST_DATA_BYTES: usize = 132;

/// How many numbers stand on a line.
const NUMBERS_PER_LINE: u32 = 3;

// Appends the name, and `=` or `+=` between blanks.
fn write_opening(out: &mut Vec<u8>, name: &[u8], op: Op) -> Result<(), NoMemory>
    ensures { OnOk result (out.new.items ≡ out.old.items ++ opening name.now op) }
{
    out.extend_from_slice(name)?;
    match op {
        Op::Set => out.extend_from_slice(b" = ")?,
        Op::Append => out.extend_from_slice(b" += ")?,
    }
    Ok(())
}

// Appends the item on one line where it fits one, and says whether it does.
fn write_single(out: &mut Vec<u8>, name: &[u8], op: Op, value: &[u8]) -> Result<bool, NoMemory>
    ensures { IfOk result (λ fits. (fits ≡ nat_le (length (single_line name.now op value.now)) 132)
        × (out.new.items ≡ (if fits then out.old.items ++ (single_line name.now op value.now ++ 10 ∷ []) else out.old.items))) }
{
    let start = out.len();
    write_opening(out, name, op)?;
    out.extend_from_slice(value)?;
    if out.len() - start > MOST_DATA_BYTES {
        out.truncate(start);
        return Ok(false);
    }
    out.push(b'\n')?;
    Ok(true)
}

// What stands for the byte where three values share a line, and which of its values comes next, from 1.
fn in_row(byte: u8, column: u32) -> (u8, u32)
    requires { column ≤ 3 }
    ensures row { (rest : List ℕ) → in_threes column (byte ∷ rest) ≡ result.0 ∷ in_threes result.1 rest }
    ensures column { result.1 ≤ 3 }
{
    if byte != b'\n' {
        (byte, column)
    } else if column == NUMBERS_PER_LINE {
        (b'\n', 1)
    } else {
        (b' ', column + 1)
    }
}

// Appends the lines, three on each line with blanks between them.
fn write_in_threes(out: &mut Vec<u8>, lines: &[u8]) -> Result<(), NoMemory>
    ensures { (front : List ℕ) → lines.now ≡ front ++ 10 ∷ [] → OnOk result (out.new.items ≡ out.old.items ++ (in_threes 1 front ++ 10 ∷ [])) }
{
    let Some((last, front)) = lines.split_last() else {
        return Ok(());
    };
    let mut column = 1;
    for byte in front {
        let (written, next) = in_row(*byte, column);
        out.push(written)?;
        column = next;
    }
    out.push(*last)?;
    Ok(())
}

// Appends the values on lines of their own.
fn write_values(out: &mut Vec<u8>, values: &Values) -> Result<(), NoMemory>
    requires some { 0 < length values.now }
    requires valid { All IsValue values.now }
    ensures { OnOk result (out.new.items ≡ out.old.items ++ ended_by_line_feeds (value_lines values.now)) }
{
    if values.are_numbers() {
        write_in_threes(out, values.as_text())
    } else {
        out.extend_from_slice(values.as_text())
    }
}

// Appends the item with its values on lines of their own.
fn write_vector(out: &mut Vec<u8>, name: &[u8], op: Op, values: &Values) -> Result<(), NoMemory>
    requires some { 0 < length values.now }
    requires valid { All IsValue values.now }
    ensures { OnOk result (out.new.items ≡ out.old.items ++ ended_by_line_feeds (vector_lines (record { name = name.now; op = op; values = values.now }))) }
{
    write_opening(out, name, op)?;
    out.extend_from_slice(b"(\n")?;
    write_values(out, values)?;
    out.extend_from_slice(b")\n")?;
    Ok(())
}

/// Appends the item.
pub fn write_item(out: &mut Vec<u8>, name: &[u8], op: Op, values: &Values) -> Result<(), NoMemory>
    requires some { 0 < length values.now }
    requires valid { All IsValue values.now }
    ensures { OnOk result (out.new.items ≡ out.old.items ++ ended_by_line_feeds (item_lines (record { name = name.now; op = op; values = values.now }))) }
{
    if let Some(value) = values.only() {
        if write_single(out, name, op, value)? {
            return Ok(());
        }
    }
    write_vector(out, name, op, values)
}
