//! Sentences: lines that begin with two blanks, in printable ASCII.

ghost use Rattle.std.specs.Prelude.{◌≡◌, ◌<◌, ◌++◌, ◌∷◌, [], List, ℕ, OnOk, map};
ghost use Rattle.std.specs.List.{flat_map};
ghost use Rattle.sk_advice.specs.Sentences.{AreSentences, hex_digit as hex_digit_of, is_printable as is_printable_byte, sentence, sentences, set_in, shown};

use sk_checks::NoMemory;
use std::alloc::Global;

fn is_printable(byte: u8) -> bool
    ensures { result ≡ is_printable_byte byte }
{
    32 <= byte && byte <= 126
}

fn hex_digit(digit: u8) -> u8
    requires { digit < 16 }
    ensures { result ≡ hex_digit_of digit }
{
    if digit < 10 { 48 + digit } else { 87 + digit }
}

/// Appends a byte as it is shown: one that is not printable as two hexadecimal digits.
fn push_shown(text: &mut Vec<u8>, byte: u8) -> Result<(), NoMemory>
    ensures { OnOk result (text.new.items ≡ text.old.items ++ shown byte) }
{
    if is_printable(byte) {
        text.push(byte)?;
    } else {
        let pair = [b'\\', b'x', hex_digit(byte / 16 % 16), hex_digit(byte % 16)];
        text.extend_from_slice(&pair)?;
    }
    Ok(())
}

fn push_all_shown(text: &mut Vec<u8>, line: &[u8]) -> Result<(), NoMemory>
    ensures { OnOk result (text.new.items ≡ text.old.items ++ flat_map shown line.now) }
{
    for byte in line {
        push_shown(text, *byte)?;
    }
    Ok(())
}

fn push_set_in(text: &mut Vec<u8>, line: &[u8]) -> Result<(), NoMemory>
    ensures { OnOk result (text.new.items ≡ text.old.items ++ set_in (flat_map shown line.now)) }
{
    text.extend_from_slice(b"  ")?;
    push_all_shown(text, line)?;
    text.push(b'\n')?;
    Ok(())
}

/// Appends the sentence of a line; nothing of an empty one.
pub fn push_sentence(text: &mut Vec<u8>, line: &[u8]) -> Result<(), NoMemory>
    ensures { OnOk result (text.new.items ≡ text.old.items ++ sentence line.now) }
{
    match line {
        [] => {}
        [_, ..] => push_set_in(text, line)?,
    }
    Ok(())
}

/// The lines of a text that others made, as sentences.
pub fn push_lines(text: &mut Vec<u8>, lines: &str) -> Result<(), NoMemory>
    ensures { OnOk result ((texts : List (List ℕ)) × (text.new.items ≡ text.old.items ++ sentences texts)) }
{
    for line in lines.split('\n') {
        push_sentence(text, line.as_bytes())?;
    }
    Ok(())
}
