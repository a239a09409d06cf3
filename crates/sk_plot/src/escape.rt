//! Bytes as text of XML 1.0.

ghost use Rattle.std.specs.Prelude.{◌≡◌, ◌++◌, OnOk};
ghost use Rattle.std.specs.List.{flat_map};
ghost use Rattle.sk_plot.specs.Escape.{escape, escaped};

use sk_checks::NoMemory;

fn push_byte(out: &mut Vec<u8>, byte: u8) -> Result<(), NoMemory>
    ensures { OnOk result (out.new.items ≡ out.old.items ++ escape byte) }
{
    match byte {
        b'"' => out.extend_from_slice(b"&quot;")?,
        b'&' => out.extend_from_slice(b"&amp;")?,
        b'\'' => out.extend_from_slice(b"&apos;")?,
        b'<' => out.extend_from_slice(b"&lt;")?,
        b'>' => out.extend_from_slice(b"&gt;")?,
        32..=126 => out.push(byte)?,
        _ => out.push(b'?')?,
    }
    Ok(())
}

/// Appends the text of these bytes: printable ASCII stands for itself but for `"`, `&`, `'`, `<` and `>`, which are
/// written as references (XML 1.0, section 4.6), and each other byte is `?`.
pub fn push_escaped(out: &mut Vec<u8>, bytes: &[u8]) -> Result<(), NoMemory>
    ensures { OnOk result (out.new.items ≡ out.old.items ++ escaped bytes.now) }
{
    for byte in bytes {
        push_byte(out, *byte)?;
    }
    Ok(())
}
