//! T-fields of any widths.

ghost use Rattle.std.specs.Prelude.{◌≡◌, ◌≢◌, ◌+◌, ◌-◌, ◌^◌, ◌<◌, ◌≤◌, length, MatchOption, IfSome};
ghost use Rattle.sk_cuc.specs.Code.{SpellsField};

use sk_octets::{number_of, put_number};

/// The two numbers of a T-field of these widths; `None` exactly where it has another length.
pub fn parts(bytes: &[u8], basic: usize, fraction: usize) -> Option<(u64, u64)>
    requires basic { basic ≤ 7 }
    requires fraction { fraction ≤ 6 }
    ensures spelled { MatchOption result (length bytes.now ≢ basic + fraction) (λ p. SpellsField basic fraction bytes.now p.0 p.1) }
    ensures coarse { IfSome result (λ p. p.0 < 256 ^ basic) }
    ensures fine { IfSome result (λ p. p.1 < 256 ^ fraction) }
{
    if bytes.len() != basic + fraction {
        return None;
    }
    let (high, low) = bytes.split_at(basic);
    Some((number_of(high), number_of(low)))
}

/// Writes the two numbers as a T-field, whose first octets are the basic ones.
pub fn put_parts(buf: &mut [u8], basic: usize, coarse: u64, fine: u64)
    requires basic { (basic ≤ 7) × (basic ≤ length buf.old) }
    requires fraction { length buf.old ≤ basic + 6 }
    requires coarse { coarse < 256 ^ basic }
    requires fine { fine < 256 ^ (length buf.old - basic) }
    ensures { SpellsField basic (length buf.old - basic) buf.new coarse fine }
{
    put_number(&mut buf[..basic], coarse);
    put_number(&mut buf[basic..], fine);
}
