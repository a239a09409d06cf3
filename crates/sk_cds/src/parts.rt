//! T-fields of any widths.

ghost use Rattle.std.specs.Prelude.{◌≡◌, ◌+◌, ◌-◌, ◌^◌, ◌<◌, ◌≤◌, length, IfOk};
ghost use Rattle.sk_checks.specs.Checks.{Judges};
ghost use Rattle.sk_octets.specs.Octets.{SpellsNumber, octets_value};
ghost use Rattle.sk_cds.specs.Code.{SpellsField, field_checks};
ghost use Rattle.sk_cds.specs.Limit.{sub_limit};

use crate::fault::CdsFault;
use sk_octets::{number_of, put_number};

/// How many submilliseconds of this width a millisecond has.
fn limit_of(sub_octets: usize) -> u32
    ensures { result ≡ sub_limit sub_octets }
{
    match sub_octets {
        0 => 1,
        2 => 1000,
        _ => 1_000_000_000,
    }
}

/// The number that at most four octets spell.
fn short_number(octets: &[u8]) -> u32
    requires { length octets.now ≤ 4 }
    ensures value { result ≡ octets_value octets.now }
    ensures spelled { SpellsNumber (length octets.now) octets.now result }
    ensures below { result < 256 ^ length octets.now }
{
    number_of(octets) as u32
}

/// The day, the millisecond and the submilliseconds of a T-field of these widths.
pub fn parts(
    bytes: &[u8],
    day_octets: usize,
    sub_octets: usize,
) -> Result<(u32, u32, u32), CdsFault>
    requires day_in { day_octets ≤ 3 }
    requires sub_in { sub_octets ≤ 4 }
    ensures judged { Judges (field_checks day_octets sub_octets bytes.now) (λ p. SpellsField day_octets sub_octets bytes.now p.0 p.1 p.2) result }
    ensures day { IfOk result (λ p. p.0 < 256 ^ day_octets) }
    ensures sub { IfOk result (λ p. p.2 < sub_limit sub_octets) }
{
    if bytes.len() != day_octets + 4 + sub_octets {
        return Err(CdsFault::Length);
    }
    let (first, rest) = bytes.split_at(day_octets);
    let (middle, last) = rest.split_at(4);
    let sub = short_number(last);
    if sub >= limit_of(sub_octets) {
        return Err(CdsFault::SubRange);
    }
    Ok((short_number(first), short_number(middle), sub))
}

/// Writes the day, the millisecond and the submilliseconds as a T-field whose first octets are those of the day.
pub fn put_parts(buf: &mut [u8], day_octets: usize, day: u32, ms: u32, sub: u32)
    requires day_in { day_octets ≤ 3 }
    requires least { day_octets + 4 ≤ length buf.old }
    requires most { length buf.old ≤ day_octets + 8 }
    requires day { day < 256 ^ day_octets }
    requires sub { sub < 256 ^ (length buf.old - (day_octets + 4)) }
    requires limit { sub < sub_limit (length buf.old - (day_octets + 4)) }
    ensures { SpellsField day_octets (length buf.old - (day_octets + 4)) buf.new day ms sub }
{
    let behind = day_octets + 4;
    put_number(&mut buf[..day_octets], u64::from(day));
    put_number(&mut buf[day_octets..behind], u64::from(ms));
    put_number(&mut buf[behind..], u64::from(sub));
}
