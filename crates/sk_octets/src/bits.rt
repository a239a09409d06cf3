ghost use Rattle.std.specs.Prelude.{◌≡◌, ◌≤◌};
ghost use Rattle.sk_octets.specs.Octets.{bits};

/// The number in the bits from the first to the last, where bit 0 is the most significant.
pub fn bits_of(octet: u8, first: u32, last: u32) -> u8
    requires order { first ≤ last }
    requires within { last ≤ 7 }
    ensures { result ≡ bits first last octet }
{
    let from_last = u16::from(octet) / 2u16.pow(7 - last);
    (from_last % 2u16.pow(last + 1 - first)) as u8
}
