//! The P-field: CCSDS 301.0-B-4, section 3.3.2.

ghost use Rattle.std.specs.Prelude.{◌≡◌, ◌≤◌, ◌⊎◌};
ghost use Rattle.sk_cds.specs.Code.{IsPField, day_octets_of, sub_octets_of};

use sk_octets::bits_of;

/// How many octets the day has.
pub fn day_octets(octet: u8) -> u8
    ensures value { result ≡ day_octets_of octet }
    ensures width { (result ≡ 2) ⊎ (result ≡ 3) }
{
    2 + bits_of(octet, 5, 5)
}

/// How many octets the submilliseconds have; 6 where the width is reserved.
pub fn sub_octets(octet: u8) -> u8
    ensures value { result ≡ sub_octets_of octet }
    ensures most { result ≤ 6 }
{
    2 * bits_of(octet, 6, 7)
}

/// The P-field of these widths.
pub fn p_field(day_octets: u8, sub_octets: u8) -> u8
    requires day_in { (day_octets ≡ 2) ⊎ (day_octets ≡ 3) }
    requires sub_in { (sub_octets ≡ 0) ⊎ (sub_octets ≡ 2) ⊎ (sub_octets ≡ 4) }
    ensures { IsPField result day_octets sub_octets }
{
    0b0100_0000 + (day_octets - 2) * 4 + sub_octets / 2
}
