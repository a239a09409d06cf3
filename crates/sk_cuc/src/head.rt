//! The P-field: CCSDS 301.0-B-4, section 3.2.2.

ghost use Rattle.std.specs.Prelude.{◌≡◌, ◌+◌, ◌<◌, ◌≤◌, ◌⊎◌, ◌∷◌, ◌++◌, length, drop, None, MatchBool, IsSomeAnd};
ghost use Rattle.std.specs.Option.{option_to_list};
ghost use Rattle.sk_octets.specs.Octets.{bits};
ghost use Rattle.sk_cuc.specs.Code.{HasTaiEpoch, HasAgencyEpoch, IsExtended, second_of, basic_octets as basic_of, fraction_octets as fraction_of};

use sk_octets::bits_of;

/// Whether the first octet is that of a CUC code.
pub fn is_cuc(first: u8) -> bool
    ensures { MatchBool result (HasTaiEpoch first ⊎ HasAgencyEpoch first) (¬ (HasTaiEpoch first ⊎ HasAgencyEpoch first)) }
{
    let kind = bits_of(first, 1, 3);
    kind == 1 || kind == 2
}

/// The second octet, where it is due and there.
pub fn second_at(bytes: &[u8]) -> Option<u8>
    requires { 0 < length bytes.now }
    ensures { result ≡ second_of bytes.now }
{
    if bits_of(bytes[0], 0, 0) == 1 {
        bytes.get(1).copied()
    } else {
        None
    }
}

/// Whether a third octet follows.
pub fn is_continued(second: Option<u8>) -> bool
    ensures { MatchBool result (IsSomeAnd second (λ octet. 128 ≤ octet)) (¬ IsSomeAnd second (λ octet. 128 ≤ octet)) }
{
    match second {
        Some(octet) => octet >= 128,
        None => false,
    }
}

/// Whether the second octet is due and missing.
pub fn is_cut(first: u8, second: Option<u8>) -> bool
    ensures { MatchBool result (IsExtended first × (second ≡ None)) (¬ (IsExtended first × (second ≡ None))) }
{
    bits_of(first, 0, 0) == 1 && second.is_none()
}

/// How many octets the P-field has.
pub fn head_octets(second: Option<u8>) -> usize
    ensures { result ≡ 1 + length (option_to_list second) }
{
    match second {
        Some(_) => 2,
        None => 1,
    }
}

/// Writes the P-field to the front of the buffer.
pub fn put_head(buf: &mut [u8], first: u8, second: Option<u8>)
    requires { 1 + length (option_to_list second) ≤ length buf.old }
    ensures { buf.new ≡ first ∷ option_to_list second ++ drop (1 + length (option_to_list second)) buf.old }
{
    buf[0] = first;
    if let Some(octet) = second {
        buf[1] = octet;
    }
}

/// The basic octets: those of octet 1, and the further ones of octet 2.
pub fn basic_octets(first: u8, second: Option<u8>) -> u32
    ensures value { result ≡ basic_of first second }
    ensures most { result ≤ 7 }
{
    let further = match second {
        Some(octet) => bits_of(octet, 1, 2),
        None => 0,
    };
    u32::from(bits_of(first, 4, 5) + 1 + further)
}

/// The fraction octets: those of octet 1, and the further ones of octet 2.
pub fn fraction_octets(first: u8, second: Option<u8>) -> u32
    ensures { result ≡ fraction_of first second }
{
    let further = match second {
        Some(octet) => bits_of(octet, 3, 5),
        None => 0,
    };
    u32::from(bits_of(first, 6, 7) + further)
}
