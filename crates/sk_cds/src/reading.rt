ghost use Rattle.std.specs.Prelude.{◌≡◌, ◌≢◌, ◌<◌, length, drop, slice_index, Ok};
ghost use Rattle.sk_checks.specs.Checks.{Judges};
ghost use Rattle.sk_octets.specs.Octets.{bits};
ghost use Rattle.sk_cds.specs.Code.{CdsView, SpellsCds, field_checks, day_octets_of, sub_octets_of, cds_checks};

use crate::any::AnyCds;
use crate::fault::CdsFault;
use crate::head::{day_octets, sub_octets};
use crate::parts::parts;
use sk_octets::bits_of;

/// The code whose P-field was read.
fn read_field(bytes: &[u8], octet: u8) -> Result<AnyCds, CdsFault>
    requires some { 0 < length bytes.now }
    requires octet { octet ≡ slice_index bytes.now 0 }
    requires no_extension { bits 0 0 octet ≡ 0 }
    requires is_cds { bits 1 3 octet ≡ 4 }
    requires ccsds_epoch { bits 4 4 octet ≡ 0 }
    requires not_reserved { bits 6 7 octet ≢ 3 }
    ensures { Judges (field_checks (day_octets_of octet) (sub_octets_of octet) (drop 1 bytes.now)) (SpellsCds bytes.now) result }
{
    let day_octets = day_octets(octet);
    let sub_octets = sub_octets(octet);
    let (_, field) = bytes.split_at(1);
    match parts(field, usize::from(day_octets), usize::from(sub_octets)) {
        Ok((day, ms, sub)) => Ok(AnyCds::new(day_octets, sub_octets, day, ms, sub)),
        Err(fault) => Err(fault),
    }
}

impl AnyCds {
    /// The code that the bytes are, P-field and T-field.
    pub fn read(bytes: &[u8]) -> Result<AnyCds, CdsFault>
        ensures judged { Judges (cds_checks bytes.now) (SpellsCds bytes.now) result }
        ensures read { (code : CdsView) → SpellsCds bytes.now code → result ≡ Ok code }
    {
        if bytes.is_empty() {
            return Err(CdsFault::Empty);
        }
        let octet = bytes[0];
        if bits_of(octet, 1, 3) != 4 {
            return Err(CdsFault::NotCds);
        }
        if bits_of(octet, 0, 0) == 1 {
            return Err(CdsFault::Extension);
        }
        if bits_of(octet, 4, 4) == 1 {
            return Err(CdsFault::AgencyEpoch);
        }
        if bits_of(octet, 6, 7) == 3 {
            return Err(CdsFault::Reserved);
        }
        read_field(bytes, octet)
    }
}
