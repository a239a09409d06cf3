ghost use Rattle.std.specs.Prelude.{◌≡◌, ◌<◌, ◌≤◌, ◌⊎◌, [], ◌∷◌, length, IfSome, Ok};
ghost use Rattle.sk_checks.specs.Checks.{Judges, ◌⇒◌};
ghost use Rattle.sk_cuc.specs.Code.{CucView, SpellsCuc, HasOtherLength, HasTaiEpoch, HasAgencyEpoch, first_of, second_of, fraction_octets as fraction_of, cuc_checks};
ghost use Rattle.sk_cuc.specs.declared.fault.CucFault.TheVariants.{Length};

use crate::any::AnyCuc;
use crate::fault::CucFault;
use crate::head::{
    basic_octets, fraction_octets, head_octets, is_continued, is_cuc, is_cut, second_at,
};
use crate::parts::parts;

/// The code whose P-field was read.
fn read_field(bytes: &[u8], first: u8, second: Option<u8>) -> Result<AnyCuc, CucFault>
    requires some { 0 < length bytes.now }
    requires first { first ≡ first_of bytes.now }
    requires second { second ≡ second_of bytes.now }
    requires epoch { HasTaiEpoch first ⊎ HasAgencyEpoch first }
    requires last { IfSome second (λ octet. octet < 128) }
    requires narrow { fraction_of first second ≤ 6 }
    ensures { Judges (HasOtherLength bytes.now ⇒ Length ∷ []) (SpellsCuc bytes.now) result }
{
    if is_cut(first, second) {
        return Err(CucFault::Length);
    }
    let basic = basic_octets(first, second) as usize;
    let fraction = fraction_octets(first, second) as usize;
    let (_, field) = bytes.split_at(head_octets(second));
    match parts(field, basic, fraction) {
        Some((coarse, fine)) => Ok(AnyCuc::new(first, second, coarse, fine)),
        None => Err(CucFault::Length),
    }
}

impl AnyCuc {
    /// The code that the bytes are, P-field and T-field. The T-field has at most seven basic and six fraction
    /// octets, and the bits reserved for the mission are kept.
    pub fn read(bytes: &[u8]) -> Result<AnyCuc, CucFault>
        ensures judged { Judges (cuc_checks bytes.now) (SpellsCuc bytes.now) result }
        ensures read { (code : CucView) → SpellsCuc bytes.now code → result ≡ Ok code }
    {
        if bytes.is_empty() {
            return Err(CucFault::Empty);
        }
        let first = bytes[0];
        if !is_cuc(first) {
            return Err(CucFault::NotCuc);
        }
        let second = second_at(bytes);
        if is_continued(second) {
            return Err(CucFault::ThirdOctet);
        }
        if fraction_octets(first, second) > 6 {
            return Err(CucFault::FractionWidth);
        }
        read_field(bytes, first, second)
    }
}
