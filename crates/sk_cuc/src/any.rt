ghost use Rattle.std.specs.Prelude.{◌≡◌, ◌^◌, ◌<◌, ◌≤◌, ◌↔◌};
ghost use Rattle.sk_cuc.specs.Code.{HasTaiEpoch, HasAgencyEpoch, basic as basic_of, fraction as fraction_of};

use crate::fault::CucEpoch;
use crate::head::{basic_octets, fraction_octets};
use sk_octets::bits_of;
use std::marker::Model;

/// A CUC code of any widths, with its P-field of one or two octets: CCSDS 301.0-B-4, section 3.2.
#[derive(Clone, Copy, Debug)]
pub struct AnyCuc {
    first: u8,
    second: Option<u8>,
    coarse: u64,
    fine: u64,
}

impl Model for AnyCuc {
    ghost use Rattle.sk_cuc.specs.Code.{CucView, IsCuc};

    ghost Value = { CucView };

    ghost view = { λ a. record { first = a.first; second = a.second; coarse = a.coarse; fine = a.fine } };

    ghost invariant = { λ a. IsCuc (record { first = a.first; second = a.second; coarse = a.coarse; fine = a.fine }) };

    ghost inverse = { λ v. record { first = v.first; second = v.second; coarse = v.coarse; fine = v.fine } };
}

impl AnyCuc {
    ghost use Rattle.sk_cuc.specs.Code.{IsCuc};

    /// The code of these parts.
    pub(crate) fn new(first: u8, second: Option<u8>, coarse: u64, fine: u64) -> AnyCuc
        requires { IsCuc (record { first = first; second = second; coarse = coarse; fine = fine }) }
        ensures { result ≡ record { first = first; second = second; coarse = coarse; fine = fine } }
    {
        AnyCuc {
            first,
            second,
            coarse,
            fine,
        }
    }

    /// From when the code counts.
    pub fn epoch(&self) -> CucEpoch
        ensures tai { (result ≡ CucEpoch.Tai) ↔ HasTaiEpoch self.now.first }
        ensures agency { (result ≡ CucEpoch.Agency) ↔ HasAgencyEpoch self.now.first }
    {
        if bits_of(self.first, 1, 3) == 1 {
            CucEpoch::Tai
        } else {
            CucEpoch::Agency
        }
    }

    /// How many octets the whole units have: 1 to 7.
    pub fn basic(&self) -> u32
        ensures value { result ≡ basic_of self.now }
        ensures most { result ≤ 7 }
    {
        basic_octets(self.first, self.second)
    }

    /// How many octets the fraction has: 0 to 6.
    pub fn fraction(&self) -> u32
        ensures value { result ≡ fraction_of self.now }
        ensures most { result ≤ 6 }
    {
        fraction_octets(self.first, self.second)
    }

    /// The whole units, in seconds where the epoch is 1958-01-01 TAI.
    pub fn coarse(&self) -> u64
        ensures value { result ≡ self.now.coarse }
        ensures fits { result < 256 ^ basic_of self.now }
    {
        self.coarse
    }

    /// The fraction, in units of 256^-fraction.
    pub fn fine(&self) -> u64
        ensures value { result ≡ self.now.fine }
        ensures fits { result < 256 ^ fraction_of self.now }
    {
        self.fine
    }

    /// The first octet of the P-field.
    pub(crate) fn first_octet(&self) -> u8
        ensures value { result ≡ self.now.first }
        ensures valid { IsCuc self.now }
    {
        self.first
    }

    /// The second octet of the P-field, as it was read.
    pub fn second_octet(&self) -> Option<u8>
        ensures { result ≡ self.now.second }
    {
        self.second
    }
}
