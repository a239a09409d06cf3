ghost use Rattle.std.specs.Prelude.{◌≡◌, ◌^◌, ◌<◌};
ghost use Rattle.sk_cds.specs.Code.{picoseconds_of};
ghost use Rattle.sk_cds.specs.Limit.{sub_limit};

use std::marker::Model;

/// A CDS code of any widths: CCSDS 301.0-B-4, section 3.3. It counts from 1958-01-01.
#[derive(Clone, Copy, Debug)]
pub struct AnyCds {
    day_octets: u8,
    sub_octets: u8,
    day: u32,
    ms: u32,
    sub: u32,
}

impl Model for AnyCds {
    ghost use Rattle.sk_cds.specs.Code.{CdsView, IsCds};

    ghost Value = { CdsView };

    ghost view = { λ a. record { day_octets = a.day_octets; sub_octets = a.sub_octets; day = a.day; ms = a.ms; sub = a.sub } };

    ghost invariant = { λ a. IsCds (record { day_octets = a.day_octets; sub_octets = a.sub_octets; day = a.day; ms = a.ms; sub = a.sub }) };

    ghost inverse = { λ v. record { day_octets = v.day_octets; sub_octets = v.sub_octets; day = v.day; ms = v.ms; sub = v.sub } };
}

impl AnyCds {
    ghost use Rattle.sk_cds.specs.Code.{IsCds};

    /// The code of these parts.
    pub(crate) fn new(day_octets: u8, sub_octets: u8, day: u32, ms: u32, sub: u32) -> AnyCds
        requires { IsCds (record { day_octets = day_octets; sub_octets = sub_octets; day = day; ms = ms; sub = sub }) }
        ensures { result ≡ record { day_octets = day_octets; sub_octets = sub_octets; day = day; ms = ms; sub = sub } }
    {
        AnyCds {
            day_octets,
            sub_octets,
            day,
            ms,
            sub,
        }
    }

    /// The widths of the day and of the submilliseconds, in octets.
    pub(crate) fn widths(&self) -> (u8, u8)
        ensures day { result.0 ≡ self.now.day_octets }
        ensures sub { result.1 ≡ self.now.sub_octets }
        ensures valid { IsCds self.now }
    {
        (self.day_octets, self.sub_octets)
    }

    /// Days since 1958-01-01.
    pub fn day(&self) -> u32
        ensures { result ≡ self.now.day }
    {
        self.day
    }

    /// The millisecond of the day.
    pub fn ms(&self) -> u32
        ensures { result ≡ self.now.ms }
    {
        self.ms
    }

    /// The submilliseconds as they were read.
    pub(crate) fn sub(&self) -> u32
        ensures { result ≡ self.now.sub }
    {
        self.sub
    }

    /// The submilliseconds, in picoseconds: below 10^9.
    pub fn picoseconds(&self) -> u64
        ensures value { result ≡ picoseconds_of self.now }
        ensures below { result < 10 ^ 9 }
    {
        let sub = u64::from(self.sub);
        if self.sub_octets == 2 {
            sub * 1_000_000
        } else {
            sub
        }
    }
}
