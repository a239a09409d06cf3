ghost use Rattle.std.specs.Prelude.{◌≡◌, ◌+◌, ◌*◌, ◌/◌, ◌^◌, ◌<◌, ◌≤◌, pos, ◌-ℤ◌, MatchOption};
ghost use Rattle.sk_cuc.specs.Code.{HasTaiEpoch, HasAgencyEpoch, IsCucTime};

use crate::any::AnyCuc;
use crate::fault::CucEpoch;
use sk_decimal::Fixed;

const PICOSECONDS: u128 = 1_000_000_000_000;

// From 1958-01-01 TAI to 2000-01-01 12 h TDT, which is TAI and 32.184 s.
const EPOCH: u128 = 1_325_419_167_816_000_000_000;

// The count in units of 10^-12 s. Whole units and fraction are scaled apart, since their joined count times 10^12
// passes 128 bits.
fn scaled(coarse: u64, fine: u64, fraction: u32) -> u128
    requires { fraction ≤ 6 }
    ensures value { result ≡ coarse * 10 ^ 12 + fine * 10 ^ 12 / 256 ^ fraction }
    ensures small { result < 2 ^ 106 }
{
    let whole = u128::from(coarse) * PICOSECONDS;
    let part = u128::from(fine) * PICOSECONDS / 256u128.pow(fraction);
    whole + part
}

// The time since 2000 of a time since 1958.
fn shifted(since_1958: u128) -> i128
    requires { since_1958 < 2 ^ 106 }
    ensures { result ≡ pos since_1958 -ℤ pos EPOCH }
{
    since_1958 as i128 - EPOCH as i128
}

impl AnyCuc {
    // The time in units of 10^-12 s, where the code counts from 1958.
    fn elapsed(&self) -> i128
        ensures { IsCucTime self.now result }
    {
        shifted(scaled(self.coarse(), self.fine(), self.fraction()))
    }

    /// The terrestrial dynamical time of the code; `None` exactly where its epoch is an agency's.
    pub fn to_tdt(&self) -> Option<Fixed<12>>
        ensures { MatchOption result (HasAgencyEpoch self.now.first) (λ time. HasTaiEpoch self.now.first × IsCucTime self.now time.units) }
    {
        match self.epoch() {
            CucEpoch::Agency => None,
            CucEpoch::Tai => {
                let units = self.elapsed();
                Some(Fixed { units })
            }
        }
    }
}
