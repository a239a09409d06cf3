//! The numbers of what the words ask for, with their defaults.

ghost use Rattle.std.specs.Prelude.{◌≡◌, ◌≤◌, ℕ, option_map, IfSome};
ghost use Rattle.std.specs.Int.{IsInRange};
ghost use Rattle.sk_words.specs.Request.{HoldsNumbers, default_of, number_or};
ghost use Rattle.sk_words.specs.Asked.{options_in};

use crate::ranges::number_of;
use crate::request::Request;
use crate::tables::OptionName;

impl<'a> Request<'a> {
    /// The number of an option; its default where the command has none.
    fn number(&self, name: OptionName) -> u64
        ensures number { (low high : ℕ) → HoldsNumbers name low high → result ≡ number_or (default_of name) name (options_in self.now) }
        ensures range { (low high : ℕ) → HoldsNumbers name low high → IsInRange low high (default_of name) → IsInRange low high result }
        ensures most { (low high : ℕ) → HoldsNumbers name low high → default_of name ≤ high → result ≤ high }
    {
        let default = name.default_number();
        match self.text(name) {
            Some(text) => number_of(text).unwrap_or(default),
            None => default,
        }
    }

    /// The tolerance, in nanoseconds.
    pub fn tolerance(&self) -> u64
        ensures number { result ≡ number_or 1_000_000 OptionName.TolNs (options_in self.now) }
        ensures range { IsInRange 1 60_000_000_000 result }
    {
        self.number(OptionName::TolNs)
    }

    /// The decimals of a rate.
    pub fn rate_decimals(&self) -> u32
        ensures number { result ≡ number_or 12 OptionName.RateDecimals (options_in self.now) }
        ensures range { IsInRange 1 15 result }
    {
        self.number(OptionName::RateDecimals) as u32
    }

    /// The band of the rates, in parts of a million.
    pub fn band(&self) -> u32
        ensures number { result ≡ number_or 1000 OptionName.BandPpm (options_in self.now) }
        ensures range { IsInRange 1 100_000 result }
    {
        self.number(OptionName::BandPpm) as u32
    }

    /// The slip, in nanoseconds.
    pub fn slip(&self) -> u64
        ensures number { result ≡ number_or 1_000_000 OptionName.SlipNs (options_in self.now) }
        ensures range { result ≤ 60_000_000_000 }
    {
        self.number(OptionName::SlipNs)
    }

    /// The hold, in encoded ticks, where it is given.
    pub fn hold(&self) -> Option<u64>
        ensures number { result ≡ option_map (λ _. number_or 0 OptionName.Hold (options_in self.now)) (options_in self.now OptionName.Hold) }
        ensures range { IfSome result (λ hold. hold ≤ 9_007_199_254_740_991) }
    {
        match self.text(OptionName::Hold) {
            Some(_) => Some(self.number(OptionName::Hold)),
            None => None,
        }
    }

    /// The number that begins the sequence of a sample; 0 where the command has none.
    pub fn seed(&self) -> u32
        ensures { result ≡ number_or 0 OptionName.Seed (options_in self.now) }
    {
        self.number(OptionName::Seed) as u32
    }

    /// How many observations a sample has; 0 where the command has no such number.
    pub fn count(&self) -> u32
        ensures number { result ≡ number_or 0 OptionName.Count (options_in self.now) }
        ensures range { result ≤ 100_000 }
    {
        self.number(OptionName::Count) as u32
    }

    /// The greatest count of observations that may be dropped.
    pub fn reject(&self) -> u32
        ensures number { result ≡ number_or 0 OptionName.Reject (options_in self.now) }
        ensures range { result ≤ 100_000 }
    {
        self.number(OptionName::Reject) as u32
    }

    /// The first encoded tick of a range.
    pub fn first_tick(&self) -> u64
        ensures number { result ≡ number_or 0 OptionName.From (options_in self.now) }
        ensures range { result ≤ 9_007_199_254_740_991 }
    {
        self.number(OptionName::From)
    }

    /// The last encoded tick of a range.
    pub fn last_tick(&self) -> u64
        ensures number { result ≡ number_or 0 OptionName.To (options_in self.now) }
        ensures range { result ≤ 9_007_199_254_740_991 }
    {
        self.number(OptionName::To)
    }
}
