//! Codes as hex text.

ghost use Rattle.std.specs.Prelude.{[], ◌∷◌, List, ℕ};
ghost use Rattle.sk_checks.specs.Checks.{JudgesUnless, ◌⇒◌};
ghost use Rattle.sk_obs.specs.Words.{IsHexOf, IsCucHex, hex_checks};

use hex::FromHexError;
use sk_cuc::{AnyCuc, CucFault};
use std::alloc::Global;

/// Why hex text could not be read.
pub enum HexStop {
    NotHex,
    NoMemory,
}

/// The octets that pairs of hex digits in either case write.
pub fn octets_of(alloc: Global, text: &[u8]) -> Result<Vec<u8>, HexStop>
    ensures { JudgesUnless HexStop.NoMemory (((octets : List ℕ) → ¬ IsHexOf text.now octets) ⇒ HexStop.NotHex ∷ []) (λ octets. IsHexOf text.now octets.items) result }
{
    match hex::decode(alloc, text) {
        Ok(octets) => Ok(octets),
        Err(FromHexError::OutOfMemory) => Err(HexStop::NoMemory),
        Err(_) => Err(HexStop::NotHex),
    }
}

/// Why the hex text of a CUC code could not be read.
pub enum CodeStop {
    Hex,
    Code(CucFault),
    NoMemory,
}

/// The CUC code whose octets the hex text writes.
pub fn cuc_of(alloc: Global, text: &[u8]) -> Result<AnyCuc, CodeStop>
    ensures { JudgesUnless CodeStop.NoMemory (hex_checks text.now) (IsCucHex text.now) result }
{
    let octets = match octets_of(alloc, text) {
        Ok(octets) => octets,
        Err(HexStop::NotHex) => return Err(CodeStop::Hex),
        Err(HexStop::NoMemory) => return Err(CodeStop::NoMemory),
    };
    match AnyCuc::read(octets.as_slice()) {
        Ok(code) => Ok(code),
        Err(fault) => Err(CodeStop::Code(fault)),
    }
}
