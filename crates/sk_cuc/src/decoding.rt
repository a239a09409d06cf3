ghost use Rattle.std.specs.Prelude.{◌≡◌, ◌≢◌, ◌+◌, ◌≤◌, ◌↔◌, length, IsErr, OnOk, OnErr, MatchOption};
ghost use Rattle.sk_cuc.specs.Code.{SpellsField};

use crate::field::Cuc;
use crate::parts::{parts, put_parts};
use sk_octets::WrongLength;

impl<const B: usize, const F: usize> Cuc<B, F> {
    /// The two numbers of a T-field; `None` exactly where it has another length.
    pub fn decode(bytes: &[u8]) -> Option<Cuc<B, F>>
        requires basic_in { (1 ≤ B) × (B ≤ 7) }
        requires fraction_in { F ≤ 6 }
        ensures { MatchOption result (length bytes.now ≢ B + F) (λ field. SpellsField B F bytes.now field.coarse field.fine) }
    {
        match parts(bytes, B, F) {
            Some((coarse, fine)) => Some(Cuc { coarse, fine }),
            None => None,
        }
    }

    /// Writes the T-field. A buffer of another length is refused, and left as it was.
    pub fn encode_into(&self, buf: &mut [u8]) -> Result<(), WrongLength>
        requires basic_in { (1 ≤ B) × (B ≤ 7) }
        requires fraction_in { F ≤ 6 }
        ensures refused { IsErr result ↔ (length buf.old ≢ B + F) }
        ensures written { OnOk result (SpellsField B F buf.new self.now.coarse self.now.fine) }
        ensures unchanged { OnErr result (buf.new ≡ buf.old) }
    {
        if buf.len() != B + F {
            return Err(WrongLength);
        }
        put_parts(buf, B, self.coarse, self.fine);
        Ok(())
    }
}
