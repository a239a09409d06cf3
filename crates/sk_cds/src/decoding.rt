ghost use Rattle.std.specs.Prelude.{◌≡◌, ◌≢◌, ◌+◌, ◌⊎◌, ◌↔◌, length, IsErr, OnOk, OnErr};
ghost use Rattle.sk_checks.specs.Checks.{Judges};
ghost use Rattle.sk_cds.specs.Code.{SpellsField, field_checks};

use crate::fault::CdsFault;
use crate::field::Cds;
use crate::parts::{parts, put_parts};
use sk_octets::WrongLength;

impl<const D: usize, const S: usize> Cds<D, S> {
    /// The three numbers of a T-field.
    pub fn decode(bytes: &[u8]) -> Result<Cds<D, S>, CdsFault>
        requires day_in { (D ≡ 2) ⊎ (D ≡ 3) }
        requires sub_in { (S ≡ 0) ⊎ (S ≡ 2) ⊎ (S ≡ 4) }
        ensures { Judges (field_checks D S bytes.now) (λ field. SpellsField D S bytes.now field.day field.ms field.sub) result }
    {
        match parts(bytes, D, S) {
            Ok((day, ms, sub)) => Ok(Cds { day, ms, sub }),
            Err(fault) => Err(fault),
        }
    }

    /// Writes the T-field. A buffer of another length is refused, and left as it was.
    pub fn encode_into(&self, buf: &mut [u8]) -> Result<(), WrongLength>
        requires day_in { (D ≡ 2) ⊎ (D ≡ 3) }
        requires sub_in { (S ≡ 0) ⊎ (S ≡ 2) ⊎ (S ≡ 4) }
        ensures refused { IsErr result ↔ (length buf.old ≢ D + 4 + S) }
        ensures written { OnOk result (SpellsField D S buf.new self.now.day self.now.ms self.now.sub) }
        ensures unchanged { OnErr result (buf.new ≡ buf.old) }
    {
        if buf.len() != D + 4 + S {
            return Err(WrongLength);
        }
        put_parts(buf, D, self.day, self.ms, self.sub);
        Ok(())
    }
}
