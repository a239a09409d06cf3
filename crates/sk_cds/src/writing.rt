ghost use Rattle.std.specs.Prelude.{◌≡◌, ◌+◌, ◌<◌, ◌↔◌, length, take, drop, IsErr, OnErr, IfOk};
ghost use Rattle.sk_cds.specs.Code.{SpellsCds};

use crate::any::AnyCds;
use crate::head::p_field;
use crate::parts::put_parts;
use sk_octets::WrongLength;

impl AnyCds {
    /// Writes the code to the front of the buffer, and answers its length. A shorter buffer is refused, and left
    /// as it was.
    pub fn write_into(&self, buf: &mut [u8]) -> Result<usize, WrongLength>
        ensures refused { IsErr result ↔ (length buf.old < 1 + self.now.day_octets + 4 + self.now.sub_octets) }
        ensures length { IfOk result (λ n. n ≡ 1 + self.now.day_octets + 4 + self.now.sub_octets) }
        ensures written { IfOk result (λ n. SpellsCds (take n buf.new) self.now × (drop n buf.new ≡ drop n buf.old)) }
        ensures unchanged { OnErr result (buf.new ≡ buf.old) }
    {
        let (day_octets, sub_octets) = self.widths();
        let end = 1 + usize::from(day_octets) + 4 + usize::from(sub_octets);
        if buf.len() < end {
            return Err(WrongLength);
        }
        buf[0] = p_field(day_octets, sub_octets);
        put_parts(
            &mut buf[1..end],
            usize::from(day_octets),
            self.day(),
            self.ms(),
            self.sub(),
        );
        Ok(end)
    }
}
