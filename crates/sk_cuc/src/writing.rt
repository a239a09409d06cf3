ghost use Rattle.std.specs.Prelude.{◌≡◌, ◌+◌, ◌<◌, ◌↔◌, length, take, drop, IsErr, OnErr, IfOk};
ghost use Rattle.std.specs.Option.{option_to_list};
ghost use Rattle.sk_cuc.specs.Code.{SpellsCuc, basic as basic_of, fraction as fraction_of};

use crate::any::AnyCuc;
use crate::head::{head_octets, put_head};
use crate::parts::put_parts;
use sk_octets::WrongLength;

impl AnyCuc {
    /// Writes the code to the front of the buffer, and answers its length. A shorter buffer is refused, and left
    /// as it was.
    pub fn write_into(&self, buf: &mut [u8]) -> Result<usize, WrongLength>
        ensures refused { IsErr result ↔ (length buf.old < 1 + length (option_to_list self.now.second) + basic_of self.now + fraction_of self.now) }
        ensures length { IfOk result (λ n. n ≡ 1 + length (option_to_list self.now.second) + basic_of self.now + fraction_of self.now) }
        ensures written { IfOk result (λ n. SpellsCuc (take n buf.new) self.now × (drop n buf.new ≡ drop n buf.old)) }
        ensures unchanged { OnErr result (buf.new ≡ buf.old) }
    {
        let basic = self.basic() as usize;
        let head = head_octets(self.second_octet());
        let end = head + basic + self.fraction() as usize;
        if buf.len() < end {
            return Err(WrongLength);
        }
        put_head(buf, self.first_octet(), self.second_octet());
        put_parts(&mut buf[head..end], basic, self.coarse(), self.fine());
        Ok(end)
    }
}
