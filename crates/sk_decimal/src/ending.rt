//! Text that is written from its end.

ghost use Rattle.std.specs.Prelude.{◌≡◌, ◌+◌, ◌≤◌, ◌<◌, List, ℕ, [], ◌∷◌, ◌++◌, length, drop};
ghost use Rattle.std.specs.Fmt.{decimal};
ghost use Rattle.sk_decimal.specs.Number.{padded_decimal};

use itoa::write_digits;
use std::marker::Model;

const ROOM: usize = 64;

/// A text of at most 64 bytes that grows at its front.
#[derive(Drop)]
pub struct Ending {
    bytes: [u8; 64],
    start: usize,
}

impl Model for Ending {
    ghost Value = { List ℕ };

    ghost view = { λ e. drop e.start e.bytes };

    ghost invariant = { λ e. e.start ≤ 64 };
}

impl Ending {
    pub fn new() -> Ending
        ensures { result ≡ [] }
    {
        Ending {
            bytes: [0; 64],
            start: ROOM,
        }
    }

    /// Puts a byte in front.
    pub fn push(&mut self, byte: u8)
        requires { length self.old < 64 }
        ensures { self.new ≡ byte ∷ self.old }
    {
        self.start -= 1;
        self.bytes[self.start] = byte;
    }

    /// Puts a number in front.
    pub fn push_number(&mut self, number: u64)
        requires { length self.old + 20 ≤ 64 }
        ensures number { self.new ≡ decimal number ++ self.old }
        ensures length { length self.new ≤ length self.old + 20 }
    {
        self.start = write_digits(number, &mut self.bytes, self.start);
    }

    /// Puts a number in front, with zeros before it, so that it has at least `width` digits.
    pub fn push_padded(&mut self, width: usize, number: u64)
        requires width { width ≤ 20 }
        requires room { length self.old + 20 ≤ 64 }
        ensures number { self.new ≡ padded_decimal width number ++ self.old }
        ensures length { length self.new ≤ length self.old + 20 }
    {
        let behind = self.len();
        self.push_number(number);
        let missing = width.saturating_sub(self.len() - behind);
        for _ in 0..missing {
            self.push(b'0');
        }
    }

    fn len(&self) -> usize
        ensures { result ≡ length self.now }
    {
        ROOM - self.start
    }

    pub fn as_slice(&self) -> &[u8]
        ensures { result.now ≡ self.now }
    {
        &self.bytes[self.start..]
    }
}
