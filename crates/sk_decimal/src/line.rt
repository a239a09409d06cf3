//! Text that takes no memory.
ghost use Rattle.std.specs.Prelude.{◌≡◌, ◌+◌, ◌<◌, ◌≤◌, List, ℕ, [], ◌++◌, length, take};
ghost use Rattle.std.specs.Fmt.{decimal};
ghost use Rattle.sk_decimal.specs.Number.{padded_decimal};

use itoa::Buffer;
use std::marker::Model;

const ZEROS: [u8; 40] = [b'0'; 40];

/// A text of at most 128 bytes.
#[derive(Drop)]
pub struct Line {
    bytes: [u8; 128],
    len: usize,
}

impl Model for Line {
    ghost Value = { List ℕ };

    ghost view = { λ l. take l.len l.bytes };

    ghost invariant = { λ l. l.len ≤ 128 };
}

impl Line {
    pub fn new() -> Line
        ensures { result ≡ [] }
    {
        Line {
            bytes: [0; 128],
            len: 0,
        }
    }

    pub fn push(&mut self, piece: &[u8])
        requires { length self.old + length piece.now ≤ 128 }
        ensures { self.new ≡ self.old ++ piece.now }
    {
        let end = self.len + piece.len();
        self.bytes[self.len..end].copy_from_slice(piece);
        self.len = end;
    }

    pub fn push_number(&mut self, number: u128)
        requires { length self.old + 40 ≤ 128 }
        ensures number { self.new ≡ self.old ++ decimal number }
        ensures length { length self.new ≤ length self.old + 40 }
    {
        let mut buffer = Buffer::new();
        self.push(buffer.format(number).as_bytes());
    }

    /// Appends the number with zeros in front, so that it has at least `width` digits.
    pub fn push_padded(&mut self, width: usize, number: u128)
        requires width { width ≤ 40 }
        requires room { length self.old + 40 ≤ 128 }
        ensures { self.new ≡ self.old ++ padded_decimal width number }
    {
        let mut buffer = Buffer::new();
        let digits = buffer.format(number).as_bytes();
        let missing = width.saturating_sub(digits.len());
        self.push(&ZEROS[..missing]);
        self.push(digits);
    }

    pub fn as_slice(&self) -> &[u8]
        ensures value { result.now ≡ self.now }
        ensures length { length result.now ≤ 128 }
    {
        &self.bytes[..self.len]
    }
}
