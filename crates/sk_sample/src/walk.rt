//! The sequence that a seed begins, and the walk that it takes.

ghost use Rattle.std.specs.Prelude.{◌≡◌, ◌+◌, ◌*◌, ◌%◌, ◌^◌, ◌≤ℤ◌, pos, neg_ℤ, ◌+ℤ◌, ◌-ℤ◌};

/// A place of the walk.
#[derive(Clone, Copy, Debug)]
pub struct Walk {
    /// The number of the sequence.
    pub drawn: u32,
    /// How late the observation is, in nanoseconds.
    pub late: i64,
}

const MODULUS: u64 = 4_294_967_296;

/// The next number of the sequence.
fn next_drawn(drawn: u32) -> u32
    ensures { result ≡ (drawn * 1664525 + 1013904223) % 2 ^ 32 }
{
    ((u64::from(drawn) * 1_664_525 + 1_013_904_223) % MODULUS) as u32
}

impl Walk {
    /// The place after this one.
    pub fn next(self) -> Walk
        requires from { neg_ℤ (pos (10 ^ 15)) ≤ℤ self.late }
        requires to { self.late ≤ℤ pos (10 ^ 15) }
        ensures drawn { result.drawn ≡ (self.drawn * 1664525 + 1013904223) % 2 ^ 32 }
        ensures late { result.late ≡ self.late +ℤ (pos (result.drawn % 200001) -ℤ pos 100000) }
    {
        let drawn = next_drawn(self.drawn);
        Walk {
            drawn,
            late: self.late + (i64::from(drawn % 200_001) - 100_000),
        }
    }
}
