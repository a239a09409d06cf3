ghost use Rattle.std.specs.Prelude.{◌≡◌, ◌^◌, ◌+◌, ◌-◌, ◌≤◌, length, decimal};
ghost use Rattle.std.specs.Int.{IsInRange};

/// A field of a clock: its modulus, its least value, the ticks that one of it counts, and how many
/// digits show it.
#[derive(Clone, Copy, Debug)]
pub struct Field {
    pub modulus: u64,
    pub offset: u64,
    pub unit: u64,
    pub width: usize,
    ghost modulus_fits: { IsInRange 1 (2 ^ 53 - 1) modulus },
    ghost offset_fits: { offset ≤ 2 ^ 32 },
    ghost unit_fits: { IsInRange 1 (2 ^ 32) unit },
    ghost width_fits: { width ≡ length (decimal (modulus + offset - 1)) },
}
