ghost use Rattle.std.specs.Prelude.{◌^◌, ◌<◌};

/// A T-field of `B` basic octets, 1 to 7, and `F` fraction octets, 0 to 6: coarse + fine / 256^F.
#[derive(Clone, Copy, Debug)]
pub struct Cuc<const B: usize, const F: usize> {
    pub coarse: u64,
    pub fine: u64,
    ghost coarse_fits: { coarse < 256 ^ B },
    ghost fine_fits: { fine < 256 ^ F },
}
