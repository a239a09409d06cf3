ghost use Rattle.std.specs.Prelude.{◌^◌, ◌<◌};
ghost use Rattle.sk_cds.specs.Limit.{sub_limit};

/// A T-field of `D` octets of the day, 2 or 3, four of the millisecond, and `S` of submilliseconds: 0, 2 for
/// microseconds, or 4 for picoseconds.
#[derive(Clone, Copy, Debug)]
pub struct Cds<const D: usize, const S: usize> {
    pub day: u32,
    pub ms: u32,
    pub sub: u32,
    ghost day_fits: { day < 256 ^ D },
    ghost sub_fits: { sub < sub_limit S },
}
