ghost use Rattle.std.specs.Prelude.{◌<ℤ◌, ◌*ℤ◌, pos, SomeIff, IfSome};
ghost use Rattle.sk_decimal.specs.Fixed.{FitsWide};

/// num / den, with den above 0. As a time it counts 10^-18 s.
#[derive(Clone, Copy, Debug)]
pub struct Ratio {
    pub num: i128,
    pub den: i128,
    ghost positive: { pos 0 <ℤ den },
}

/// The product; `None` exactly where it passes i128.
pub fn positive_product(a: i128, b: i128) -> Option<i128>
    requires a { pos 0 <ℤ a }
    requires b { pos 0 <ℤ b }
    ensures value { SomeIff result (FitsWide (a *ℤ b)) (a *ℤ b) }
    ensures positive { IfSome result (λ product. pos 0 <ℤ product) }
{
    match a.checked_mul(b) {
        Some(product) => Some(product),
        None => None,
    }
}
