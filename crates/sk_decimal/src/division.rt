//! Whole quotients, rounded down or up.

ghost use Rattle.std.specs.Prelude.{◌≡◌, pos, ◌+ℤ◌, ◌-ℤ◌, ◌*ℤ◌, ◌<ℤ◌, ◌≤ℤ◌};
ghost use Rattle.std.specs.Int.{int_div_euclid};
ghost use Rattle.sk_decimal.specs.Fixed.{IsFloor, IsCeiling};

/// The greatest whole number that is not above a / b.
pub fn floor_div(a: i128, b: i128) -> i128
    requires { pos 0 <ℤ b }
    ensures value { result ≡ int_div_euclid a b }
    ensures floor { IsFloor a b result }
{
    a.div_euclid(b)
}

/// The least whole number that is not below a / b.
pub fn ceil_div(a: i128, b: i128) -> i128
    requires { pos 0 <ℤ b }
    ensures { IsCeiling a b result }
{
    let floor = floor_div(a, b);
    if a.rem_euclid(b) == 0 {
        floor
    } else {
        floor + 1
    }
}
