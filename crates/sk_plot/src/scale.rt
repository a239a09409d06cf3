//! Round steps, and the axes that they make.

ghost use Rattle.std.specs.Prelude.{◌≡◌, ◌≤◌, ◌<◌, ◌+◌, ◌*◌, ◌^◌, pos, neg_ℤ, ◌+ℤ◌, ◌*ℤ◌, ◌<ℤ◌, ◌≤ℤ◌};
ghost use Rattle.sk_plot.specs.Scale.{chosen as chosen_of, round_up as round_up_of, wanted_of, step_of, step_over, micro as micro_of, floor_step as floor_step_of, day_left, per_micro};

use sk_decimal::floor_div;

/// 10^-12 s in a millionth of a day.
pub const PER_MICRO: i128 = 86_400_000_000;

// The first of 1, 2 and 5 units that is not below what is wanted, or 5.
fn chosen(unit: u64, wanted: u64) -> u64
    requires { unit ≤ 3 * 10 ^ 18 }
    ensures { result ≡ chosen_of unit wanted }
{
    if wanted <= unit {
        unit
    } else if wanted <= 2 * unit {
        2 * unit
    } else {
        5 * unit
    }
}

/// The least of 1, 2, 5, 10, 20, 50 .. that is not below what is wanted.
pub fn round_up(wanted: u64) -> u64
    requires { wanted ≤ 10 ^ 18 }
    ensures step { result ≡ round_up_of wanted }
    ensures covers { wanted ≤ result }
    ensures some { 1 ≤ result }
    ensures few { result ≤ 5 * wanted + 5 }
{
    let mut unit = 1;
    let mut more: u32 = 18;
    while more > 0 {
        if wanted <= 5 * unit {
            return chosen(unit, wanted);
        }
        unit *= 10;
        more -= 1;
    }
    unit
}

/// The step of the residuals' axis, of which it has five above 0 and five below, in 10^-12 s.
pub fn step_for(tolerance: u64, worst: u128) -> u64
    requires { tolerance ≤ 10 ^ 17 }
    ensures step { result ≡ step_of (wanted_of tolerance worst) }
    ensures covers { tolerance ≤ 5 * result }
    ensures some { 1 ≤ result }
    ensures few { result ≤ 10 ^ 18 }
{
    let most = 4 * tolerance;
    let held = if worst < u128::from(most) {
        worst as u64
    } else {
        most
    };
    let wanted = if tolerance < held { held } else { tolerance };
    round_up((wanted + 4) / 5)
}

/// The axis of days: from `left`, ten steps, in millionths of a day.
#[derive(Clone, Copy, Debug)]
pub struct Days {
    pub left: i128,
    pub step: u64,
}

/// The millionths of a day that have passed at a time, floored.
pub fn micro(time: i128) -> i128
    requires from { neg_ℤ (pos (10 ^ 22)) ≤ℤ time }
    requires to { time ≤ℤ pos (10 ^ 22) }
    ensures value { result ≡ micro_of time }
    ensures from { neg_ℤ (pos (10 ^ 12)) ≤ℤ result }
    ensures to { result ≤ℤ pos (10 ^ 12) }
    ensures before { (result *ℤ pos per_micro) ≤ℤ time }
    ensures after { time <ℤ ((result +ℤ pos 1) *ℤ pos per_micro) }
{
    floor_div(time, PER_MICRO)
}

// The step of the axis over so many millionths of a day.
fn day_step(from: i128, to: i128) -> u64
    requires ordered { from ≤ℤ to }
    requires from { neg_ℤ (pos (10 ^ 12)) ≤ℤ from }
    requires to { to ≤ℤ pos (10 ^ 12) }
    ensures step { result ≡ step_over from to }
    ensures covers { (to +ℤ pos 1) ≤ℤ (from +ℤ pos (9 * result)) }
    ensures some { 1 ≤ result }
    ensures few { result ≤ 10 ^ 13 }
{
    let span = (to - from).unsigned_abs() as u64;
    round_up(span / 9 + 1)
}

// The last multiple of the step that is not after the place.
fn floor_step(from: i128, step: u64) -> i128
    requires some { 1 ≤ step }
    requires from { neg_ℤ (pos (10 ^ 12)) ≤ℤ from }
    ensures value { result ≡ floor_step_of from step }
    ensures before { result ≤ℤ from }
    ensures after { from <ℤ (result +ℤ pos step) }
{
    from - from.rem_euclid(i128::from(step))
}

/// The axis of days that covers these times, in 10^-12 s past J2000 TDT.
pub fn days_of(first: i128, last: i128) -> Days
    requires ordered { first ≤ℤ last }
    requires from { neg_ℤ (pos (10 ^ 22)) ≤ℤ first }
    requires to { last ≤ℤ pos (10 ^ 22) }
    ensures left { result.left ≡ day_left first last }
    ensures step { result.step ≡ step_over (micro_of first) (micro_of last) }
    ensures from { neg_ℤ (pos (10 ^ 14)) ≤ℤ result.left }
    ensures to { result.left ≤ℤ pos (10 ^ 12) }
    ensures some { 1 ≤ result.step }
    ensures few { result.step ≤ 10 ^ 13 }
    ensures begins { (result.left *ℤ pos per_micro) ≤ℤ first }
    ensures ends { last ≤ℤ ((result.left +ℤ pos (10 * result.step)) *ℤ pos per_micro) }
{
    let from = micro(first);
    let step = day_step(from, micro(last));
    Days {
        left: floor_step(from, step),
        step,
    }
}
