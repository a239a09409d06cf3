use crate::Ratio;
use sk_decimal::Fixed;
use std::cmp::Ordering;

// The parts of a fraction.
fn parts(ratio: Option<Ratio>) -> Option<(i128, i128)> {
    match ratio {
        Some(ratio) => Some((ratio.num, ratio.den)),
        None => None,
    }
}

#[test]
fn adds_fractions(rt: HostRuntime) {
    let table = [
        (1, 3, 1, 3, Some((2, 3))),
        (1, 2, -1, 3, Some((1, 6))),
        (i128::MAX, 7, 0, 7, Some((i128::MAX, 7))),
        (i128::MAX, 7, 1, 7, None),
        (i128::MIN, 7, -1, 7, None),
        (i128::MAX, 1, 0, 2, None),
        (0, 1 << 64, 0, 1 << 63, None),
        (0, 1 << 64, 0, 1 << 62, Some((0, 1 << 126))),
        (1 << 126, 1, 0, 2, None),
        (-(1 << 126), 1, 0, 2, Some((i128::MIN, 2))),
        (-(1 << 126), 1, -1, 2, None),
        (-1, 2, -(1 << 126), 1, None),
    ];
    for (num, den, other_num, other_den, want) in table {
        assert!(rt; den > 0);
        assert!(rt; other_den > 0);
        let one = Ratio { num, den };
        let other = Ratio {
            num: other_num,
            den: other_den,
        };
        assert_eq!(rt; parts(one.add(other)), want, "at {num} over {den}");
    }
}

#[test]
fn multiplies_by_whole_numbers(rt: HostRuntime) {
    let table = [
        (1, -6, Some((-6, 3))),
        (i128::MAX, -1, Some((-i128::MAX, 3))),
        (i128::MAX, 2, None),
        (i128::MIN, 1, Some((i128::MIN, 3))),
        (i128::MIN, -1, None),
        (i128::MIN, 0, Some((0, 3))),
        (1 << 126, 2, None),
        (1 << 126, -2, Some((i128::MIN, 3))),
    ];
    for (num, k, want) in table {
        let ratio = Ratio { num, den: 3 };
        assert_eq!(rt; parts(ratio.mul_whole(k)), want, "at {num} and {k}");
    }
}

#[test]
fn compares_fractions(rt: HostRuntime) {
    let table = [
        (1, 2, 1, 3, Some(Ordering::Greater)),
        (2, 6, 1, 3, Some(Ordering::Equal)),
        (-1, 2, -1, 3, Some(Ordering::Less)),
        (i128::MIN, 7, i128::MAX, 7, Some(Ordering::Less)),
        (i128::MAX, 1, i128::MAX, 2, None),
        (i128::MIN, 1, 0, 2, None),
        (0, 2, i128::MIN, 1, None),
        (1 << 126, 1, 1, 2, None),
        (-(1 << 126), 1, 1, 2, Some(Ordering::Less)),
        (1, 2, -(1 << 126), 1, Some(Ordering::Greater)),
    ];
    for (num, den, other_num, other_den, want) in table {
        assert!(rt; den > 0);
        assert!(rt; other_den > 0);
        let one = Ratio { num, den };
        let other = Ratio {
            num: other_num,
            den: other_den,
        };
        assert_eq!(rt; one.compare(other), want, "at {num} over {den}");
    }
}

#[test]
fn counts_whole_units(rt: HostRuntime) {
    let time = Ratio {
        num: -7,
        den: 2_000_000,
    };
    assert_eq!(rt; time.floor_units::<12>(), Some(Fixed { units: -1 }));
    assert_eq!(rt; time.ceil_units::<12>(), Some(Fixed { units: 0 }));
    assert_eq!(rt; time.floor_units::<18>(), Some(Fixed { units: -1 }));
    let least = Ratio {
        num: i128::MIN,
        den: 1,
    };
    assert_eq!(rt; least.floor_units::<18>(), Some(Fixed { units: i128::MIN }));
    assert_eq!(rt; least.ceil_units::<18>(), Some(Fixed { units: i128::MIN }));
    let deep = Ratio {
        num: 1,
        den: i128::MAX,
    };
    assert_eq!(rt; deep.ceil_units::<18>(), Some(Fixed { units: 1 }));
    assert_eq!(rt; deep.ceil_units::<17>(), None);
    assert_eq!(rt; deep.floor_units::<17>(), None);
}

#[test]
fn divisors_have_a_limit(rt: HostRuntime) {
    // The greatest denominator of which 10^18 times fit.
    let last = Ratio {
        num: i128::MAX,
        den: 170141183460469231731,
    };
    assert_eq!(rt; last.floor_units::<0>(), Some(Fixed { units: 1 }));
    assert_eq!(rt; last.ceil_units::<0>(), Some(Fixed { units: 2 }));
    let past = Ratio {
        num: 0,
        den: 170141183460469231732,
    };
    assert_eq!(rt; past.floor_units::<0>(), None);
    assert_eq!(rt; past.ceil_units::<0>(), None);
    assert_eq!(rt; past.floor_units::<1>(), Some(Fixed { units: 0 }));
}
