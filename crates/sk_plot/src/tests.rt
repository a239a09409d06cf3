use super::*;
use sk_decimal::Fixed;
use std::alloc::Global;
use std::test::Fail;

// By independent arithmetic.
const HEAD: &str = "<text x=\"120\" y=\"26\" font-size=\"18\">A &amp; B</text>
<text x=\"120\" y=\"46\">2 observations, days 8766.000000 to 8766.041666</text>
<rect class=\"band\" fill=\"#e3f1e8\" x=\"120\" width=\"1000\" y=\"260.00\" height=\"80.00\"/>
";

const MARKS: &str =
    "<text x=\"120\" y=\"72\">Residuals by --kernel in microseconds: 1 of 2 outside 200.000000, the worst 5140.000000 of c</text>
<path stroke=\"#b85c00\" class=\"partition\" stroke-width=\"2.5\" d=\"M536.66 95v410\"/>
<text class=\"number\" fill=\"#b85c00\" text-anchor=\"middle\" x=\"536.66\" y=\"90\">2</text>
<circle class=\"inside\" fill=\"#1d4f91\" cx=\"120.00\" cy=\"260.00\" r=\"2.5\"><title>a&lt;b 1/0:0 200.000000 us</title></circle>
<circle class=\"outside\" fill=\"#c00020\" cx=\"953.33\" cy=\"95.00\" r=\"2.5\"><title>c 1/1:0 5140.000000 us</title></circle>
<text class=\"value\" fill=\"#c00020\" x=\"953.33\" y=\"95.00\" dx=\"6\" dy=\"4\">5140.000000</text>
";

const NEWER_MARKS: &str =
    "<text x=\"120\" y=\"532\">Residuals by --new in microseconds: 1 of 2 outside 200.000000, the worst -201.000000 of c</text>
<circle class=\"inside\" fill=\"#1d4f91\" cx=\"120.00\" cy=\"840.00\" r=\"2.5\"><title>a&lt;b 1/0:0 -100.000000 us</title></circle>
<circle class=\"outside\" fill=\"#c00020\" cx=\"953.33\" cy=\"920.80\" r=\"2.5\"><title>c 1/1:0 -201.000000 us</title></circle>
";

const STEPS: &str =
    "<path class=\"rate\" fill=\"none\" stroke=\"#6b2d90\" stroke-width=\"2\" d=\"M120.00 760.00H536.66\"><title>triple 1: 0.000000</title></path>
<path class=\"rate\" fill=\"none\" stroke=\"#6b2d90\" stroke-width=\"2\" d=\"M536.66 612.00H1120.00\"><title>triple 2: 37.000000</title></path>
<text x=\"120\" y=\"985\" text-anchor=\"middle\">8766.000000</text>
";

const TAIL: &str =
    "<text x=\"120\" font-size=\"11\" y=\"1012\">foot &quot;1&quot;</text>\n</svg>\n";

const NEWER_TAIL: &str =
    "<text x=\"120\" font-size=\"11\" y=\"1472\">foot &quot;1&quot;</text>\n</svg>\n";

fn holds(text: &[u8], part: &[u8]) -> bool {
    if part.is_empty() {
        return true;
    }
    text.windows(part.len()).any(|window| window == part)
}

fn bytes(alloc: Global, text: &str) -> Result<Vec<u8>, Fail> {
    let mut out = Vec::new(alloc);
    out.extend_from_slice(text.as_bytes())?;
    Ok(out)
}

#[test]
fn names_are_escaped(rt: HostRuntime) -> Result<(), Fail> {
    let alloc = rt.alloc();
    let mut out = Vec::new(alloc);
    push_escaped(&mut out, b"a<b>&\"'\x01\xff~")?;
    assert!(rt; out.as_slice() == b"a&lt;b&gt;&amp;&quot;&apos;??~".as_slice());
    Ok(())
}

#[test]
fn steps_are_round(rt: HostRuntime) -> Result<(), Fail> {
    let table: [(u64, u64); 8] = [
        (0, 1),
        (1, 1),
        (2, 2),
        (3, 5),
        (6, 10),
        (40_000_001, 50_000_000),
        (50_000_001, 100_000_000),
        (1_000_000_000_000_000_000, 1_000_000_000_000_000_000),
    ];
    for (wanted, step) in table {
        assert_eq!(rt; round_up(wanted), step);
    }
    Ok(())
}

const DAY: i128 = 757_382_400_000_000_000_000;

const HOUR: i128 = 3_600_000_000_000_000;

/// Two observations an hour apart, with these residuals in 10^-12 s.
fn points(alloc: Global, first: i128, second: i128) -> Result<Vec<Point>, Fail> {
    let mut points = Vec::new(alloc);
    for (id, clock, time, residual) in [
        ("a<b", "1/0:0", DAY, first),
        ("c", "1/1:0", DAY + HOUR, second),
    ] {
        points.push(Point {
            id: bytes(alloc, id)?,
            clock: bytes(alloc, clock)?,
            time: Fixed { units: time },
            residual: Fixed { units: residual },
        })?;
    }
    Ok(points)
}

/// The triple from two days before up to the middle of the hour, and one behind it that begins a partition.
fn pieces(alloc: Global, count: usize) -> Result<Vec<Piece>, Fail> {
    let (begin, middle, end) = (DAY - 48 * HOUR, DAY + HOUR / 2, DAY * 2);
    let mut pieces = Vec::new(alloc);
    for (number, from, to, begins_partition, drift) in [
        (1, begin, middle, false, 0),
        (2, middle, end, true, 37_000_000),
    ] {
        if number <= count as u64 {
            pieces.push(Piece {
                number,
                from: Fixed { units: from },
                to: Fixed { units: to },
                begins_partition,
                drift: Fixed { units: drift },
            })?;
        }
    }
    Ok(pieces)
}

#[test]
fn a_picture_has_its_marks_and_lines(rt: HostRuntime) -> Result<(), Fail> {
    let alloc = rt.alloc();
    let drawing = Drawing {
        title: bytes(alloc, "A & B")?,
        foot: bytes(alloc, "foot \"1\"")?,
        tolerance: 200_000_000,
    };
    let panel = Panel {
        points: points(alloc, 200_000_000, 5_140_000_000)?,
        pieces: pieces(alloc, 2)?,
    };
    let newer = Panel {
        points: points(alloc, -100_000_000, -201_000_000)?,
        pieces: pieces(alloc, 1)?,
    };
    let made = picture(alloc, &drawing, &panel, None)?;
    for part in [HEAD, MARKS, STEPS] {
        assert!(rt; holds(made.as_slice(), part.as_bytes()), "{part}");
    }
    assert!(rt; made.as_slice().ends_with(TAIL.as_bytes()));
    assert_eq!(rt; made.len(), 5_619);
    let both = picture(alloc, &drawing, &panel, Some(&newer))?;
    for part in [HEAD, MARKS, NEWER_MARKS] {
        assert!(rt; holds(both.as_slice(), part.as_bytes()), "{part}");
    }
    assert!(rt; both.as_slice().ends_with(NEWER_TAIL.as_bytes()));
    assert_eq!(rt; both.len(), 7_600);
    Ok(())
}
