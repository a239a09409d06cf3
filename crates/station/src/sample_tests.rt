use super::*;
use crate::tests::{first_line, output, texts};
use sk_edge::{MemoryDepot, MemorySink};
use std::alloc::{AllocError, Global};
use std::test::Fail;

/// The words of `sample` with these options; an empty one is left out.
fn words_of(alloc: Global, options: [&str; 5]) -> Result<Vec<String>, AllocError> {
    let mut words = texts(alloc, &["sample"])?;
    for option in options {
        if !option.is_empty() {
            words.push(String::from_str(alloc, option)?)?;
        }
    }
    Ok(words)
}

#[test]
fn samples_are_published(rt: HostRuntime) -> Result<(), Fail> {
    let alloc = rt.alloc();
    let wide = "--tol-ns=20000000";
    let narrow = "--tol-ns=1";
    let nine = "--rate-decimals=9";
    let table: [(&str, &str, &str, &str, &str, &str); 10] = [
        (
            "--seed=0",
            "--count=1",
            "",
            "",
            "",
            "sample;0;1;0;846000;0\n",
        ),
        (
            "--seed=0",
            "--count=2",
            "",
            "",
            "",
            "sample;0;2;0;71066000;0\n",
        ),
        (
            "--seed=1",
            "--count=1",
            "",
            "",
            "",
            "sample;1;1;0;63671000;0\n",
        ),
        (
            "--seed=0",
            "--count=3",
            narrow,
            "",
            "",
            "sample;0;3;3;66;51200\n",
        ),
        (
            "--seed=3",
            "--count=10",
            wide,
            "",
            "",
            "sample;3;10;0;175907000;0\n",
        ),
        (
            "--seed=5",
            "--count=40",
            "--tol-ns=200000",
            nine,
            "",
            "sample;5;40;4;197076000;998400\n",
        ),
        (
            "--seed=5",
            "--count=40",
            "--tol-ns=50000",
            nine,
            "",
            "sample;5;40;10;49531855;921600\n",
        ),
        (
            "--seed=7",
            "--count=100",
            narrow,
            "--rate-decimals=12",
            "--band-ppm=1",
            "sample;7;100;100;83;2534400\n",
        ),
        (
            "--seed=1",
            "--count=1000",
            "",
            "",
            "",
            "sample;1;1000;18;999995900;23987200\n",
        ),
        (
            "--seed=4294967295",
            "--count=500",
            "",
            "",
            "",
            "sample;4294967295;500;4;999967400;10803200\n",
        ),
    ];
    for (seed, count, third, fourth, fifth, line) in table {
        let words = words_of(alloc, [seed, count, third, fourth, fifth])?;
        // No file is read: the first call of the depot would fail.
        let mut depot = MemoryDepot::new(Vec::new(alloc), Vec::new(alloc), vec![in alloc; 1]?);
        let mut out = output(alloc, Vec::new(alloc))?;
        let mut notes = output(alloc, Vec::new(alloc))?;
        let status = run(alloc, &words, &mut depot, &mut out, &mut notes);
        assert_eq!(rt; notes.written(), b"".as_slice());
        assert_eq!(rt; out.written(), line.as_bytes());
        assert_eq!(rt; status.code(), 0, "{line}");
    }
    Ok(())
}

#[test]
fn samples_are_refused(rt: HostRuntime) -> Result<(), Fail> {
    let alloc = rt.alloc();
    let table: [(&str, &str, &str, &str, &str, u8, &str); 6] = [
        (
            "--seed=0",
            "",
            "",
            "",
            "",
            2,
            "refused;2;NeedOption;count\n",
        ),
        (
            "",
            "--count=0",
            "",
            "",
            "",
            2,
            "refused;2;NeedOption;seed\n",
        ),
        (
            "--seed=0",
            "--count=0",
            "",
            "",
            "",
            2,
            "refused;2;OutOfRange;count\n",
        ),
        (
            "--seed=4294967296",
            "--count=100001",
            "",
            "",
            "",
            2,
            "refused;2;OutOfRange;seed\n",
        ),
        (
            "--seed=0",
            "--count=1",
            "--kernel=",
            "",
            "",
            2,
            "refused;2;OutOfRange;kernel\n",
        ),
        // The rate 1 alone is allowed, and the clock walks off.
        (
            "--seed=2",
            "--count=60",
            "--tol-ns=100000",
            "--rate-decimals=1",
            "--band-ppm=1",
            6,
            "refused;6;NoRate;12\n",
        ),
    ];
    for (seed, count, third, fourth, fifth, code, line) in table {
        let words = words_of(alloc, [seed, count, third, fourth, fifth])?;
        let mut depot = MemoryDepot::new(Vec::new(alloc), Vec::new(alloc), Vec::new(alloc));
        let mut out = output(alloc, Vec::new(alloc))?;
        let mut notes = output(alloc, Vec::new(alloc))?;
        let status = run(alloc, &words, &mut depot, &mut out, &mut notes);
        assert_eq!(rt; first_line(notes.written()), line.as_bytes());
        assert_eq!(rt; status.code(), code, "{line}");
        assert!(rt; out.written().is_empty(), "{line}");
    }
    Ok(())
}

#[test]
fn what_a_sample_does_not_use_has_its_default(rt: HostRuntime) -> Result<(), Fail> {
    let alloc = rt.alloc();
    let words = words_of(
        alloc,
        [
            "--seed=0",
            "--count=2",
            "--hold=51200",
            "--reject=100000",
            "--kernel=none",
        ],
    )?;
    let mut depot = MemoryDepot::new(Vec::new(alloc), Vec::new(alloc), Vec::new(alloc));
    let mut out = output(alloc, Vec::new(alloc))?;
    let mut notes = output(alloc, Vec::new(alloc))?;
    let status = run(alloc, &words, &mut depot, &mut out, &mut notes);
    assert_eq!(rt; out.written(), b"sample;0;2;0;71066000;0\n".as_slice());
    assert_eq!(rt; status.code(), 0);
    Ok(())
}

#[test]
fn an_output_that_fails_has_a_prefix_of_the_line(rt: HostRuntime) -> Result<(), Fail> {
    let alloc = rt.alloc();
    let words = words_of(alloc, ["--seed=0", "--count=2", "", "", ""])?;
    let mut depot = MemoryDepot::new(Vec::new(alloc), Vec::new(alloc), Vec::new(alloc));
    let mut out = output(alloc, vec![in alloc; 2]?)?;
    let mut notes = output(alloc, Vec::new(alloc))?;
    let status = run(alloc, &words, &mut depot, &mut out, &mut notes);
    assert_eq!(rt; out.written(), b"sample;0;2".as_slice());
    assert_eq!(rt;
        first_line(notes.written()),
        b"refused;8;Write\n".as_slice()
    );
    assert_eq!(rt; status.code(), 8);
    Ok(())
}
