use super::*;
use crate::matched::{MatchStop, matches_in};
use std::alloc::Global;
use std::test::Fail;

#[test]
fn words_are_one_command_with_options(rt: HostRuntime) -> Result<(), Fail> {
    let alloc = rt.alloc();
    let words = [
        "station",
        "frob",
        "--kernel=k",
        "--obs",
        "o",
        "--id=",
        "--over",
        "",
    ];
    let matches = match matches_in(alloc, words.as_slice()) {
        Ok(matches) => matches,
        Err(_) => return Err("refused".into()),
    };
    assert!(rt; matches.get_str("command") == Some("frob"));
    assert!(rt; matches.get_str("kernel") == Some("k"));
    assert!(rt; matches.get_str("obs") == Some("o"));
    assert!(rt; matches.get_str("id") == Some(""));
    assert!(rt; matches.get_str("over") == Some(""));
    assert!(rt; matches.get_str("leap").is_none());
    Ok(())
}

#[test]
fn other_words_are_not_taken(rt: HostRuntime) {
    let alloc = rt.alloc();
    let table: [&[&str]; 9] = [
        &["station"],
        &["station", "normal", "--kernel=k", "--kernel=k"],
        &["station", "normal", "more"],
        &["station", "--help"],
        &["station", "--version"],
        &["station", "normal", "--unknown=1"],
        &["station", "invert", "--time", "-1"],
        &["station", "normal", "--sc", "-99"],
        &["station", "normal", "--kernel"],
    ];
    for (place, words) in table.iter().enumerate() {
        let is_refused = match matches_in(alloc, words) {
            Err(MatchStop::NotTaken) => true,
            _ => false,
        };
        assert!(rt; is_refused, "at {place}");
    }
}

#[test]
fn words_ask_for_a_command_with_the_options_that_it_uses(rt: HostRuntime) -> Result<(), Fail> {
    let alloc = rt.alloc();
    let words = [
        "station",
        "residuals",
        "--kernel=k",
        "--obs=o",
        "--sc=0099",
        "--id=2024-06-01",
    ];
    let request = match requested(alloc, words.as_slice()) {
        Ok(request) => request,
        Err(_) => return Err("refused".into()),
    };
    assert!(rt; request.command().word() == "residuals");
    assert!(rt; request.text(OptionName::Kernel) == Some("k"));
    assert!(rt; request.text(OptionName::Leap).is_none());
    assert!(rt; request.text(OptionName::Id).is_none());
    assert!(rt; request.text_or_empty(OptionName::Obs) == "o");
    assert!(rt; request.text_or_empty(OptionName::Leap).is_empty());
    Ok(())
}

#[test]
fn the_number_of_a_spacecraft_may_have_its_sign(rt: HostRuntime) -> Result<(), Fail> {
    let alloc = rt.alloc();
    let table: [(&str, &str); 6] = [
        ("--sc=99", "99"),
        ("--sc=-99", "99"),
        ("--sc=-1", "1"),
        ("--sc=-999999999", "999999999"),
        ("--sc=-0000000000000099", "0000000000000099"),
        ("--sc=0000000000000099", "0000000000000099"),
    ];
    for (place, (word, number)) in table.iter().enumerate() {
        let words = ["station", "residuals", "--kernel=k", "--obs=o", *word];
        let request = match requested(alloc, words.as_slice()) {
            Ok(request) => request,
            Err(_) => return Err("refused".into()),
        };
        assert!(rt;
            request.text_or_empty(OptionName::Sc) == *number,
            "at {place}"
        );
    }
    Ok(())
}

/// The words are refused, with an option's name where it is refused.
fn refusal(alloc: Global, words: &[&str]) -> (&'static str, &'static str) {
    match requested(alloc, words) {
        Ok(_) => ("Taken", ""),
        Err(WordsStop::Refused(WordsFault::NotTaken)) => ("NotTaken", ""),
        Err(WordsStop::Refused(WordsFault::UnknownCommand)) => ("UnknownCommand", ""),
        Err(WordsStop::Refused(WordsFault::NeedOption(name))) => ("NeedOption", name.word()),
        Err(WordsStop::Refused(WordsFault::OutOfRange(name))) => ("OutOfRange", name.word()),
        Err(WordsStop::NoMemory) => ("NoMemory", ""),
    }
}

#[test]
fn words_are_judged_in_the_order_of_the_tables(rt: HostRuntime) {
    let alloc = rt.alloc();
    let table: [(&[&str], &str, &str); 18] = [
        (&["station", "normal", "--kernel="], "OutOfRange", "kernel"),
        (&["station", "normal"], "NeedOption", "kernel"),
        (&["station", "frob", "--kernel=k"], "UnknownCommand", ""),
        (
            &["station", "residuals", "--sc=99", "--obs=o"],
            "NeedOption",
            "kernel",
        ),
        // An option that the command does not use is judged as well.
        (
            &["station", "normal", "--kernel=k", "--sc=1000000000"],
            "OutOfRange",
            "sc",
        ),
        (
            &["station", "normal", "--kernel=k", "--sc=00000000000000099"],
            "OutOfRange",
            "sc",
        ),
        (
            &["station", "normal", "--kernel=k", "--over=a,,b"],
            "OutOfRange",
            "over",
        ),
        (
            &["station", "normal", "--kernel=k", "--id=x"],
            "OutOfRange",
            "id",
        ),
        (
            &["station", "normal", "--kernel=k", "--hold=0"],
            "Taken",
            "",
        ),
        (
            &["station", "invert", "--sc=99", "--kernel=k"],
            "NeedOption",
            "time",
        ),
        (
            &["station", "invert", "--time=", "--sc=99", "--kernel=k"],
            "Taken",
            "",
        ),
        (
            &["station", "least", "--sc=99", "--kernel=k"],
            "NeedOption",
            "obs",
        ),
        (
            &["station", "least", "--sc=99", "--kernel=k", "--obs=o"],
            "Taken",
            "",
        ),
        (
            &["station", "plot", "--sc=99", "--kernel=k"],
            "NeedOption",
            "obs",
        ),
        (
            &["station", "plot", "--sc=99", "--kernel=k", "--obs=o"],
            "Taken",
            "",
        ),
        (
            &[
                "station",
                "plot",
                "--sc=99",
                "--kernel=k",
                "--obs=o",
                "--new=",
            ],
            "OutOfRange",
            "new",
        ),
        (
            &["station", "audit", "--sc=99", "--kernel=k", "--obs=o"],
            "NeedOption",
            "new",
        ),
        (
            &[
                "station",
                "audit",
                "--new=",
                "--sc=99",
                "--kernel=k",
                "--obs=o",
            ],
            "OutOfRange",
            "new",
        ),
    ];
    for (place, (words, cause, name)) in table.iter().enumerate() {
        assert!(rt; refusal(alloc, words) == (*cause, *name), "at {place}");
    }
}

/// What is refused of `publish` with all that it needs and one further word.
fn refusal_of_publish(alloc: Global, word: &str) -> (&'static str, &'static str) {
    let words = [
        "station",
        "publish",
        "--kernel=k",
        "--obs=o",
        "--sc=99",
        word,
    ];
    refusal(alloc, words.as_slice())
}

#[test]
fn publish_takes_what_is_in_range(rt: HostRuntime) {
    let alloc = rt.alloc();
    let taken: [&str; 23] = [
        "--leap=l",
        "--tol-ns=1",
        "--tol-ns=60000000000",
        "--rate-decimals=1",
        "--rate-decimals=15",
        "--band-ppm=1",
        "--band-ppm=100000",
        "--slip-ns=0",
        "--slip-ns=60000000000",
        "--hold=0",
        "--hold=9007199254740991",
        // Dates of each form; they may be more than 10^10 s from 2000.
        "--id=2024-06-01",
        "--id=2024-JUN-1",
        "--id=19-JAN-2006/18:09:05.184",
        "--id=2024-153t00:00",
        "--id=1600-01-01",
        "--id=2399-12-31",
        "--id=19-jan-2006-18:09:05.123456789012345678",
        "--reject=0",
        "--reject=100000",
        "--reject=0000000000000001",
        // Options of other commands are taken, and are not used.
        "--clock=",
        "--count=1",
    ];
    for (place, word) in taken.iter().enumerate() {
        assert!(rt;
            refusal_of_publish(alloc, word) == ("Taken", ""),
            "at {place}"
        );
    }
}

#[test]
fn publish_refuses_what_is_out_of_range(rt: HostRuntime) {
    let alloc = rt.alloc();
    let refused: [(&str, &str); 33] = [
        ("--leap=", "leap"),
        ("--tol-ns=0", "tol-ns"),
        ("--tol-ns=60000000001", "tol-ns"),
        ("--tol-ns=1e3", "tol-ns"),
        ("--tol-ns=", "tol-ns"),
        ("--rate-decimals=0", "rate-decimals"),
        ("--rate-decimals=16", "rate-decimals"),
        ("--band-ppm=0", "band-ppm"),
        ("--band-ppm=100001", "band-ppm"),
        ("--slip-ns=-1", "slip-ns"),
        ("--tol-ns=-1", "tol-ns"),
        ("--hold=-0", "hold"),
        ("--reject=-1", "reject"),
        ("--slip-ns=60000000001", "slip-ns"),
        ("--hold=9007199254740992", "hold"),
        ("--hold=+1", "hold"),
        // Texts that no kernel can have as a date.
        ("--id=", "id"),
        ("--id=x", "id"),
        ("--id=@2024-06-01", "id"),
        ("--id=2024-06", "id"),
        ("--id=2024-6-1", "id"),
        ("--id=2023-02-29", "id"),
        ("--id=2024-06-01T24:00", "id"),
        ("--id=2024-06-01T00:00:60", "id"),
        ("--id=2024-06-01Z", "id"),
        ("--id=2024-06-01 00:00", "id"),
        ("--id=19-jan-2006-18:09:05.1234567890123456789", "id"),
        ("--id=1599-12-31", "id"),
        ("--reject=100001", "reject"),
        ("--reject=00000000000000001", "reject"),
        // So are options of other commands.
        ("--count=0", "count"),
        ("--seed=4294967296", "seed"),
        ("--over=", "over"),
    ];
    for (place, (word, name)) in refused.iter().enumerate() {
        assert!(rt;
            refusal_of_publish(alloc, word) == ("OutOfRange", *name),
            "at {place}"
        );
    }
}

#[test]
fn other_numbers_of_a_spacecraft_are_refused(rt: HostRuntime) {
    let alloc = rt.alloc();
    let refused: [&str; 11] = [
        "--sc=",
        "--sc=-",
        "--sc=0",
        "--sc=-0",
        "--sc=--99",
        "--sc=+99",
        "--sc=99-",
        "--sc=- 99",
        "--sc=1000000000",
        "--sc=-1000000000",
        // Seventeen digits.
        "--sc=-00000000000000099",
    ];
    for (place, word) in refused.iter().enumerate() {
        let words = ["station", "normal", "--kernel=k", *word];
        assert!(rt;
            refusal(alloc, words.as_slice()) == ("OutOfRange", "sc"),
            "at {place}"
        );
    }
}

#[test]
fn publish_is_judged_in_the_order_of_the_tables(rt: HostRuntime) {
    let alloc = rt.alloc();
    let table: [(&[&str], &str, &str); 6] = [
        (&["station", "publish"], "NeedOption", "kernel"),
        (&["station", "publish", "--kernel=k"], "NeedOption", "obs"),
        (
            &["station", "publish", "--obs=", "--kernel=k"],
            "NeedOption",
            "sc",
        ),
        (
            &["station", "publish", "--sc=0", "--id=", "--obs=o"],
            "NeedOption",
            "kernel",
        ),
        (
            &[
                "station",
                "publish",
                "--reject=x",
                "--hold=x",
                "--sc=99",
                "--obs=o",
                "--kernel=k",
            ],
            "OutOfRange",
            "hold",
        ),
        (
            &[
                "station",
                "publish",
                "--tol-ns=0",
                "--sc=1000000000",
                "--obs=o",
                "--kernel=k",
            ],
            "OutOfRange",
            "sc",
        ),
    ];
    for (place, (words, cause, name)) in table.iter().enumerate() {
        assert!(rt; refusal(alloc, words) == (*cause, *name), "at {place}");
    }
}

#[test]
fn what_is_not_given_has_its_default(rt: HostRuntime) -> Result<(), Fail> {
    let alloc = rt.alloc();
    let words = ["station", "publish", "--kernel=k", "--obs=o", "--sc=99"];
    let request = match requested(alloc, words.as_slice()) {
        Ok(request) => request,
        Err(_) => return Err("refused".into()),
    };
    assert!(rt; request.command().word() == "publish");
    assert!(rt; request.tolerance() == 1_000_000);
    assert!(rt; request.rate_decimals() == 12);
    assert!(rt; request.band() == 1000);
    assert!(rt; request.slip() == 1_000_000);
    assert!(rt; request.hold().is_none());
    assert!(rt; request.reject() == 0);
    assert!(rt; request.text(OptionName::Id).is_none());
    Ok(())
}

#[test]
fn what_is_given_is_used(rt: HostRuntime) -> Result<(), Fail> {
    let alloc = rt.alloc();
    let words = [
        "station",
        "publish",
        "--kernel=k",
        "--obs=o",
        "--sc=99",
        "--tol-ns=2",
        "--rate-decimals=09",
        "--band-ppm=3",
        "--slip-ns=0",
        "--hold=128000",
        "--id=2024-06-01",
        "--reject=4",
    ];
    let request = match requested(alloc, words.as_slice()) {
        Ok(request) => request,
        Err(_) => return Err("refused".into()),
    };
    assert!(rt; request.tolerance() == 2);
    assert!(rt; request.rate_decimals() == 9);
    assert!(rt; request.band() == 3);
    assert!(rt; request.slip() == 0);
    assert!(rt; request.hold() == Some(128_000));
    assert!(rt; request.reject() == 4);
    assert!(rt; request.text(OptionName::Id) == Some("2024-06-01"));
    Ok(())
}

#[test]
fn what_the_command_does_not_use_has_its_default(rt: HostRuntime) -> Result<(), Fail> {
    let alloc = rt.alloc();
    let words = [
        "station",
        "residuals",
        "--kernel=k",
        "--obs=o",
        "--sc=99",
        "--tol-ns=2",
        "--hold=3",
    ];
    let request = match requested(alloc, words.as_slice()) {
        Ok(request) => request,
        Err(_) => return Err("refused".into()),
    };
    assert!(rt; request.tolerance() == 1_000_000);
    assert!(rt; request.hold().is_none());
    Ok(())
}

#[test]
fn a_sample_needs_a_seed_and_a_count(rt: HostRuntime) -> Result<(), Fail> {
    let alloc = rt.alloc();
    // The options that are given, what is refused, and of which option.
    let table: [(&str, &str, &str, &str); 9] = [
        ("--seed=0", "--seed=0", "NotTaken", ""),
        ("--count=1", "--tol-ns=1", "NeedOption", "seed"),
        ("--seed=x", "--tol-ns=0", "NeedOption", "count"),
        ("--seed=4294967296", "--count=0", "OutOfRange", "seed"),
        ("--seed=-1", "--count=1", "OutOfRange", "seed"),
        ("--seed=0", "--count=0", "OutOfRange", "count"),
        ("--seed=0", "--count=100001", "OutOfRange", "count"),
        ("--seed=4294967295", "--count=100000", "Taken", ""),
        (
            "--seed=0000000000000000",
            "--count=0000000000000001",
            "Taken",
            "",
        ),
    ];
    for (place, (first, second, cause, name)) in table.iter().enumerate() {
        let words = ["station", "sample", *first, *second];
        assert!(rt;
            refusal(alloc, words.as_slice()) == (*cause, *name),
            "at {place}"
        );
    }
    let words = [
        "station",
        "sample",
        "--seed=4294967295",
        "--count=100000",
        "--slip-ns=0",
        "--band-ppm=7",
    ];
    let request = match requested(alloc, words.as_slice()) {
        Ok(request) => request,
        Err(_) => return Err("refused".into()),
    };
    assert!(rt; request.seed() == 4_294_967_295);
    assert!(rt; request.count() == 100_000);
    assert!(rt; request.band() == 7);
    // A sample has the default slip.
    assert!(rt; request.slip() == 1_000_000);
    Ok(())
}
