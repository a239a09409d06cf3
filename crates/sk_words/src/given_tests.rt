use super::*;
use std::test::Fail;

#[test]
fn words_are_as_they_were_given(rt: HostRuntime) -> Result<(), Fail> {
    let alloc = rt.alloc();
    let words = ["station", "frob", "--sc=-99", "--tol-ns", "1e6"];
    let given = match given_in(alloc, words.as_slice()) {
        Ok(given) => given,
        Err(_) => return Err("refused".into()),
    };
    assert!(rt; given.command_word() == Some("frob"));
    assert!(rt; given.option(OptionName::Sc) == Some("-99"));
    assert!(rt; given.option(OptionName::TolNs) == Some("1e6"));
    assert!(rt; given.option(OptionName::Kernel).is_none());
    Ok(())
}

#[test]
fn words_that_are_not_taken_are_told_in_claps_words(rt: HostRuntime) -> Result<(), Fail> {
    let alloc = rt.alloc();
    let words = ["station", "normal", "--kernal=k"];
    let is_refused = match given_in(alloc, words.as_slice()) {
        Err(MatchStop::NotTaken) => true,
        _ => false,
    };
    assert!(rt; is_refused);
    let said = refusal_text(alloc, words.as_slice())?;
    assert!(rt;
        said.as_str()
            .starts_with("error: unexpected argument '--kernal' found\n")
    );
    let said = refusal_text(alloc, ["station", "normal", "--help"].as_slice())?;
    assert!(rt; said.as_str().is_empty());
    let said = refusal_text(alloc, ["station", "normal", "--kernel=k"].as_slice())?;
    assert!(rt; said.as_str().is_empty());
    Ok(())
}

#[test]
fn the_first_word_stands_for_the_program(rt: HostRuntime) -> Result<(), Fail> {
    let alloc = rt.alloc();
    let mut given = Vec::new(alloc);
    given.push(String::from_str(alloc, "help")?)?;
    let words = station_words(alloc, &given)?;
    assert_eq!(rt; words.as_slice(), ["station", "help"].as_slice());
    Ok(())
}
