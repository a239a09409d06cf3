use super::*;
use std::test::Fail;

#[test]
fn audit_uses_the_options_of_a_publication_but_its_id(rt: HostRuntime) -> Result<(), Fail> {
    let alloc = rt.alloc();
    let words = [
        "station",
        "audit",
        "--kernel=k",
        "--obs=o",
        "--sc=99",
        "--new=n",
        "--tol-ns=2",
        "--rate-decimals=9",
        "--band-ppm=3",
        "--slip-ns=0",
        "--hold=128000",
        "--id=2024-06-01",
        "--reject=4",
    ];
    let request = match requested(alloc, words.as_slice()) {
        Ok(request) => request,
        Err(_) => return Err("refused".into()),
    };
    assert!(rt; request.command().word() == "audit");
    assert!(rt; request.text(OptionName::New) == Some("n"));
    assert!(rt; request.text(OptionName::Id).is_none());
    assert!(rt; request.tolerance() == 2);
    assert!(rt; request.rate_decimals() == 9);
    assert!(rt; request.band() == 3);
    assert!(rt; request.slip() == 0);
    assert!(rt; request.hold() == Some(128_000));
    assert!(rt; request.reject() == 4);
    Ok(())
}
