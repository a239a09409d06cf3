ghost use Rattle.std.specs.Prelude.{◌^◌, ◌<◌, length, IsTrue};
ghost use Rattle.sk_grammar.specs.Variables.{items_of};

use super::*;
use sk_clock::Clock;
use sk_grammar::{Doc, read_doc};
use sk_pool::Pool;
use std::process::Abort;
use std::test::Fail;

fn has_few_items(doc: &Doc) -> bool
    ensures { IsTrue result → length (items_of doc.now) < 2 ^ 32 }
{
    match doc.blocks.as_slice() {
        [block] => block.items.as_text().len() < 100_000,
        _ => false,
    }
}

// The clock of the sample's kernel.
fn made_clock(rt: &(impl Abort + AllocGlobal)) -> Result<Clock, Fail> {
    let doc = read_doc(rt.alloc(), kernel_text().as_bytes())?;
    assert!(rt; has_few_items(&doc));
    let pool = Pool::of(rt.alloc(), &doc)?;
    Ok(Clock::of(rt.alloc(), &pool, SPACECRAFT)?)
}

// Id, number, tick and time in 10^-12 s of each observation.
fn told(rt: &(impl Abort + AllocGlobal), seed: u32, count: u32) -> Result<String, Fail> {
    let alloc = rt.alloc();
    let clock = made_clock(rt)?;
    assert!(rt; count <= 100_000);
    let mut text = String::new(alloc);
    for made in observations_of(alloc, &clock, seed, count)?.as_slice() {
        for byte in made.id.as_slice() {
            text.push(*byte as char)?;
        }
        let line = format!(in alloc; " {} {} {};", made.number, made.tick, made.time.units)?;
        text.push_str(line.as_str())?;
    }
    Ok(text)
}

#[test]
fn observations_follow_from_the_seed(rt: HostRuntime) -> Result<(), Fail> {
    let table: [(u32, u32, &str); 4] = [
        (1, 0, ""),
        (1, 1, "s1 2 25600 100000063671000;"),
        (
            0,
            2,
            "s1 2 25600 99999999154000;s2 3 51200 199999928934000;",
        ),
        (
            4_294_967_295,
            3,
            "s1 2 25600 99999934637000;s2 3 51200 199999896660000;s3 4 76800 299999864825000;",
        ),
    ];
    for (seed, count, text) in table {
        let made = told(&rt, seed, count)?;
        assert_eq!(rt; made.as_str(), text, "seed {seed}");
    }
    Ok(())
}

#[test]
fn a_hundred_thousand_observations_end_as_computed(rt: HostRuntime) -> Result<(), Fail> {
    let table: [(u32, &str); 2] = [
        (1, "s100000 100001 2560000000 10000000023330465000;"),
        (
            4_294_967_295,
            "s100000 100001 2560000000 9999999990246803000;",
        ),
    ];
    for (seed, last) in table {
        let made = told(&rt, seed, 100_000)?;
        assert!(rt; made.as_str().ends_with(last), "seed {seed}");
    }
    Ok(())
}
