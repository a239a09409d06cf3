ghost use Rattle.std.specs.Prelude.{◌≡◌, ◌^◌, ◌<◌, length, IsTrue, IfOk};
ghost use Rattle.sk_grammar.specs.Variables.{items_of};

use crate::{Pool, PoolFault};
use sk_grammar::{Bytes, Doc, Value, read_doc};
use std::alloc::Global;
use std::process::Abort;
use std::test::Fail;

fn has_few_items(doc: &Doc) -> bool
    ensures { IsTrue result → length (items_of doc.now) < 2 ^ 32 }
{
    match doc.blocks.as_slice() {
        [block] => block.items.as_text().len() < 4_000_000,
        _ => false,
    }
}

fn read(rt: &(impl Abort + AllocGlobal), text: &[u8]) -> Result<Doc, Fail>
    ensures { IfOk result (λ doc. length (items_of doc) < 2 ^ 32) }
{
    assert!(rt; text.len() < 4_000_000);
    let doc = read_doc(rt.alloc(), text)?;
    assert!(rt; has_few_items(&doc));
    Ok(doc)
}

fn shown(alloc: Global, values: Option<&[Value]>) -> Result<Vec<u8>, Fail> {
    let mut text = Vec::new(alloc);
    for value in values.ok_or("no variable")? {
        if !text.is_empty() {
            text.push(b' ')?;
        }
        match value {
            Value::Number(number) => number.print(&mut text)?,
            Value::Date(bytes) | Value::Text(bytes) => text.extend_from_slice(bytes.as_slice())?,
        }
    }
    Ok(text)
}

fn expect_shown(
    rt: &(impl Abort + AllocGlobal),
    pool: &Pool,
    name: &[u8],
    values: &[u8],
) -> Result<(), Fail> {
    let text = shown(rt.alloc(), pool.values(name))?;
    assert_eq!(rt; text.as_slice(), values);
    Ok(())
}

fn expect_names(rt: &impl Abort, names: &[Bytes], first: &[u8], second: &[u8]) {
    match names {
        [one, two] => {
            assert_eq!(rt; one.as_slice(), first);
            assert_eq!(rt; two.as_slice(), second);
        }
        _ => assert!(rt; false, "{} names", names.len()),
    }
}

// The variables A and B alone have these values, in this order.
fn expect_both(
    rt: &(impl Abort + AllocGlobal),
    pool: &Pool,
    first: &[u8],
    second: &[u8],
) -> Result<(), Fail> {
    expect_names(rt, pool.names(), b"A", b"B");
    expect_shown(rt, pool, b"A", first)?;
    expect_shown(rt, pool, b"B", second)?;
    Ok(())
}

fn expect_values(
    rt: &(impl Abort + AllocGlobal),
    text: &[u8],
    first: &[u8],
    second: &[u8],
) -> Result<(), Fail> {
    let doc = read(rt, text)?;
    match Pool::of(rt.alloc(), &doc) {
        Ok(pool) => expect_both(rt, &pool, first, second)?,
        Err(_) => assert!(rt; false, "refused"),
    }
    Ok(())
}

#[test]
fn variables_have_their_values(rt: HostRuntime) -> Result<(), Fail> {
    // A later item replaces, a later append follows, and what was appended is replaced too.
    expect_values(&rt, b"\\begindata\nA = 1\nB = 2\nA = 3", b"3", b"2")?;
    expect_values(
        &rt,
        b"\\begindata\nA = 1\nA += (2 3)\nB = 5\nA += 4",
        b"1 2 3 4",
        b"5",
    )?;
    expect_values(
        &rt,
        b"\\begindata\nA = 1\nA += 2\nB = 5\nA = 3\nA += 4",
        b"3 4",
        b"5",
    )
}

#[test]
fn appends_create_and_join(rt: HostRuntime) -> Result<(), Fail> {
    expect_values(&rt, b"\\begindata\nA += 1\nB += 2\nA += 3", b"1 3", b"2")?;
    expect_values(
        &rt,
        b"\\begindata\nA = 'x'\nB = 1\nA += ('y' 'z')",
        b"x y z",
        b"1",
    )?;
    // Numbers and dates are no texts.
    expect_values(
        &rt,
        b"\\begindata\nA = 1\nA += @2000\nB = -0.50",
        b"1 @2000",
        b"-0.5",
    )
}

fn expect_mixed(rt: &(impl Abort + AllocGlobal), text: &[u8], item: u32) -> Result<(), Fail> {
    match Pool::of(rt.alloc(), &read(rt, text)?) {
        Ok(_) => assert!(rt; false, "item {item} was taken"),
        Err(fault) => assert_eq!(rt; fault, PoolFault::AppendMixed(item)),
    }
    Ok(())
}

#[test]
fn mixed_kinds_are_refused(rt: HostRuntime) -> Result<(), Fail> {
    expect_mixed(&rt, b"\\begindata\nA = 1\nA += 'x'", 2)?;
    expect_mixed(&rt, b"\\begindata\nA = 'x'\nB = 1\nA += 2", 3)?;
    expect_mixed(
        &rt,
        b"\\begindata\nB = 1\nA = 1\nA = 'x'\nA += 'y'\nA += @2000\nB += 'x'",
        5,
    )
}

// The variable is this one number; nothing stands for none.
fn expect_number(
    rt: &(impl Abort + AllocGlobal),
    pool: &Pool,
    name: &[u8],
    number: &[u8],
) -> Result<(), Fail> {
    let mut text = Vec::new(rt.alloc());
    if let Some(found) = pool.one_number(name) {
        found.print(&mut text)?;
    }
    assert_eq!(rt; text.as_slice(), number);
    Ok(())
}

#[test]
fn one_number_is_one_number(rt: HostRuntime) -> Result<(), Fail> {
    let doc = read(&rt, b"\\begindata\nA = 2.50\nB = (1 2)\nC = '1'\nE += -7")?;
    let pool = Pool::of(rt.alloc(), &doc)?;
    expect_number(&rt, &pool, b"A", b"2.5")?;
    expect_number(&rt, &pool, b"E", b"-7")?;
    expect_number(&rt, &pool, b"B", b"")?;
    expect_number(&rt, &pool, b"C", b"")?;
    expect_number(&rt, &pool, b"F", b"")
}

#[test]
fn a_hundred_thousand_variables_are_found(rt: HostRuntime) -> Result<(), Fail> {
    let alloc = rt.alloc();
    let mut text = String::from_str(alloc, "\\begindata\n")?;
    for k in 0..100_000u32 {
        let item = format!(in alloc; "V{k}=1\n")?;
        text.push_str(item.as_str())?;
    }
    text.push_str("V0 += 2\nV99999 = 3\n")?;
    let doc = read(&rt, text.as_bytes())?;
    let pool = Pool::of(alloc, &doc)?;
    assert_eq!(rt; pool.names().len(), 100_000);
    expect_shown(&rt, &pool, b"V0", b"1 2")?;
    expect_shown(&rt, &pool, b"V50000", b"1")?;
    expect_shown(&rt, &pool, b"V99999", b"3")
}
