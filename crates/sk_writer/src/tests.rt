use crate::{append_block, write_doc};
use sk_grammar::{Block, Doc, Items, Lines, read_doc};
use std::process::Abort;
use std::test::Fail;

fn read(rt: &(impl Abort + AllocGlobal), text: &[u8]) -> Result<Doc, Fail> {
    assert!(rt; text.len() < 2000);
    Ok(read_doc(rt.alloc(), text)?)
}

// The text's document is written so, and so is the document of what was written.
fn expect_written(
    rt: &(impl Abort + AllocGlobal),
    text: &[u8],
    canonical: &[u8],
) -> Result<(), Fail> {
    let written = write_doc(rt.alloc(), &read(rt, text)?)?;
    assert_eq!(rt; written.as_slice(), canonical);
    let again = write_doc(rt.alloc(), &read(rt, written.as_slice())?)?;
    assert_eq!(rt; again.as_slice(), canonical);
    Ok(())
}

#[test]
fn texts_and_numbers(rt: HostRuntime) -> Result<(), Fail> {
    expect_written(&rt, b"", b"")?;
    expect_written(&rt, b"a line\n\nlast", b"a line\n\nlast\n")?;
    expect_written(
        &rt,
        b"\\begindata\r\nA = 'don''t'\r\nX += 3\r\nY = 1.657D-3\r\n",
        b"\\begindata\nA = 'don''t'\nX += 3\nY = 0.001657\n\\begintext\n",
    )
}

#[test]
fn the_greatest_number(rt: HostRuntime) -> Result<(), Fail> {
    expect_written(
        &rt,
        b"\\begindata\nX = 170141183460469231731687303715884105727",
        b"\\begindata\nX = 170141183460469231731687303715884105727\n\\begintext\n",
    )
}

#[test]
fn vectors(rt: HostRuntime) -> Result<(), Fail> {
    expect_written(
        &rt,
        b"\\begindata\nN+=(1 2 3 -0.5)\nD = ( 10, @1972-JAN-1 )\n\\begintext\nlast",
        b"\\begindata\nN += (\n1 2 3\n-0.5\n)\nD = (\n10\n@1972-JAN-1\n)\n\\begintext\nlast\n",
    )
}

#[test]
fn a_line_of_132_bytes(rt: HostRuntime) -> Result<(), Fail> {
    expect_written(
        &rt,
        b"\\begindata\nAAAAAAAAAAAAAAAAAAAAAAAAAAAAAAAA = 'xxxxxxxxxxxxxxxxxxxxxxxxxxxxxxxxxxxxxxxxxxxxxxxxxxxxxxxxxxxxxxxxx'''''''''''''''''''''''''''''''",
        b"\\begindata\nAAAAAAAAAAAAAAAAAAAAAAAAAAAAAAAA = 'xxxxxxxxxxxxxxxxxxxxxxxxxxxxxxxxxxxxxxxxxxxxxxxxxxxxxxxxxxxxxxxxx'''''''''''''''''''''''''''''''\n\\begintext\n",
    )
}

#[test]
fn no_line_of_133_bytes(rt: HostRuntime) -> Result<(), Fail> {
    expect_written(
        &rt,
        b"\\begindata\nAAAAAAAAAAAAAAAAAAAAAAAAAAAAAAAA =\n'xxxxxxxxxxxxxxxxxxxxxxxxxxxxxxxxxxxxxxxxxxxxxxxxxxxxxxxxxxxxxxxx'''''''''''''''''''''''''''''''''",
        b"\\begindata\nAAAAAAAAAAAAAAAAAAAAAAAAAAAAAAAA = (\n'xxxxxxxxxxxxxxxxxxxxxxxxxxxxxxxxxxxxxxxxxxxxxxxxxxxxxxxxxxxxxxxx'''''''''''''''''''''''''''''''''\n)\n\\begintext\n",
    )
}

#[test]
fn a_block_is_put_last(rt: HostRuntime) -> Result<(), Fail> {
    let doc = read(&rt, b"head\n\\begindata\nA = 1")?;
    let items = Items::new(rt.alloc());
    let text = Lines::new(rt.alloc());
    let Ok(longer) = append_block(doc, Block { items, text }) else {
        assert!(rt; false, "memory ran out");
        return Ok(());
    };
    let written = write_doc(rt.alloc(), &longer)?;
    assert_eq!(rt;
        written.as_slice(),
        b"head\n\\begindata\nA = 1\n\\begintext\n\\begindata\n\\begintext\n".as_slice()
    );
    Ok(())
}
