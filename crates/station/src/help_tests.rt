use super::*;
use crate::tests::texts;
use sk_edge::{MemoryDepot, MemorySink};
use std::test::Fail;

const OF_NORMAL: &str =
    "station normal: the kernel in canonical layout\n\nusage: station normal --kernel=FILE\n\nOptions\n  --kernel=FILE       clock kernel\n\nOnly the grammar of the file is checked.\n";

const OPENING: &str =
    "station 0.9.0: keeps a spacecraft clock kernel (NAIF SCLK type 1), exactly\n\nusage: station COMMAND --NAME=VALUE ..\n";

/// Words that ask about the program write its page to the output, note nothing and read no file.
#[test]
fn words_about_the_program_have_its_pages(rt: HostRuntime) -> Result<(), Fail> {
    let alloc = rt.alloc();
    let table: [(&str, &str, &str); 6] = [
        ("help", "", OPENING),
        ("--help", "", OPENING),
        ("-h", "", OPENING),
        ("--version", "", "station 0.9.0\n"),
        ("-V", "", "station 0.9.0\n"),
        ("help", "normal", OF_NORMAL),
    ];
    for (first, second, begins) in table {
        let mut words = texts(alloc, [first].as_slice())?;
        if !second.is_empty() {
            words.push(String::from_str(alloc, second)?)?;
        }
        let mut depot = MemoryDepot::new(Vec::new(alloc), Vec::new(alloc), Vec::new(alloc));
        let room = vec![in alloc; 0; 5000]?;
        let mut out = MemorySink::new(vec![in alloc; 100]?, Vec::new(alloc), room);
        let mut notes = MemorySink::new(Vec::new(alloc), Vec::new(alloc), Vec::new(alloc));
        let status = run(alloc, &words, &mut depot, &mut out, &mut notes);
        assert_eq!(rt; status.code(), 0, "{first} {second}");
        assert!(rt;
            out.written().starts_with(begins.as_bytes()),
            "{first} {second}"
        );
        assert!(rt; notes.written().is_empty(), "{first} {second}");
    }
    Ok(())
}
