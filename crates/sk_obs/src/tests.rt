mod files;

use crate::fault::ObsFault;
use crate::observed::observed_time;
use crate::reading::{next_row, row_reader};
use csv::ByteRecord;
use sk_leap::LeapTable;
use std::alloc::Global;
use std::process::Abort;
use std::test::Fail;

// The records of a text, their fields joined by `|` and each ended by `/`.
fn rows(alloc: Global, text: &[u8]) -> Result<Vec<u8>, Fail> {
    let mut out = Vec::new(alloc);
    let mut reader = row_reader(alloc, text);
    let mut row = ByteRecord::new(alloc);
    'rows: for _ in 0..10 {
        if !next_row(&mut reader, &mut row)? {
            return Ok(out);
        }
        for place in 0..row.len() {
            if place > 0 {
                out.push(b'|')?;
            }
            out.extend_from_slice(crate::fields::field(&row, place))?;
        }
        out.push(b'/')?;
    }
    Ok(out)
}

#[test]
fn records_are_those_of_csv(rt: HostRuntime) -> Result<(), Fail> {
    let table = [
        ("", ""),
        ("\n\r\n\n", ""),
        ("a,b,c,d\ne,f,g,h\n", "a|b|c|d/e|f|g|h/"),
        ("a,b\r\n\r\n\nc,d\re,f", "a|b/c|d/e|f/"),
        ("\u{feff}id,clock\n1,2", "id|clock/1|2/"),
        ("\"a\",\"b \"\"c\"\"\",d\n", "a|b \"c\"|d/"),
        ("\"two\nlines\",\"a,b\"\nc,d", "two\nlines|a,b/c|d/"),
        ("a,b,c,d\ne,f\n,,,,", "a|b|c|d/e|f/||||/"),
        (" a , b ", " a | b /"),
    ];
    for (text, want) in table {
        let got = rows(rt.alloc(), text.as_bytes())?;
        assert_eq!(rt; got.as_slice(), want.as_bytes(), "at {text}");
    }
    Ok(())
}

// The picoseconds of a time word less a delay, or the fault, in record 2 and without leap seconds.
fn time_or_fault(alloc: Global, word: &str, delay: &str) -> Result<String, Fail> {
    let text = format!(in alloc; "a,tick:0,{word},{delay}")?;
    let mut reader = row_reader(alloc, text.as_bytes());
    let mut row = ByteRecord::new(alloc);
    let _found = next_row(&mut reader, &mut row)?;
    match observed_time(alloc, 2, &row, &LeapTable::none()) {
        Ok(time) => Ok(format!(in alloc; "{}", time.units)?),
        Err(fault) => Ok(format!(in alloc; "{fault:?}")?),
    }
}

#[test]
fn times_of_words(rt: HostRuntime) -> Result<(), Fail> {
    let table = [
        ("tdt:1000.002", "0", "1000002000000000"),
        ("tdt:-1.5", "1500000000", "-3000000000000"),
        ("tdt:1.0000000000000000", "0", "1000000000000"),
        ("tdt:1.0000000000001", "0", "TimeForm(2)"),
        ("tdt:1E35", "x", "BadDelay(2)"),
        ("tdt:1E35", "0", "TimeRange(2)"),
        ("tdt:1E39", "x", "TimeForm(2)"),
        ("tdt:9000000000", "0", "9000000000000000000000"),
        ("tdt:9000000000.000000000001", "0", "TimeRange(2)"),
        ("tdt:9000000000.000000001", "1", "9000000000000000000000"),
        ("tdt:-9000000000", "1", "TimeRange(2)"),
        ("tdt:1", "100000000000000", "-99999000000000000"),
        ("tdt:1", "100000000000001", "BadDelay(2)"),
        ("tdt:1", "000000000000001", "999999999000"),
        ("tdt:1", "0000000000000001", "BadDelay(2)"),
        ("tdt:1", "", "BadDelay(2)"),
        ("tdt:1", "+1", "BadDelay(2)"),
        ("TDT:1", "x", "TimeForm(2)"),
        ("tick:1", "0", "TimeForm(2)"),
        ("", "0", "TimeForm(2)"),
        ("cuc:1e000000000000", "0", "-1325419167816000000000"),
        ("cuc:1e4f004ac00001", "0", "32184015258789"),
        ("cuc:9e28004f004ac000010000", "0", "32184015258789"),
        ("cuc:9E004F004AC00001", "0", "32184015258789"),
        ("cuc:9e000000000000", "0", "CodeRefused(2, Cuc(Length))"),
        ("cuc:1e0000", "0", "CodeRefused(2, Cuc(Length))"),
        ("cuc:9e14", "0", "CodeRefused(2, Cuc(FractionWidth))"),
        ("cuc:9e80", "0", "CodeRefused(2, Cuc(ThirdOctet))"),
        ("cuc:2d0000000000", "0", "CodeRefused(2, CucAgencyEpoch)"),
        ("cuc:", "0", "CodeRefused(2, Cuc(Empty))"),
        ("cuc:1e0", "0", "CodeRefused(2, Hex)"),
        ("cuc:1g", "0", "CodeRefused(2, Hex)"),
        (
            "cds:413bec02932e0003e8",
            "0",
            "CodeRefused(2, Cds(SubRange))",
        ),
        ("cds:403bec02932e00", "x", "UtcRefused(2, BeforeTable)"),
        ("cds:4", "0", "CodeRefused(2, Hex)"),
        (
            "utc:1971-12-31T00:00:00Z",
            "x",
            "UtcRefused(2, BeforeTable)",
        ),
        ("utc:1971-12-31", "0", "TimeForm(2)"),
        ("utc:\u{e9}", "0", "TimeForm(2)"),
    ];
    for (word, delay, want) in table {
        let got = time_or_fault(rt.alloc(), word, delay)?;
        assert_eq!(rt; got.as_str(), want, "at {word} less {delay}");
    }
    Ok(())
}
