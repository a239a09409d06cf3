//! Whole observation files, and the clock words in them.
ghost use Rattle.std.specs.Prelude.{◌^◌, ◌<◌, length, IsTrue};
ghost use Rattle.sk_grammar.specs.Variables.{items_of};

use crate::{read_clock_word, read_observations};
use sk_clock::Clock;
use sk_grammar::{Doc, read_doc};
use sk_leap::LeapTable;
use sk_pool::Pool;
use std::process::Abort;
use std::test::Fail;

// 256 ticks a count, in one partition and in two.
const PLAIN: &str = "\\begindata
SCLK_DATA_TYPE_99 = 1
SCLK01_TIME_SYSTEM_99 = 2
SCLK01_N_FIELDS_99 = 2
SCLK01_MODULI_99 = ( 4294967296 256 )
SCLK01_OFFSETS_99 = ( 0 0 )
SCLK01_OUTPUT_DELIM_99 = 2
SCLK_PARTITION_START_99 = 0
SCLK_PARTITION_END_99 = 1099511627775
";

const PARTED: &str = "\\begindata
SCLK_DATA_TYPE_99 = 1
SCLK01_TIME_SYSTEM_99 = 2
SCLK01_N_FIELDS_99 = 2
SCLK01_MODULI_99 = ( 4294967296 256 )
SCLK01_OFFSETS_99 = ( 0 0 )
SCLK01_OUTPUT_DELIM_99 = 2
SCLK_PARTITION_START_99 = ( 0 0 )
SCLK_PARTITION_END_99 = ( 1000000 1099511627775 )
";

fn has_few_items(doc: &Doc) -> bool
    ensures { IsTrue result → length (items_of doc.now) < 2 ^ 32 }
{
    match doc.blocks.as_slice() {
        [block] => block.items.as_text().len() < 100_000,
        _ => false,
    }
}

fn pool_of(rt: &(impl Abort + AllocGlobal), text: &str) -> Result<Pool, Fail> {
    assert!(rt; text.len() < 4000);
    let doc = read_doc(rt.alloc(), text.as_bytes())?;
    assert!(rt; has_few_items(&doc));
    Ok(Pool::of(rt.alloc(), &doc)?)
}

fn clock_of(rt: &(impl Abort + AllocGlobal), text: &str) -> Result<Clock, Fail> {
    let pool = pool_of(rt, text)?;
    Ok(Clock::of(rt.alloc(), &pool, 99)?)
}

#[test]
fn clock_words_have_their_ticks(rt: HostRuntime) -> Result<(), Fail> {
    let table = [
        ("tick:0", "Ok(0)"),
        ("tick:0000000000000005", "Ok(5)"),
        ("tick:1099512627775", "Ok(1099512627775)"),
        ("tick:1099512627776", "Err(Refused(Text(OutsidePartition)))"),
        ("tick:00000000000000005", "Err(Refused(Text(BadText)))"),
        ("tick:", "Err(Refused(Text(BadText)))"),
        ("tick: 1", "Err(Refused(Text(BadText)))"),
        ("tick:-1", "Err(Refused(Text(BadText)))"),
        ("Tick:1", "Err(Refused(Text(BadText)))"),
        // 172800 counts of 256 ticks, with no partition named and with each.
        ("cuc:2d0002a30000", "Ok(45236800)"),
        ("cuc:2/2D0002A30000", "Ok(45236800)"),
        ("cuc:0002/2d0002a30000", "Ok(45236800)"),
        ("cuc:2/1d0002a30000", "Ok(45236800)"),
        ("cuc:1/2d0002a30000", "Err(Refused(Text(OutsidePartition)))"),
        ("cuc:3/2d0002a30000", "Err(Refused(Text(NoSuchPartition)))"),
        ("cuc:0/2d0002a30000", "Err(Refused(Text(NoSuchPartition)))"),
        ("cuc:/2d0002a30000", "Err(Refused(Text(BadText)))"),
        ("cuc:00002/2d0002a30000", "Err(Refused(Text(BadText)))"),
        ("cuc:x/2d0002a30000", "Err(Refused(Text(BadText)))"),
        ("cuc:2/1/2d0002a30000", "Err(Refused(Hex))"),
        ("cuc:2d0002a3000", "Err(Refused(Hex))"),
        ("cuc:2g", "Err(Refused(Hex))"),
        ("cuc:", "Err(Refused(Cuc(Empty)))"),
        ("cuc:40", "Err(Refused(Cuc(NotCuc)))"),
        ("cuc:2d0002a300", "Err(Refused(Cuc(Length)))"),
        // Another number of fields than the clock has.
        ("cuc:2c0002a300", "Err(Refused(Text(WrongShape)))"),
        ("1/3906:64", "Ok(1000000)"),
        ("2/0:0", "Ok(1000000)"),
        ("3906:65", "Ok(2000001)"),
        (" 1 / 5 ", "Ok(1280)"),
        ("1/3906:65", "Err(Refused(Text(OutsidePartition)))"),
        ("0/5:0", "Err(Refused(Text(NoSuchPartition)))"),
        ("1/1:2:3", "Err(Refused(Text(TooManyFields)))"),
        ("1/x", "Err(Refused(Text(BadText)))"),
        ("\u{e9}", "Err(Refused(Text(BadText)))"),
    ];
    let clock = clock_of(&rt, PARTED)?;
    for (word, want) in table {
        let got = read_clock_word(rt.alloc(), word.as_bytes(), &clock);
        let text = format!(in rt.alloc(); "{got:?}")?;
        assert_eq!(rt; text.as_str(), want, "at {word}");
    }
    Ok(())
}

// The observations of a file, each as `number:tick:picoseconds;`, or the fault.
fn told(
    rt: &(impl Abort + AllocGlobal),
    text: &str,
    clock: &Clock,
    leap: &LeapTable,
) -> Result<String, Fail> {
    let mut out = String::new(rt.alloc());
    match read_observations(rt.alloc(), text.as_bytes(), clock, leap) {
        Ok(list) => {
            for row in list.as_slice() {
                let line = format!(in rt.alloc();
                    "{}:{}:{};",
                    row.number, row.tick, row.time.units
                )?;
                out.push_str(line.as_str())?;
            }
        }
        Err(fault) => {
            let line = format!(in rt.alloc(); "{fault:?}")?;
            out.push_str(line.as_str())?;
        }
    }
    Ok(out)
}

#[test]
fn a_first_record_that_is_not_the_header_is_told_apart(rt: HostRuntime) -> Result<(), Fail> {
    let table = [
        ("", "Empty"),
        ("\u{feff}", "Empty"),
        ("\r\n\n", "Empty"),
        ("# made by hand\nid,clock,time,delay\n", "LineBefore"),
        ("pass 21\n\nid,clock,time,delay\n", "LineBefore"),
        // UTF-16, of either order of bytes.
        ("i\0d\0,\0c\0l\0o\0c\0k\0", "ZeroByte"),
        ("\0i\0d\0,\0c\0l\0o\0c\0k", "ZeroByte"),
        (
            "# made by hand\n# of pass 21\nid,clock,time,delay\n",
            "Comment",
        ),
        ("#id,clock,time,delay\n", "Comment"),
        ("id;clock;time;delay\n", "OtherSeparator"),
        ("id\tclock\ttime\tdelay\n", "OtherSeparator"),
        ("id;clock,time,delay\n", "TooFew"),
        ("a,tick:256000,tdt:1000,0\n", "NoHeader"),
        (
            "a,tick:1,utc:2024-01-22T00:00:00,0\nb,tick:2,tdt:2,0\n",
            "NoHeader",
        ),
        (" id,clock,time,delay\n", "Blanks"),
        ("id, clock, time, delay\n", "Blanks"),
        ("ID,clock,time,delay\n", "Capitals"),
        ("Id, Clock, Time, Delay\n", "Capitals"),
        ("clock,id,time,delay\n", "OtherOrder"),
        ("id, time, clock, delay\n", "OtherOrder"),
        ("id,id,clock,time\n", "OtherNames"),
        ("id,clock,time\n", "TooFew"),
        ("id,clock,time,delay,\n", "TooMany"),
        ("id,clock,time,delay,note\n", "TooMany"),
        ("name,reading,when,late\n", "OtherNames"),
    ];
    let leap = LeapTable::none();
    let clock = clock_of(&rt, PLAIN)?;
    for (text, cause) in table {
        let want = format!(in rt.alloc(); "Header({cause})")?;
        let is = told(&rt, text, &clock, &leap)?;
        assert_eq!(rt; is.as_str(), want.as_str(), "at {text}");
    }
    Ok(())
}

#[test]
fn files_are_read_or_refused_at_their_first_bad_record(rt: HostRuntime) -> Result<(), Fail> {
    let table = [
        ("id,clock,time,delay", ""),
        ("\"id\",\"clock\",\"time\",\"delay\"\n", ""),
        (
            "id,clock,time,delay\na,tick:256000,tdt:1000,0\n",
            "2:256000:1000000000000000;",
        ),
        // A mark at the start, quotes, line ends of all kinds and empty lines.
        (
            "\u{feff}id,clock,time,delay\r\n\r\n\"a\",\"tick:1\",tdt:1,0\r\n\nb,tick:2,tdt:2,5\rc,tick:3,tdt:3,0",
            "2:1:1000000000000;3:2:1999999995000;4:3:3000000000000;",
        ),
        // Records are counted, and not lines.
        (
            "id,clock,time,delay\n\n\na,tick:1,tdt:1,0\n\n\nb,tick:1,tdt:1,0\n",
            "OutOfOrder(3)",
        ),
        (
            "id,clock,time,delay\na,tick:2,tdt:1,0\nb,tick:1,tdt:1,0\n",
            "OutOfOrder(3)",
        ),
        (
            "id,clock,time,delay\na,tick:1,tdt:1,0\nb,tick:2,tdt:1,0\n",
            "2:1:1000000000000;3:2:1000000000000;",
        ),
        ("id,clock,time,delay\na,tick:1,tdt:1\n", "FieldCount(2)"),
        ("id,clock,time,delay\n;,x,y,z,\n", "FieldCount(2)"),
        // A field over two lines, and a doubled quote.
        ("id,clock,time,delay\n\"a\nb\",tick:1,tdt:1,0\n", "BadId(2)"),
        (
            "id,clock,time,delay\n\"a\"\"b\",tick:1,tdt:1,0\n",
            "BadId(2)",
        ),
        (
            "id,clock,time,delay\na,\"tick:1\n\",tdt:1,0\n",
            "ClockRefused(2, Text(BadText))",
        ),
        ("id,clock,time,delay\n,tick:1,tdt:1,0\n", "BadId(2)"),
        ("id,clock,time,delay\na;b,tick:1,tdt:1,0\n", "BadId(2)"),
        ("id,clock,time,delay\na\\b,tick:1,tdt:1,0\n", "BadId(2)"),
        ("id,clock,time,delay\na b,tick:1,tdt:1,0\n", "BadId(2)"),
        ("id,clock,time,delay\n\u{e9},tick:1,tdt:1,0\n", "BadId(2)"),
        (
            "id,clock,time,delay\naaaaaaaaaaaaaaaaaaaaaaaaaaaaaaaa,tick:1,tdt:1,0\n",
            "2:1:1000000000000;",
        ),
        (
            "id,clock,time,delay\naaaaaaaaaaaaaaaaaaaaaaaaaaaaaaaaa,tick:1,tdt:1,0\n",
            "BadId(2)",
        ),
        // The first of a record's faults.
        ("id,clock,time,delay\n;,x,y,z\n", "BadId(2)"),
        (
            "id,clock,time,delay\na,x,y,z\n",
            "ClockRefused(2, Text(BadText))",
        ),
        (
            "id,clock,time,delay\na,cuc:2g,y,z\n",
            "ClockRefused(2, Hex)",
        ),
        (
            "id,clock,time,delay\na,cuc:,y,z\n",
            "ClockRefused(2, Cuc(Empty))",
        ),
        ("id,clock,time,delay\na,tick:1,y,z\n", "TimeForm(2)"),
        ("id,clock,time,delay\na,tick:1,tdt:1E39,z\n", "TimeForm(2)"),
        ("id,clock,time,delay\na,tick:1,tdt:1E35,z\n", "BadDelay(2)"),
        ("id,clock,time,delay\na,tick:1,tdt:1E35,0\n", "TimeRange(2)"),
        (
            "id,clock,time,delay\na,tick:1,tdt:1,0\nb,tick:1,tdt:1E35,0\n",
            "TimeRange(3)",
        ),
        // Codes need no leap seconds, and UTC has no time without them.
        (
            "id,clock,time,delay\na,tick:0,cuc:1e000000000000,0\n",
            "2:0:-1325419167816000000000;",
        ),
        (
            "id,clock,time,delay\na,tick:0,utc:2000-001T12:00:00Z,x\n",
            "UtcRefused(2, BeforeTable)",
        ),
        (
            "id,clock,time,delay\na,cuc:1/2d0002a30000,cuc:1e4f004ac00001,0\n",
            "2:44236800:32184015258789;",
        ),
    ];
    let clock = clock_of(&rt, PLAIN)?;
    let leap = LeapTable::none();
    for (text, want) in table {
        let got = told(&rt, text, &clock, &leap)?;
        assert_eq!(rt; got.as_str(), want, "at {text}");
    }
    Ok(())
}

// A hundred thousand records, one tick apart.
fn most_records(rt: &(impl Abort + AllocGlobal)) -> Result<String, Fail> {
    let mut text = String::from_str(rt.alloc(), "id,clock,time,delay\n")?;
    for k in 0..100_000u32 {
        let row = format!(in rt.alloc(); "r,tick:{k},tdt:0,0\n")?;
        text.push_str(row.as_str())?;
    }
    Ok(text)
}

#[test]
fn a_hundred_thousand_observations_are_taken(rt: HostRuntime) -> Result<(), Fail> {
    let clock = clock_of(&rt, PLAIN)?;
    let most = most_records(&rt)?;
    let list = read_observations(rt.alloc(), most.as_bytes(), &clock, &LeapTable::none())?;
    assert_eq!(rt; list.as_slice().len(), 100_000);
    let table = [
        (";,x,y,z\n", "TooMany"),
        ("r,tick:200000,tdt:0\n", "FieldCount(100002)"),
    ];
    for (last, want) in table {
        let mut text = String::from_str(rt.alloc(), most.as_str())?;
        text.push_str(last)?;
        let got = told(&rt, text.as_str(), &clock, &LeapTable::none())?;
        assert_eq!(rt; got.as_str(), want, "at {last}");
    }
    Ok(())
}
