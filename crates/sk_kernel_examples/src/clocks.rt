//! Clocks of kernels, and their readings.

ghost use Rattle.std.specs.Prelude.{◌^◌, ◌<◌, ◌≤◌, length, IsTrue, IfOk};
ghost use Rattle.std.specs.Int.{IsInRange};

use crate::documents::pool_of;
use sk_clock::{Clock, ClockFault, ClockKernelFault};
use sk_cuc::AnyCuc;
use std::process::Abort;
use std::test::Fail;

// ---- clocks of kernels

// A clock of two fields and one partition. Data that stand behind a line replace it.
const LINES: [&str; 8] = [
    "SCLK_DATA_TYPE_99 = 1",
    "SCLK01_TIME_SYSTEM_99 = 2",
    "SCLK01_N_FIELDS_99 = 2",
    "SCLK01_MODULI_99 = ( 4294967296 256 )",
    "SCLK01_OFFSETS_99 = ( 0 0 )",
    "SCLK01_OUTPUT_DELIM_99 = 2",
    "SCLK_PARTITION_START_99 = 0",
    "SCLK_PARTITION_END_99 = 1099511627775",
];

const TWO_PARTITIONS: &str = "SCLK_PARTITION_START_99 = ( 0 0 )
SCLK_PARTITION_END_99 = ( 1000000 1099511627775 )";

// The clock of the kernel without one of its lines, and with these data behind them.
fn clock_without(
    rt: &(impl Abort + AllocGlobal),
    left_out: usize,
    data: &str,
    sc: u32,
) -> Result<Result<Clock, ClockKernelFault>, Fail>
    requires { IsInRange 1 999_999_999 sc }
{
    let mut text = String::new(rt.alloc());
    text.push_str("\\begindata\n")?;
    for (place, line) in LINES.iter().enumerate() {
        if place != left_out {
            text.push_str(line)?;
            text.push('\n')?;
        }
    }
    text.push_str(data)?;
    let pool = pool_of(rt, text.as_bytes())?;
    Ok(Clock::of(rt.alloc(), &pool, sc))
}

fn clock_of(rt: &(impl Abort + AllocGlobal), data: &str) -> Result<Clock, Fail> {
    Ok(clock_without(rt, LINES.len(), data, 99)??)
}

fn expect_kernel(
    rt: &(impl Abort + AllocGlobal),
    left_out: usize,
    data: &str,
    sc: u32,
    fault: &str,
) -> Result<(), Fail>
    requires { IsInRange 1 999_999_999 sc }
{
    let answer = match clock_without(rt, left_out, data, sc)? {
        Ok(_) => format!(in rt.alloc(); "taken")?,
        Err(fault) => format!(in rt.alloc(); "{fault:?}")?,
    };
    assert_eq!(rt; answer.as_str(), fault, "without {left_out}, with {data}");
    Ok(())
}

#[test]
fn variables_are_needed(rt: HostRuntime) -> Result<(), Fail> {
    let faults = [
        "Missing(DataType)",
        "Barycentric",
        "Missing(Fields)",
        "Missing(Moduli)",
        "Missing(Offsets)",
        "Missing(Delim)",
        "Missing(Start)",
        "Missing(End)",
        "taken",
    ];
    for (left_out, fault) in faults.iter().enumerate() {
        expect_kernel(&rt, left_out, "", 99, fault)?;
    }
    // The variables of other spacecraft are not looked at.
    expect_kernel(&rt, 8, "", 9, "Missing(DataType)")?;
    expect_kernel(&rt, 8, "", 999_999_999, "Missing(DataType)")?;
    expect_kernel(&rt, 8, "SCLK_DATA_TYPE_9 = 1", 9, "Missing(Fields)")?;
    // What is missing comes before what is wrong.
    expect_kernel(&rt, 7, "SCLK_DATA_TYPE_99 = 2", 99, "Missing(End)")?;
    expect_kernel(&rt, 1, "SCLK_DATA_TYPE_99 = 2", 99, "NotType1")?;
    expect_kernel(&rt, 1, "SCLK01_N_FIELDS_99 = 0", 99, "Barycentric")?;
    Ok(())
}

// A clock whose one variable has these values is taken, or refused for this.
fn expect_values(
    rt: &(impl Abort + AllocGlobal),
    name: &str,
    values: &str,
    fault: &str,
) -> Result<(), Fail> {
    let data = format!(in rt.alloc(); "{name}_99 = {values}")?;
    expect_kernel(rt, LINES.len(), data.as_str(), 99, fault)
}

#[test]
fn kinds_are_refused(rt: HostRuntime) -> Result<(), Fail> {
    let table = [
        ("SCLK_DATA_TYPE", "1.0", "taken"),
        ("SCLK_DATA_TYPE", "2", "NotType1"),
        ("SCLK_DATA_TYPE", "1.5", "NotType1"),
        ("SCLK_DATA_TYPE", "-1", "NotType1"),
        ("SCLK_DATA_TYPE", "( 1 1 )", "NotType1"),
        ("SCLK_DATA_TYPE", "'1'", "NotType1"),
        ("SCLK01_TIME_SYSTEM", "2.0", "taken"),
        ("SCLK01_TIME_SYSTEM", "1", "Barycentric"),
        ("SCLK01_TIME_SYSTEM", "0", "BadTimeSystem"),
        ("SCLK01_TIME_SYSTEM", "3", "BadTimeSystem"),
        ("SCLK01_TIME_SYSTEM", "1.5", "BadTimeSystem"),
        ("SCLK01_TIME_SYSTEM", "( 1 1 )", "BadTimeSystem"),
        ("SCLK01_TIME_SYSTEM", "( 2 2 )", "BadTimeSystem"),
        ("SCLK01_TIME_SYSTEM", "'2'", "BadTimeSystem"),
        ("SCLK01_N_FIELDS", "0", "BadFields"),
        ("SCLK01_N_FIELDS", "11", "BadFields"),
        ("SCLK01_N_FIELDS", "1.5", "BadFields"),
        ("SCLK01_N_FIELDS", "-2", "BadFields"),
        ("SCLK01_N_FIELDS", "( 2 2 )", "BadFields"),
        ("SCLK01_N_FIELDS", "@2", "BadFields"),
        ("SCLK01_N_FIELDS", "10", "BadModuli"),
        ("SCLK01_OUTPUT_DELIM", "0", "BadDelim"),
        ("SCLK01_OUTPUT_DELIM", "1", "taken"),
        ("SCLK01_OUTPUT_DELIM", "5", "taken"),
        ("SCLK01_OUTPUT_DELIM", "6", "BadDelim"),
        ("SCLK01_OUTPUT_DELIM", "2.5", "BadDelim"),
        ("SCLK01_OUTPUT_DELIM", "( 2 2 )", "BadDelim"),
        ("SCLK01_OUTPUT_DELIM", "':'", "BadDelim"),
    ];
    for (name, values, fault) in table {
        expect_values(&rt, name, values, fault)?;
    }
    Ok(())
}

#[test]
fn fields_are_refused(rt: HostRuntime) -> Result<(), Fail> {
    let table = [
        ("SCLK01_MODULI", "( 9007199254740991 4294967296 )", "taken"),
        ("SCLK01_MODULI", "( 9007199254740992 256 )", "BadModuli"),
        ("SCLK01_MODULI", "( 256 4294967297 )", "BadModuli"),
        ("SCLK01_MODULI", "( 1 1 )", "taken"),
        ("SCLK01_MODULI", "( 0 256 )", "BadModuli"),
        ("SCLK01_MODULI", "( 256 0 )", "BadModuli"),
        ("SCLK01_MODULI", "( -1 256 )", "BadModuli"),
        ("SCLK01_MODULI", "( 256 1.5 )", "BadModuli"),
        ("SCLK01_MODULI", "( 256 @256 )", "BadModuli"),
        ("SCLK01_MODULI", "( '256' '256' )", "BadModuli"),
        ("SCLK01_MODULI", "256", "BadModuli"),
        ("SCLK01_MODULI", "( 256 256 256 )", "BadModuli"),
        ("SCLK01_OFFSETS", "( 4294967296 4294967296 )", "taken"),
        ("SCLK01_OFFSETS", "( 4294967297 0 )", "BadOffsets"),
        ("SCLK01_OFFSETS", "( 0 4294967297 )", "BadOffsets"),
        ("SCLK01_OFFSETS", "( -1 0 )", "BadOffsets"),
        ("SCLK01_OFFSETS", "( 0 0.5 )", "BadOffsets"),
        ("SCLK01_OFFSETS", "0", "BadOffsets"),
        ("SCLK01_OFFSETS", "( 0 0 0 )", "BadOffsets"),
    ];
    for (name, values, fault) in table {
        expect_values(&rt, name, values, fault)?;
    }
    let products = [("65536", "taken"), ("65537", "BadModuli")];
    for (modulus, fault) in products {
        let data = format!(in rt.alloc();
            "SCLK01_N_FIELDS_99 = 3\nSCLK01_MODULI_99 = ( 7 65536 {modulus} )\nSCLK01_OFFSETS_99 = ( 0 0 0 )"
        )?;
        expect_kernel(&rt, LINES.len(), data.as_str(), 99, fault)?;
    }
    Ok(())
}

#[test]
fn partitions_are_refused(rt: HostRuntime) -> Result<(), Fail> {
    let table = [
        ("0", "0", "taken"),
        ("7", "7", "taken"),
        ("7", "6", "BadPartitions"),
        ("0", "9007199254740991", "taken"),
        ("0", "9007199254740992", "BadPartitions"),
        ("9007199254740991", "9007199254740991", "taken"),
        ("9007199254740992", "9007199254740992", "BadPartitions"),
        ("( 0 0 )", "7", "BadPartitions"),
        ("0", "( 7 7 )", "BadPartitions"),
        ("( 0 0 )", "( 9007199254740990 1 )", "taken"),
        ("( 0 0 )", "( 9007199254740991 1 )", "BadPartitions"),
        ("( 0 5 )", "( 9007199254740991 5 )", "taken"),
        ("( 0 5 )", "( 7 4 )", "BadPartitions"),
        ("-1", "7", "BadPartitions"),
        ("0.5", "7", "BadPartitions"),
        ("0", "7.5", "BadPartitions"),
        ("@0", "7", "BadPartitions"),
        ("'0'", "7", "BadPartitions"),
    ];
    for (start, end, fault) in table {
        let data = format!(in rt.alloc();
            "SCLK_PARTITION_START_99 = {start}\nSCLK_PARTITION_END_99 = {end}"
        )?;
        expect_kernel(&rt, LINES.len(), data.as_str(), 99, fault)?;
    }
    Ok(())
}

// A variable of so many zeros.
fn push_zeros(text: &mut String, name: &str, count: u32) -> Result<(), Fail> {
    text.push_str(name)?;
    text.push_str("_99 = (\n")?;
    for _ in 0..count {
        text.push_str("0\n")?;
    }
    text.push_str(")\n")?;
    Ok(())
}

#[test]
fn partitions_are_counted(rt: HostRuntime) -> Result<(), Fail> {
    for (count, fault) in [(9_999, "taken"), (10_000, "BadPartitions")] {
        let mut data = String::new(rt.alloc());
        push_zeros(&mut data, "SCLK_PARTITION_START", count)?;
        push_zeros(&mut data, "SCLK_PARTITION_END", count)?;
        expect_kernel(&rt, LINES.len(), data.as_str(), 99, fault)?;
    }
    Ok(())
}

#[test]
fn faults_have_an_order(rt: HostRuntime) -> Result<(), Fail> {
    let table = [
        (
            "SCLK_DATA_TYPE_99 = 2\nSCLK01_TIME_SYSTEM_99 = 1",
            "NotType1",
        ),
        (
            "SCLK01_TIME_SYSTEM_99 = 1\nSCLK01_N_FIELDS_99 = 0",
            "Barycentric",
        ),
        (
            "SCLK01_TIME_SYSTEM_99 = 3\nSCLK01_N_FIELDS_99 = 0",
            "BadTimeSystem",
        ),
        ("SCLK01_N_FIELDS_99 = 0\nSCLK01_MODULI_99 = 0", "BadFields"),
        ("SCLK01_MODULI_99 = 0\nSCLK01_OFFSETS_99 = -1", "BadModuli"),
        (
            "SCLK01_OFFSETS_99 = -1\nSCLK01_OUTPUT_DELIM_99 = 0",
            "BadOffsets",
        ),
        (
            "SCLK01_OUTPUT_DELIM_99 = 0\nSCLK_PARTITION_END_99 = -1",
            "BadDelim",
        ),
    ];
    for (data, fault) in table {
        expect_kernel(&rt, LINES.len(), data, 99, fault)?;
    }
    Ok(())
}

// ---- clock strings

fn expect_ticks(
    rt: &(impl Abort + AllocGlobal),
    clock: &Clock,
    text: &str,
    want: &str,
) -> Result<(), Fail> {
    let answer = clock.ticks_of(text);
    let answer = format!(in rt.alloc(); "{answer:?}")?;
    assert_eq!(rt; answer.as_str(), want, "at {text}");
    Ok(())
}

#[test]
fn clock_strings_are_read(rt: HostRuntime) -> Result<(), Fail> {
    let clock = clock_of(&rt, "")?;
    assert_eq!(rt; (clock.ticks_per(), clock.total()), (256, 1099511627775));
    let table = [
        (" 1 / 5 ", "Ok(1280)"),
        ("1/5", "Ok(1280)"),
        ("0001/5", "Ok(1280)"),
        ("5", "Ok(1280)"),
        ("5.6", "Ok(1286)"),
        ("5:6", "Ok(1286)"),
        ("5-6", "Ok(1286)"),
        ("5,6", "Ok(1286)"),
        ("5 6", "Ok(1286)"),
        ("  5   6  ", "Ok(1286)"),
        ("5 : 6", "Ok(1286)"),
        ("5 .6", "Ok(1286)"),
        ("1   /   5-   6", "Ok(1286)"),
        ("1 5", "Ok(261)"),
        ("0:256", "Ok(256)"),
        ("0:1000000", "Ok(1000000)"),
        ("0000000000000005", "Ok(1280)"),
        ("4294967295:255", "Ok(1099511627775)"),
    ];
    for (text, want) in table {
        expect_ticks(&rt, &clock, text, want)?;
    }
    Ok(())
}

#[test]
fn other_texts_are_refused(rt: HostRuntime) -> Result<(), Fail> {
    let clock = clock_of(&rt, "")?;
    let texts = [
        "",
        " ",
        "1/x",
        "x",
        "1/",
        "/5",
        "1//5",
        "1/5/6",
        "00001/5",
        "00000000000000005",
        "5:",
        ":5",
        "5::6",
        "5 : : 6",
        "5:6:",
        "5;6",
        "5\t6",
        "\t5",
        "5\t",
        "1\t/5",
        "1/\t5",
        "5\n",
        "+5",
        "-5",
        "5.-6",
        "5e1",
        "5\u{e9}",
        "1:2:x:3",
    ];
    for text in texts {
        expect_ticks(&rt, &clock, text, "Err(BadText)")?;
    }
    let table = [
        ("1/1:2:3", "Err(TooManyFields)"),
        ("9/1:2:3", "Err(TooManyFields)"),
        ("1 2 3 4 5 6 7 8 9 10 11 12", "Err(TooManyFields)"),
        ("0/5", "Err(NoSuchPartition)"),
        ("2/5", "Err(NoSuchPartition)"),
        ("9999/5", "Err(NoSuchPartition)"),
        ("4294967296:0", "Err(OutsidePartition)"),
        ("1/4294967296:0", "Err(OutsidePartition)"),
        ("9999999999999999:9999999999999999", "Err(OutsidePartition)"),
    ];
    for (text, want) in table {
        expect_ticks(&rt, &clock, text, want)?;
    }
    Ok(())
}

#[test]
fn partitions_have_their_counts(rt: HostRuntime) -> Result<(), Fail> {
    let table = [
        ("1/3906:64", "Ok(1000000)"),
        ("2/0:0", "Ok(1000000)"),
        ("3906:64", "Ok(1000000)"),
        ("3906:65", "Ok(2000001)"),
        ("2/4294967295:255", "Ok(1099512627775)"),
        ("1/3906:65", "Err(OutsidePartition)"),
        ("4294967296:0", "Err(OutsidePartition)"),
        ("0/5:0", "Err(NoSuchPartition)"),
        ("3/5:0", "Err(NoSuchPartition)"),
    ];
    let clock = clock_of(&rt, TWO_PARTITIONS)?;
    for (text, want) in table {
        expect_ticks(&rt, &clock, text, want)?;
    }
    // The second partition begins at a lower count than the first.
    let table = [
        ("1/0:99", "Err(OutsidePartition)"),
        ("1/0:100", "Ok(0)"),
        ("1/0:200", "Ok(100)"),
        ("1/0:201", "Err(OutsidePartition)"),
        ("2/0:49", "Err(OutsidePartition)"),
        ("2/0:50", "Ok(100)"),
        ("2/0:150", "Ok(200)"),
        ("0:49", "Err(OutsidePartition)"),
        ("0:60", "Ok(110)"),
        ("0:120", "Ok(20)"),
        ("0:201", "Err(OutsidePartition)"),
    ];
    let clock = clock_of(
        &rt,
        "SCLK_PARTITION_START_99 = ( 100 50 )\nSCLK_PARTITION_END_99 = ( 200 150 )",
    )?;
    for (text, want) in table {
        expect_ticks(&rt, &clock, text, want)?;
    }
    Ok(())
}

#[test]
fn fields_have_offsets(rt: HostRuntime) -> Result<(), Fail> {
    let clock = clock_of(&rt, "SCLK01_OFFSETS_99 = ( 1 2 )")?;
    let table = [
        ("1/0:2", "Err(BelowOffset)"),
        ("1/1:1", "Err(BelowOffset)"),
        ("9/0:0", "Err(BelowOffset)"),
        ("0:9:9", "Err(TooManyFields)"),
        ("1/1:2", "Ok(0)"),
        ("1", "Ok(0)"),
        ("6", "Ok(1280)"),
        ("6:2", "Ok(1280)"),
        ("6:3", "Ok(1281)"),
    ];
    for (text, want) in table {
        expect_ticks(&rt, &clock, text, want)?;
    }
    Ok(())
}

// ---- canonical text

// The tick has this canonical text, which is read to it.
fn expect_text(
    rt: &(impl Abort + AllocGlobal),
    clock: &Clock,
    tick: u64,
    partition: u32,
    want: &str,
) -> Result<(), Fail> {
    assert_eq!(rt; clock.partition_at(tick), Some(partition), "at {tick}");
    let text = clock.text_of(rt.alloc(), tick)?;
    assert_eq!(rt; text.as_str(), want, "at {tick}");
    assert_eq!(rt; clock.ticks_of(want), Ok(tick), "at {want}");
    Ok(())
}

// No tick behind this one has a partition or a text.
fn expect_total(rt: &(impl Abort + AllocGlobal), clock: &Clock, total: u64) -> Result<(), Fail> {
    assert_eq!(rt; clock.total(), total);
    for tick in [total.saturating_add(1), u64::MAX] {
        assert_eq!(rt; clock.partition_at(tick), None, "at {tick}");
        let answer = clock.text_of(rt.alloc(), tick);
        assert!(rt; answer.is_err(), "at {tick}");
    }
    Ok(())
}

#[test]
fn ticks_have_texts(rt: HostRuntime) -> Result<(), Fail> {
    let clock = clock_of(&rt, TWO_PARTITIONS)?;
    let table = [
        (0, 1, "1/0000000000:000"),
        (256128, 1, "1/0000001000:128"),
        (999999, 1, "1/0000003906:063"),
        (1000000, 2, "2/0000000000:000"),
        (1000001, 2, "2/0000000000:001"),
        (1099512627775, 2, "2/4294967295:255"),
    ];
    for (tick, partition, text) in table {
        expect_text(&rt, &clock, tick, partition, text)?;
    }
    expect_total(&rt, &clock, 1099512627775)
}

#[test]
fn five_delimiters(rt: HostRuntime) -> Result<(), Fail> {
    let table = [
        ("1", "1/0000001000.128"),
        ("2", "1/0000001000:128"),
        ("3", "1/0000001000-128"),
        ("4", "1/0000001000,128"),
        ("5", "1/0000001000 128"),
    ];
    for (code, text) in table {
        let data = format!(in rt.alloc(); "SCLK01_OUTPUT_DELIM_99 = {code}")?;
        let clock = clock_of(&rt, data.as_str())?;
        expect_text(&rt, &clock, 256128, 1, text)?;
    }
    Ok(())
}

#[test]
fn fields_have_widths(rt: HostRuntime) -> Result<(), Fail> {
    let table = [
        // The first field is not reduced, and may be wider than its modulus.
        ("( 10 256 )", "( 0 0 )", 2560, "1/10:000"),
        ("( 10 256 )", "( 0 0 )", 2559, "1/9:255"),
        // Modulus and offset together give the width.
        ("( 9 256 )", "( 1 745 )", 0, "1/1:0745"),
        ("( 9 256 )", "( 1 745 )", 255, "1/1:1000"),
        ("( 10 256 )", "( 1 744 )", 2304, "1/10:744"),
        ("( 10 256 )", "( 1 744 )", 255, "1/01:999"),
        ("( 1 1 )", "( 0 0 )", 12, "1/12:0"),
        ("( 1 10 )", "( 4294967296 0 )", 5, "1/4294967296:5"),
    ];
    for (moduli, offsets, tick, text) in table {
        let data = format!(in rt.alloc();
            "SCLK01_MODULI_99 = {moduli}\nSCLK01_OFFSETS_99 = {offsets}"
        )?;
        let clock = clock_of(&rt, data.as_str())?;
        expect_text(&rt, &clock, tick, 1, text)?;
    }
    Ok(())
}

#[test]
fn ten_fields(rt: HostRuntime) -> Result<(), Fail> {
    let data = "SCLK01_N_FIELDS_99 = 10
SCLK01_MODULI_99 = ( 9007199254740991 2 3 4 5 6 7 8 9 10 )
SCLK01_OFFSETS_99 = ( 0 1 2 3 4 5 6 7 8 9 )
SCLK01_OUTPUT_DELIM_99 = 4
SCLK_PARTITION_END_99 = 9007199254740991";
    let clock = clock_of(&rt, data)?;
    assert_eq!(rt; clock.ticks_per(), 3628800);
    let table = [
        (0, "1/0000000000000000,1,2,3,4,05,06,07,08,09"),
        (1, "1/0000000000000000,1,2,3,4,05,06,07,08,10"),
        (3628799, "1/0000000000000000,2,4,6,8,10,12,14,16,18"),
        (3628800, "1/0000000000000001,1,2,3,4,05,06,07,08,09"),
        (123456789, "1/0000000000000034,1,2,3,6,08,08,13,08,18"),
        (
            9007199254740991,
            "1/0000002482142651,2,3,5,6,07,06,07,11,10",
        ),
    ];
    for (tick, text) in table {
        expect_text(&rt, &clock, tick, 1, text)?;
    }
    expect_total(&rt, &clock, 9007199254740991)?;
    // Left out fields have their offsets.
    expect_ticks(&rt, &clock, "1", "Ok(3628800)")?;
    expect_ticks(&rt, &clock, "1:2", "Ok(5443200)")?;
    expect_ticks(&rt, &clock, "0:1:2:3:4:5:6:7:8:10", "Ok(1)")?;
    expect_ticks(&rt, &clock, "0:1:2:3:4:5:6:7:8:9:0", "Err(TooManyFields)")
}

#[test]
fn partitions_without_length(rt: HostRuntime) -> Result<(), Fail> {
    let table = [
        ("( 0 5 5 )", "( 100 5 50 )", 145, 99, 1, "1/0000000000:099"),
        ("( 0 5 5 )", "( 100 5 50 )", 145, 100, 3, "3/0000000000:005"),
        ("( 0 5 5 )", "( 100 5 50 )", 145, 145, 3, "3/0000000000:050"),
        ("( 0 7 )", "( 100 7 )", 100, 100, 2, "2/0000000000:007"),
        ("( 7 0 )", "( 7 100 )", 100, 0, 2, "2/0000000000:000"),
        ("( 5 6 7 )", "( 5 6 7 )", 0, 0, 3, "3/0000000000:007"),
        ("5", "5", 0, 0, 1, "1/0000000000:005"),
    ];
    for (starts, ends, total, tick, partition, text) in table {
        let data = format!(in rt.alloc();
            "SCLK_PARTITION_START_99 = {starts}\nSCLK_PARTITION_END_99 = {ends}"
        )?;
        let clock = clock_of(&rt, data.as_str())?;
        expect_text(&rt, &clock, tick, partition, text)?;
        expect_total(&rt, &clock, total)?;
    }
    let clock = clock_of(
        &rt,
        "SCLK_PARTITION_START_99 = ( 0 5 5 )\nSCLK_PARTITION_END_99 = ( 100 5 50 )",
    )?;
    expect_ticks(&rt, &clock, "2/0:5", "Ok(100)")?;
    expect_ticks(&rt, &clock, "2/0:6", "Err(OutsidePartition)")?;
    expect_ticks(&rt, &clock, "3/0:5", "Ok(100)")?;
    expect_ticks(&rt, &clock, "0:5", "Ok(5)")
}

#[test]
fn the_greatest_totals(rt: HostRuntime) -> Result<(), Fail> {
    let table = [
        ("0", "9007199254740991", 1, "1/35184372088831:255"),
        (
            "( 0 9007199254740990 )",
            "( 9007199254740990 9007199254740991 )",
            2,
            "2/35184372088831:255",
        ),
        ("( 0 5 )", "( 9007199254740990 6 )", 2, "2/0000000000:006"),
        (
            "( 5 0 )",
            "( 6 9007199254740990 )",
            2,
            "2/35184372088831:254",
        ),
    ];
    for (starts, ends, partition, text) in table {
        let data = format!(in rt.alloc();
            "SCLK_PARTITION_START_99 = {starts}\nSCLK_PARTITION_END_99 = {ends}"
        )?;
        let clock = clock_of(&rt, data.as_str())?;
        expect_text(&rt, &clock, 9007199254740991, partition, text)?;
        expect_total(&rt, &clock, 9007199254740991)?;
    }
    Ok(())
}

// ---- codes

fn expect_code(
    rt: &(impl Abort + AllocGlobal),
    clock: &Clock,
    part: Option<u32>,
    bytes: &[u8],
    want: Result<u64, ClockFault>,
) -> Result<(), Fail> {
    let code = AnyCuc::read(bytes)?;
    assert_eq!(rt; clock.ticks_of_cuc(part, &code), want, "at {bytes:?}");
    Ok(())
}

#[test]
fn codes_are_read(rt: HostRuntime) -> Result<(), Fail> {
    let clock = clock_of(&rt, TWO_PARTITIONS)?;
    let outside = Err(ClockFault::OutsidePartition);
    let none = Err(ClockFault::NoSuchPartition);
    let table = [
        (None, b"\x2d\x00\x00\x03\xe8\x80".as_slice(), Ok(256128)),
        (None, b"\x1d\x00\x00\x03\xe8\x80".as_slice(), Ok(256128)),
        (Some(1), b"\x2d\x00\x00\x0f\x42\x40".as_slice(), Ok(1000000)),
        (Some(2), b"\x2d\x00\x00\x0f\x42\x40".as_slice(), Ok(2000000)),
        (None, b"\x2d\x00\x00\x0f\x42\x40".as_slice(), Ok(1000000)),
        (None, b"\x2d\x00\x00\x0f\x42\x41".as_slice(), Ok(2000001)),
        (Some(1), b"\x2d\x00\x00\x0f\x42\x41".as_slice(), outside),
        (Some(0), b"\x2d\x00\x00\x0f\x42\x41".as_slice(), none),
        (Some(3), b"\x2d\x00\x00\x0f\x42\x41".as_slice(), none),
        (Some(u32::MAX), b"\x2d\x00\x00\x0f\x42\x41".as_slice(), none),
        (
            None,
            b"\x2d\xff\xff\xff\xff\xff".as_slice(),
            Ok(1099512627775),
        ),
        (
            None,
            b"\xad\x20\x01\x00\x00\x00\x00\x00".as_slice(),
            outside,
        ),
    ];
    for (part, bytes, want) in table {
        expect_code(&rt, &clock, part, bytes, want)?;
    }
    Ok(())
}

#[test]
fn codes_fit_the_fields(rt: HostRuntime) -> Result<(), Fail> {
    let none = b"\x1c\x00\x00\x00\x05".as_slice();
    let one = b"\x1d\x00\x00\x00\x05\x06".as_slice();
    let two = b"\x1e\x00\x00\x00\x05\x00\x06".as_slice();
    let wrong = Err(ClockFault::WrongShape);
    let table = [
        ("2", "( 9 256 )", "( 0 0 )", one, Ok(1286)),
        ("2", "( 9 256 )", "( 0 0 )", none, wrong),
        ("2", "( 9 256 )", "( 0 0 )", two, wrong),
        ("2", "( 9 256 )", "( 1 0 )", one, wrong),
        ("2", "( 9 256 )", "( 0 1 )", one, wrong),
        ("2", "( 9 255 )", "( 0 0 )", one, wrong),
        ("2", "( 9 65536 )", "( 0 0 )", two, Ok(327686)),
        ("2", "( 9 1 )", "( 0 0 )", none, wrong),
        ("1", "9", "0", none, Ok(5)),
        ("1", "9", "1", none, wrong),
        ("1", "9", "0", one, wrong),
        ("3", "( 9 16 16 )", "( 0 0 0 )", one, wrong),
        ("3", "( 9 1 256 )", "( 0 0 0 )", one, wrong),
    ];
    for (count, moduli, offsets, bytes, want) in table {
        let data = format!(in rt.alloc();
            "SCLK01_N_FIELDS_99 = {count}\nSCLK01_MODULI_99 = {moduli}\nSCLK01_OFFSETS_99 = {offsets}"
        )?;
        let clock = clock_of(&rt, data.as_str())?;
        expect_code(&rt, &clock, None, bytes, want)?;
        expect_code(
            &rt,
            &clock,
            Some(9),
            bytes,
            want.and(Err(ClockFault::NoSuchPartition)),
        )?;
    }
    Ok(())
}

#[test]
fn codes_of_88_bits(rt: HostRuntime) -> Result<(), Fail> {
    // Seven basic and four fraction octets.
    let clock = clock_of(&rt, "SCLK01_MODULI_99 = ( 9 4294967296 )")?;
    let outside = Err(ClockFault::OutsidePartition);
    let table = [
        (
            b"\x9f\x64\x00\x00\x00\x00\x00\x00\x01\x00\x00\x00\x05".as_slice(),
            Ok(4294967301),
        ),
        (
            b"\x9f\x64\x00\x00\x00\x00\x00\x00\xff\xff\xff\xff\xff".as_slice(),
            Ok(1099511627775),
        ),
        (
            b"\x9f\x64\x00\x00\x00\x00\x00\x01\x00\x00\x00\x00\x00".as_slice(),
            outside,
        ),
        (
            b"\x9f\x64\xff\xff\xff\xff\xff\xff\xff\xff\xff\xff\xff".as_slice(),
            outside,
        ),
        // Its last 64 bits are the count 5.
        (
            b"\x9f\x64\x00\x00\x01\x00\x00\x00\x00\x00\x00\x00\x05".as_slice(),
            outside,
        ),
    ];
    for (bytes, want) in table {
        expect_code(&rt, &clock, None, bytes, want)?;
    }
    Ok(())
}
