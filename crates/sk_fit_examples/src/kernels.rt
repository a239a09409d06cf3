//! Kernels, settings and observations to fit.

ghost use Rattle.std.specs.Prelude.{◌^◌, ◌<◌, length, IsTrue, IfOk};
ghost use Rattle.sk_clock.specs.Clock.{total};
ghost use Rattle.sk_publishing.specs.Row.{AreRows};
ghost use Rattle.sk_grammar.specs.Variables.{items_of};
ghost use Rattle.sk_fit.specs.Given.{AreSettings};

use sk_clock::Clock;
use sk_decimal::Fixed;
use sk_fit::Settings;
use sk_grammar::{Doc, List, read_doc};
use sk_leap::LeapTable;
use sk_obs::{Observation, read_observations};
use sk_pool::Pool;
use std::alloc::Global;
use std::process::Abort;
use std::test::Fail;

/// One partition of a clock of 256 ticks a count, and two.
pub const ONE_PARTITION: &str = "SCLK01_MODULI_99 = ( 4294967296 256 )
SCLK_PARTITION_START_99 = 0
SCLK_PARTITION_END_99 = 1099511627775
";

pub const TWO_PARTITIONS: &str = "SCLK01_MODULI_99 = ( 4294967296 256 )
SCLK_PARTITION_START_99 = ( 0 0 )
SCLK_PARTITION_END_99 = ( 1000000 1099511627775 )
";

/// Two partitions of a clock of 4 ticks a count.
pub const TWO_OF_QUARTERS: &str = "SCLK01_MODULI_99 = ( 4294967296 4 )
SCLK_PARTITION_START_99 = ( 0 0 )
SCLK_PARTITION_END_99 = ( 4000 1099511627775 )
";

pub const THREE_TICKS: &str = "SCLK01_MODULI_99 = ( 1000 3 )
SCLK_PARTITION_START_99 = 0
SCLK_PARTITION_END_99 = 2999
";

/// What a publication is asked for, as the program's words have it.
#[derive(Clone, Copy)]
pub struct Asked {
    pub tol_ns: u64,
    pub rate_decimals: u32,
    pub band_ppm: u32,
    pub slip_ns: u64,
    pub hold: Option<u64>,
    pub reject: u32,
}

pub const DEFAULTS: Asked = Asked {
    tol_ns: 1_000_000,
    rate_decimals: 12,
    band_ppm: 1000,
    slip_ns: 1_000_000,
    hold: None,
    reject: 0,
};

pub const NINE_DECIMALS: Asked = Asked {
    rate_decimals: 9,
    ..DEFAULTS
};

pub fn settings(rt: &impl Abort, asked: Asked) -> Settings
    ensures { AreSettings result }
{
    assert!(rt; 1 <= asked.tol_ns);
    assert!(rt; asked.tol_ns <= 60_000_000_000);
    assert!(rt; 1 <= asked.rate_decimals);
    assert!(rt; asked.rate_decimals <= 15);
    assert!(rt; 1 <= asked.band_ppm);
    assert!(rt; asked.band_ppm <= 100_000);
    assert!(rt; asked.slip_ns <= 60_000_000_000);
    assert!(rt; asked.reject <= 100_000);
    if let Some(hold) = asked.hold {
        assert!(rt; hold < 1 << 53);
    }
    Settings {
        tolerance: Fixed {
            units: asked.tol_ns as i128 * 1000,
        },
        rate_decimals: asked.rate_decimals,
        band: asked.band_ppm,
        slip: Fixed {
            units: asked.slip_ns as i128,
        },
        hold: asked.hold,
        reject: asked.reject,
    }
}

fn has_few_items(doc: &Doc) -> bool
    ensures { IsTrue result → length (items_of doc.now) < 2 ^ 32 }
{
    match doc.blocks.as_slice() {
        [block] => block.items.as_text().len() < 100_000,
        _ => false,
    }
}

/// The variables of a kernel with these partitions and coefficients.
pub fn pool(
    rt: &(impl Abort + AllocGlobal),
    partitions: &str,
    coefficients: &str,
) -> Result<Pool, Fail> {
    let text = format!(in rt.alloc();
        "\\begindata
SCLK_DATA_TYPE_99 = 1
SCLK01_TIME_SYSTEM_99 = 2
SCLK01_N_FIELDS_99 = 2
SCLK01_OFFSETS_99 = ( 0 0 )
SCLK01_OUTPUT_DELIM_99 = 2
{partitions}SCLK01_COEFFICIENTS_99 = ( {coefficients} )
\\begintext
"
    )?;
    assert!(rt; text.len() < 2000);
    let doc = read_doc(rt.alloc(), text.as_bytes())?;
    assert!(rt; has_few_items(&doc));
    Ok(Pool::of(rt.alloc(), &doc)?)
}

/// The observations of these records.
pub fn observations(alloc: Global, clock: &Clock, records: &str) -> Result<List<Observation>, Fail>
    ensures { IfOk result (AreRows (total clock.now)) }
{
    let text = format!(in alloc; "id,clock,time,delay\n{records}")?;
    let list = read_observations(alloc, text.as_bytes(), clock, &LeapTable::none())?;
    Ok(list)
}
