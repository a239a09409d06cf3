//! Kernels, settings and observations to audit.

ghost use Rattle.std.specs.Prelude.{◌^◌, ◌<◌, length, IsTrue, IfOk};
ghost use Rattle.sk_clock.specs.Clock.{total};
ghost use Rattle.sk_publishing.specs.Row.{AreRows};
ghost use Rattle.sk_grammar.specs.Variables.{items_of};
ghost use Rattle.sk_audit.specs.Given.{AreSettings};

use sk_audit::AuditSettings;
use sk_clock::Clock;
use sk_decimal::Fixed;
use sk_grammar::{Doc, List, read_doc};
use sk_leap::LeapTable;
use sk_obs::{Observation, read_observations};
use sk_pool::Pool;
use std::alloc::Global;
use std::process::Abort;
use std::test::Fail;

/// A kernel with one triple.
pub const OLD: &str = "KPL/SCLK
\\begindata
SCLK_KERNEL_ID = @2024-01-01
SCLK_DATA_TYPE_99 = 1
SCLK01_TIME_SYSTEM_99 = 2
SCLK01_N_FIELDS_99 = 2
SCLK01_MODULI_99 = ( 4294967296 256 )
SCLK01_OFFSETS_99 = ( 0 0 )
SCLK01_OUTPUT_DELIM_99 = 2
SCLK_PARTITION_START_99 = 0
SCLK_PARTITION_END_99 = 1099511627775
SCLK01_COEFFICIENTS_99 = ( 0 0 1 )
\\begintext
";

/// What is asked of a publication, as the program's words have it.
#[derive(Clone, Copy)]
pub struct Asked {
    pub rate_decimals: u32,
    pub hold: Option<u64>,
    pub reject: u32,
}

pub const NINE_DECIMALS: Asked = Asked {
    rate_decimals: 9,
    hold: None,
    reject: 0,
};

pub fn settings(rt: &impl Abort, asked: Asked) -> AuditSettings
    ensures { AreSettings result }
{
    assert!(rt; 1 <= asked.rate_decimals);
    assert!(rt; asked.rate_decimals <= 15);
    assert!(rt; asked.reject <= 100_000);
    if let Some(hold) = asked.hold {
        assert!(rt; hold < 1 << 53);
    }
    AuditSettings {
        tolerance: Fixed {
            units: 1_000_000_000,
        },
        rate_decimals: asked.rate_decimals,
        band: 1000,
        slip: Fixed { units: 1_000_000 },
        hold: asked.hold,
        reject: asked.reject,
    }
}

fn has_few_items(doc: &Doc) -> bool
    ensures { IsTrue result → length (items_of doc.now) < 2 ^ 32 }
{
    match doc.blocks.as_slice() {
        [block] => block.items.as_text().len() < 100_000,
        _ => false,
    }
}

/// The document of a text.
pub fn doc(rt: &(impl Abort + AllocGlobal), text: &str) -> Result<Doc, Fail> {
    assert!(rt; text.len() < 100_000);
    Ok(read_doc(rt.alloc(), text.as_bytes())?)
}

/// The variables of a document of one block.
pub fn pool(rt: &(impl Abort + AllocGlobal), doc: &Doc) -> Result<Pool, Fail> {
    assert!(rt; has_few_items(doc));
    Ok(Pool::of(rt.alloc(), doc)?)
}

/// The observations of these records.
pub fn observations(alloc: Global, clock: &Clock, records: &str) -> Result<List<Observation>, Fail>
    ensures { IfOk result (AreRows (total clock.now)) }
{
    let text = format!(in alloc; "id,clock,time,delay\n{records}")?;
    let list = read_observations(alloc, text.as_bytes(), clock, &LeapTable::none())?;
    Ok(list)
}
