ghost use Rattle.std.specs.Prelude.{◌≡◌, ◌∷◌, ◌++◌, [], All, IfOk, IfSome, codes};
ghost use Rattle.sk_grammar.specs.Document.{IsDate, IsTextLine};
ghost use Rattle.sk_publication.specs.Publication.{HasNumbers};

use crate::published_doc;
use sk_checks::NoMemory;
use sk_decimal::Fixed;
use sk_grammar::{Lines, read_doc};
use sk_triples::Triple;
use sk_writer::write_doc;
use std::alloc::Global;
use std::test::Fail;

// A table of no observations.
fn no_rows(alloc: Global) -> Result<Lines, NoMemory>
    ensures { IfOk result (All IsTextLine) }
{
    let lines = Lines::new(alloc).with_line(b"residuals;0")?;
    Ok(lines)
}

// What a publication of these triples makes of a kernel with one line of text.
fn written(alloc: Global, id: Option<&str>, triples: &[Triple]) -> Result<Vec<u8>, Fail>
    requires id { IfSome id (λ text. IsDate (codes "@" ++ text.now)) }
    requires triples { All HasNumbers triples.now }
{
    let doc = read_doc(alloc, b"head\n")?;
    let published = published_doc(alloc, doc, id, 99, triples, no_rows(alloc)?)?;
    Ok(write_doc(alloc, &published)?)
}

#[test]
fn nothing_new(rt: HostRuntime) -> Result<(), Fail> {
    let text = written(rt.alloc(), None, &[])?;
    assert_eq!(rt;
        text.as_slice(),
        b"head\n\\begindata\n\\begintext\nresiduals;0\n".as_slice()
    );
    Ok(())
}

#[test]
fn an_id_alone(rt: HostRuntime) -> Result<(), Fail> {
    let text = written(rt.alloc(), Some("K1/7"), &[])?;
    assert_eq!(rt;
        text.as_slice(),
        b"head\n\\begindata\nSCLK_KERNEL_ID = @K1/7\n\\begintext\nresiduals;0\n".as_slice()
    );
    Ok(())
}

// The numbers by hand: 3906250000000000 / 10^18 is 0.00390625, and so on.
#[test]
fn an_id_and_two_triples(rt: HostRuntime) -> Result<(), Fail> {
    let triples = [
        Triple {
            ticks: 1,
            time: Fixed {
                units: 3_906_250_000_000_000,
            },
            rate: Fixed {
                units: 1_000_002_000_000_000_000,
            },
        },
        Triple {
            ticks: 512_000,
            time: Fixed {
                units: 2_000_003_999_992_188_000_000,
            },
            rate: Fixed {
                units: 1_000_006_000_000_000_000,
            },
        },
    ];
    let text = written(rt.alloc(), Some("K2"), &triples)?;
    assert_eq!(rt;
        text.as_slice(),
        b"head\n\\begindata\nSCLK_KERNEL_ID = @K2\nSCLK01_COEFFICIENTS_99 += (\n1 0.00390625 1.000002\n512000 2000.003999992188 1.000006\n)\n\\begintext\nresiduals;0\n".as_slice()
    );
    Ok(())
}
