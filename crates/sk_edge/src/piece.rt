// One read of a file that is read in pieces.
ghost use Rattle.std.specs.Prelude.{◌≡◌, ◌≤◌, ◌<◌, ◌+◌, ◌-◌, ◌^◌, min, [], ℕ, length, take, IfOk, IsErrOf};
ghost use Rattle.std.specs.Io.{ReadsAtMost};
ghost use Rattle.std.specs.Io.KnownBytes.{Consumes, IsAtEnd};
ghost use Rattle.sk_edge.specs.Asked.{Asks};
ghost use Rattle.sk_edge.specs.Causes.{Rose, NoneFalls};
ghost use Rattle.sk_edge.specs.Transfer.{SameFiles, ReadsPast};

use crate::Depot;

/// Why a piece was not read.
#[derive(Clone, Copy, Debug, PartialEq, Eq)]
pub enum PieceStop {
    Fault,
    TooLong,
}

/// The next piece of the chosen file, of which `taken` bytes were read before.
pub fn read_piece<D: Depot>(
    depot: &mut D,
    name: &str,
    buf: &mut [u8],
    taken: usize,
    limit: usize,
) -> Result<usize, PieceStop>
    requires chosen { D.chosen depot.old name.now }
    requires room { 0 < length buf.old }
    requires within { taken ≤ limit }
    ensures same_files { SameFiles (D.holds depot.old) (D.holds depot.new) }
    ensures stays_chosen { D.chosen depot.new name.now }
    ensures bound { ReadsAtMost result buf.new }
    ensures within { IfOk result (λ count. taken + count ≤ limit) }
    ensures bytes { IfOk result (λ count. Consumes (D.rest depot.old) (D.rest depot.new) (take count buf.new)) }
    ensures end { IfOk result (λ count. count ≡ 0 → IsAtEnd (D.rest depot.new)) }
    ensures given { IfOk result (λ count. D.given depot.new ≡ min (D.given depot.old + count) (2 ^ 64 - 1)) }
    // A fault leaves the file where it was.
    ensures refused { IsErrOf result PieceStop.Fault → D.rest depot.new ≡ D.rest depot.old }
    ensures still_given { IsErrOf result PieceStop.Fault → D.given depot.new ≡ D.given depot.old }
    ensures asks { Asks (D.asked depot.old) (D.asked depot.new) [] }
    ensures counts { NoneFalls (D.faults depot.old) (D.faults depot.new) }
    ensures fault { IsErrOf result PieceStop.Fault → Rose (D.faults depot.old name.now) (D.faults depot.new name.now) }
    // Too long is a file of which this read gives more than the limit leaves.
    ensures too_long { IsErrOf result PieceStop.TooLong → ReadsPast taken limit (D.rest depot.old) (D.rest depot.new) (D.given depot.old) (D.given depot.new) buf.new }
{
    let Ok(count) = depot.read(name, buf) else {
        return Err(PieceStop::Fault);
    };
    if count > limit - taken {
        return Err(PieceStop::TooLong);
    }
    Ok(count)
}
