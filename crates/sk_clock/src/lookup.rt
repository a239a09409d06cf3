//! The partition of a tick.

ghost use Rattle.std.specs.Prelude.{◌≡◌, ◌<◌, ◌≤◌, List, length, map, MatchOption};
ghost use Rattle.sk_clock.specs.Clock.{ticks_in, partition_from, total as total_of, partition_at as partition_at_of};
ghost use Rattle.sk_clock.specs.Kept.{lengths_before};
ghost use Rattle.sk_clock.specs.declared.partition.Partition.{Partition};

use crate::clock::Clock;

/// How many partitions have begun at a tick, by the lengths before each.
fn begun(earlier: &[u64], tick: u64) -> usize
    ensures number { (partitions : List Partition) → earlier.now ≡ lengths_before 0 partitions → result ≡ partition_from 0 (map ticks_in partitions) tick }
    ensures few { result ≤ length earlier.now }
{
    earlier.partition_point(|before| *before <= tick)
}

impl Clock {
    /// The partition at a tick; `None` exactly where the tick is above the total.
    pub fn partition_at(&self, tick: u64) -> Option<u32>
        ensures { MatchOption result (total_of self.now < tick) (λ p. (tick ≤ total_of self.now) × (p ≡ partition_at_of self.now tick)) }
    {
        if tick > self.total {
            return None;
        }
        Some(begun(self.earlier.as_slice(), tick) as u32)
    }
}
