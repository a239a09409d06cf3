//! Partitions of ticks.

ghost use Rattle.std.specs.Prelude.{◌≡◌, ◌↔◌, ◌≤◌, IsTrue};
ghost use Rattle.sk_clock.specs.Clock.{total, partition_at};

use sk_clock::Clock;

/// The number of the partition of a tick.
pub fn partition_of(clock: &Clock, tick: u64) -> u32
    requires { tick ≤ total clock.now }
    ensures { result ≡ partition_at clock.now tick }
{
    clock.partition_at(tick).unwrap()
}

/// Two ticks are in one partition.
pub fn are_together(clock: &Clock, a: u64, b: u64) -> bool
    requires first { a ≤ total clock.now }
    requires second { b ≤ total clock.now }
    ensures { IsTrue result ↔ (partition_at clock.now a ≡ partition_at clock.now b) }
{
    partition_of(clock, a) == partition_of(clock, b)
}
