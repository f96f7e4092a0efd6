// Stored times, and the milliseconds that they stand for: the time part of zlf/reader.rs.
#![tactic(auto)]

ghost use Rattle.std.specs.Prelude.{◌≡◌};
ghost use Rattle.ticks.specs.Ticks.{cleared, unix_millis};

// .NET ticks (100 ns units) between 0001-01-01 and the Unix epoch.
pub const TICKS_UNIX_EPOCH: u64 = 621_355_968_000_000_000;

// Ticks in a millisecond.
pub const TICKS_PER_MILLISECOND: u64 = 10_000;

// The tick count of a stored time: the two bits of its kind are cleared.
pub fn ticks(raw: u64) -> u64
    ensures { result ≡ cleared raw }
{
    raw % 0x4000_0000_0000_0000
}

// Milliseconds since the Unix epoch, rounded toward zero. A tick count is below 2^62, so an i64 has it, and `/` rounds toward zero.
pub fn unix_millis(raw: u64) -> i64
    ensures { result ≡ unix_millis raw }
{
    (ticks(raw) as i64 - TICKS_UNIX_EPOCH as i64) / TICKS_PER_MILLISECOND as i64
}
