// The ranges of a channel's numbers. Real numbers are in units of 2^-32.
ghost use Rattle.std.specs.Prelude.{◌≡◌};
ghost use Rattle.sensor.specs.Ranges.{clamped_of};

use mti::{HIGHEST, Kind, LOWEST};

// The number held between the least and the greatest.
pub fn clamped(kind: Kind, number: i64) -> i64
    ensures { result ≡ clamped_of kind number }
{
    match kind {
        Kind::Real(_) => number.clamp(LOWEST, HIGHEST),
        Kind::Whole(_) => number.clamp(0, 0xFFFF_FFFF),
    }
}
