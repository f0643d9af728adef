// The range of readings.

// A real number's reading is from LOWEST to HIGHEST, in units of 2^-32.
pub const LOWEST: i64 = -0x8000_0000_0000;

pub const HIGHEST: i64 = 0x7FFF_FFFF_FFFF;
