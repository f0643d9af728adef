// A reading within the range, and its bits in each precision.
ghost use Rattle.std.specs.Prelude.{◌≡◌, true, cond};
ghost use Rattle.std.specs.Float.{binary64};
ghost use Rattle.std.specs.Option.{option_map};
ghost use Rattle.mti.specs.declared.precision.Precision.TheVariants.{Single, Fixed32, Fixed48, Double};
ghost use Rattle.numbers.specs.Encoding.{in_range, rounded, code_of};
ghost use Rattle.numbers.specs.Steps.{steps};

use mti::{HIGHEST, LOWEST, Precision};
use std::num::nearest_f64_to_f32;

// A reading from LOWEST to HIGHEST, in units of 2^-32.
#[derive(Clone, Copy)]
pub(crate) struct Reading {
    value: i64,
    ghost ranged: { in_range value ≡ true },
}

impl Reading {
    // The reading of this value, if the value is in range.
    pub(crate) fn new(value: i64) -> Option<Reading>
        ensures { option_map (λ r. r.value) result ≡ cond (in_range value) (Some value) None }
    {
        // Form: an `if`, since a closure for `then` would state the test again, as a `requires` for the ghost field.
        if (LOWEST..=HIGHEST).contains(&value) {
            Some(Reading { value })
        } else {
            None
        }
    }

    // The bits in a precision, as a number.
    pub(crate) fn code(self, precision: Precision) -> u64
        ensures { result ≡ code_of precision self.value }
    {
        match precision {
            Precision::Single => self.single(),
            Precision::Fixed32 => self.fixed32(),
            Precision::Fixed48 => self.fixed48(),
            Precision::Double => self.double(),
        }
    }

    // The reading as a double, which holds all its digits.
    fn scaled(self) -> f64
        ensures { result ≡ rounded binary64 self.value }
    {
        self.value as f64 / 4294967296.0
    }

    // The single nearest to the reading.
    fn single(self) -> u64
        ensures { result ≡ code_of Single self.value }
    {
        u64::from(nearest_f64_to_f32(self.scaled()).to_bits())
    }

    fn double(self) -> u64
        ensures { result ≡ code_of Double self.value }
    {
        self.scaled().to_bits()
    }

    // The reading in steps of 2^-20.
    fn steps(self) -> i64
        ensures { result ≡ steps self.value }
    {
        self.value >> 12
    }

    // 12.20: the steps, held to 32 bits, in two's complement.
    fn fixed32(self) -> u64
        ensures { result ≡ code_of Fixed32 self.value }
    {
        let held = self.steps().clamp(-0x8000_0000, 0x7FFF_FFFF);
        held.rem_euclid(0x1_0000_0000) as u64
    }

    // 16.32: the reading in 48 bits, in two's complement.
    fn fixed48(self) -> u64
        ensures { result ≡ code_of Fixed48 self.value }
    {
        self.value.rem_euclid(0x1_0000_0000_0000) as u64
    }
}
