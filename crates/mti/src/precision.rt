// The formats of one real number.
ghost use Rattle.std.specs.Prelude.{◌≡◌};
ghost use Rattle.std.specs.Result.{result_ok};
ghost use Rattle.mti.specs.Exactly.{Exactly};
ghost use Rattle.mti.specs.Precisions.{decoded_of, digit_of, width_of};

#[derive(Clone, Copy, PartialEq, Debug)]
pub enum Precision {
    Single = 0,
    Fixed32 = 1,
    Fixed48 = 2,
    Double = 3,
}

impl Precision {
    // The format digit, the last hexadecimal digit of an identifier.
    pub fn digit(self) -> u16
        ensures { result ≡ digit_of self }
    {
        self as u16
    }

    // The bytes of one real number.
    pub fn width(self) -> usize
        ensures { result ≡ width_of self }
    {
        match self {
            Precision::Single | Precision::Fixed32 => 4,
            Precision::Fixed48 => 6,
            Precision::Double => 8,
        }
    }
}

// A format digit that no precision has.
#[derive(Clone, Copy, PartialEq, Debug)]
pub struct UnknownDigit(pub u16);

impl TryFrom<u16> for Precision {
    type Error = UnknownDigit;

    ghost try_from_gives = { λ digit r. r ≡ decoded_of digit };

    // The precision with this format digit.
    fn try_from(digit: u16) -> Result<Precision, UnknownDigit>
        ensures is { result ≡ decoded_of digit }
        ensures exact { Exactly (λ p. digit_of p ≡ digit) (result_ok result) }
    {
        match digit {
            0 => Ok(Precision::Single),
            1 => Ok(Precision::Fixed32),
            2 => Ok(Precision::Fixed48),
            3 => Ok(Precision::Double),
            _ => Err(UnknownDigit(digit)),
        }
    }
}
