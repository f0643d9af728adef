// What words stand for.
ghost use Rattle.std.specs.Prelude.{◌≡◌};
ghost use Rattle.std.specs.Option.{option_map};
ghost use Rattle.lines.specs.Cuts.{seen};
ghost use Rattle.lines.specs.Words.{words_of};
ghost use Rattle.commands.specs.Numbers.{only, identifier_of, device_id_of, magnitude_of, integer_of};

use lines::{byte_of, decimal_of, words_in};

// The only word of a line.
pub fn only_word(line: &[u8]) -> Option<&[u8]>
    ensures { option_map (λ word. word.now) result ≡ only (words_of line.now) }
{
    let mut words = words_in(line);
    let word = words.next()?;
    words.next().is_none().then_some(word)
}

// The number that four hexadecimal digits stand for.
pub fn identifier_of(word: &[u8]) -> Option<u16>
    ensures { result ≡ identifier_of word.now }
{
    let (high, low) = word.split_at_checked(2)?;
    Some(u16::from_be_bytes([byte_of(high)?, byte_of(low)?]))
}

// The number that eight hexadecimal digits stand for.
pub fn device_id_of(word: &[u8]) -> Option<u32>
    ensures { result ≡ device_id_of word.now }
{
    let (high, low) = word.split_at_checked(4)?;
    let high = identifier_of(high)?;
    let low = identifier_of(low)?;
    Some(u32::from(high) * 0x1_0000 + u32::from(low))
}

// The number that decimal digits stand for, if it is below 2^63.
fn magnitude_of(digits: &[u8]) -> Option<i64>
    ensures { result ≡ magnitude_of digits.now }
{
    i64::try_from(decimal_of(digits)?).ok()
}

// The whole number that decimal digits, with a minus sign in front or not, stand for.
pub fn integer_of(word: &[u8]) -> Option<i64>
    ensures { result ≡ integer_of word.now }
{
    match word {
        [b'-', digits @ ..] => magnitude_of(digits)?.checked_neg(),
        _ => magnitude_of(word),
    }
}
