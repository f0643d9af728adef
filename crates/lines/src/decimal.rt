// Decimal numbers.
ghost use Rattle.std.specs.Prelude.{◌≡◌};
ghost use Rattle.lines.specs.Decimals.{with_digit, decimal_of, DecimalReadsBack};

// The number with one more digit behind it, or none if `c` is no digit or the number gets too large.
fn with_digit(n: u64, c: u8) -> Option<u64>
    ensures { result ≡ with_digit n c }
{
    let digit = char::from(c).to_digit(10)?;
    n.checked_mul(10)?.checked_add(u64::from(digit))
}

// The number that one or more decimal digits stand for, or none if it is 2^64 or more.
// Form: digit by digit, since parse would read a word with a plus sign in front too.
pub fn decimal_of(word: &[u8]) -> Option<u64>
    ensures value { result ≡ decimal_of word.now }
    ensures back { DecimalReadsBack }
{
    if word.is_empty() {
        return None;
    }
    let mut n = 0;
    for c in word {
        n = with_digit(n, *c)?;
    }
    Some(n)
}
