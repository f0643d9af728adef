// Bytes as pairs of hexadecimal digits.
ghost use Rattle.std.specs.Prelude.{◌≡◌, ◌<◌, map, IfSome, Some};
ghost use Rattle.std.specs.Char.{to_ascii_uppercase};
ghost use Rattle.lines.specs.Bytes.{hex_value, hex_digit, byte_of, digits_of};

// What one hexadecimal digit stands for, or none.
fn value(c: u8) -> Option<u8>
    ensures value { result ≡ hex_value c }
    ensures bound { IfSome result (λ n. n < 16) }
{
    char::from(c).to_digit(16).map(|n| n as u8)
}

// The upper-case digit for a number below 16.
// Form: by hand, since char::from_digit gives a lower-case char, and turning that into an upper-case byte is no plainer.
fn digit(n: u8) -> u8
    requires { n < 16 }
    ensures { result ≡ hex_digit n }
{
    if n < 10 { b'0' + n } else { b'A' + (n - 10) }
}

// The byte that exactly two hexadecimal digits stand for, or none.
// Form: digit by digit, since from_str_radix would read a word with a plus sign in front too.
pub fn byte_of(word: &[u8]) -> Option<u8>
    ensures value { result ≡ byte_of word.now }
    ensures back { IfSome result (λ b. digits_of b ≡ map to_ascii_uppercase word.now) }
{
    let [high, low] = word else {
        return None;
    };
    let high = value(*high)?;
    let low = value(*low)?;
    Some(high * 16 + low)
}

// The two upper-case digits of a byte.
pub fn digits(byte: u8) -> [u8; 2]
    ensures value { result ≡ digits_of byte }
    ensures back { byte_of result ≡ Some byte }
{
    [digit(byte / 16), digit(byte % 16)]
}
