// A text cut at the first of a given byte.
ghost use Rattle.std.specs.Prelude.{◌≡◌, ◌==◌, position};
ghost use Rattle.lines.specs.Cuts.{before, from};

// The place of the first `stop`.
fn place_of(text: &[u8], stop: u8) -> Option<usize>
    ensures { result ≡ position (λ b. b == stop) text.now }
{
    text.iter().position(|b| *b == stop)
}

// The bytes in front of the first `stop`, and the bytes from there on.
pub fn cut(text: &[u8], stop: u8) -> (&[u8], &[u8])
    ensures front { result.0.now ≡ before stop text.now }
    ensures back { result.1.now ≡ from stop text.now }
{
    text.split_at(place_of(text, stop).unwrap_or(text.len()))
}
