// The frequencies that a channel is sent at.
ghost use Rattle.std.specs.Prelude.{◌≡◌};
ghost use Rattle.settings.specs.Rates.{largest_divisor, DivisorSaid};

// The largest divisor of the maximum that is not above the frequency asked; 0 if there is none.
// Form: 0 for none, as was promised: it is taken as the frequency, and the rules refuse 0 Hz.
pub fn largest_divisor(max_hz: u16, asked: u16) -> u16
    ensures is { result ≡ largest_divisor max_hz asked }
    ensures said { DivisorSaid }
{
    (0..asked.min(max_hz))
        .rev()
        .map(|below| below.saturating_add(1))
        .find(|hz| max_hz % *hz == 0)
        .unwrap_or(0)
}
