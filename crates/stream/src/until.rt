// How many bytes a start waits for.
ghost use Rattle.std.specs.Prelude.{◌≡◌};
ghost use Rattle.stream.specs.Until.{until};

use xbus::EXTENDED;

// A start waits, whatever comes, while there are fewer bytes than these.
pub(crate) fn waits_until(start: &[u8]) -> usize
    ensures { result ≡ until start.now }
{
    match start {
        [] => 0,
        [_] | [_, _] | [_, _, _] => 4,
        [_, _, _, EXTENDED] | [_, _, _, EXTENDED, _] => 5,
        [_, _, _, EXTENDED, high, low, ..] => { 7 + usize::from(u16::from_be_bytes([*high, *low])) }
        [_, _, _, len, ..] => 5 + usize::from(*len),
    }
}
