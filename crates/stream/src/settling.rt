// Dropping bytes from the front until a whole frame stands there or the rest waits.
ghost use Rattle.std.specs.Prelude.{◌≡◌, ◌≤◌, length};
ghost use Rattle.xbus.specs.Front.{front_of};
ghost use Rattle.stream.specs.Settling.{dropped, settled, front_by, Settles};

use xbus::{Front, START, at_front};

// How many bytes are dropped, and the size of the whole frame behind them, if there is one.
#[derive(Clone, Copy, Debug, PartialEq)]
pub struct Settled {
    pub dropped: usize,
    pub whole: Option<usize>,
}

// Looks at each start once.
pub fn settle(bytes: &[u8]) -> Settled
    ensures dropped { result.dropped ≡ dropped bytes.now }
    ensures whole { front_by result.whole ≡ front_of (settled bytes.now) }
    ensures within { result.dropped ≤ length bytes.now }
    ensures settles { Settles bytes.now (dropped bytes.now) }
{
    for start in 0..bytes.len() {
        // Most starts that are wrong are so by their first byte.
        if bytes[start] != START {
            continue;
        }
        let whole = match at_front(&bytes[start..]) {
            Front::Whole(size) => Some(size),
            Front::Waits => None,
            Front::Wrong => continue,
        };
        return Settled {
            dropped: start,
            whole,
        };
    }
    Settled {
        dropped: bytes.len(),
        whole: None,
    }
}
