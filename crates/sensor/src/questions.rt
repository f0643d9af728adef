// What a sensor is asked for.
ghost use Rattle.std.specs.Prelude.{◌≡◌};
ghost use Rattle.mti.specs.Exactly.{Exactly};
ghost use Rattle.sensor.specs.Questions.{made_by_unit, count_of, asked_of, Asked, Few};

use mti::{Kind, find_channel};

// The packet counter, the sample times and the status byte: a unit makes these itself.
fn made_by_unit(channel: u16) -> bool
    ensures { result ≡ made_by_unit channel }
{
    matches!(channel, 0x1020 | 0x1060 | 0x1070 | 0xE010)
}

// How many numbers the data have.
fn count(kind: Kind) -> usize
    ensures { result ≡ count_of kind }
{
    match kind {
        Kind::Real(count) => usize::from(count),
        Kind::Whole(_) => 1,
    }
}

// The kind of the number at the index of the channel, where a sensor is asked for one.
#[tactic(auto, unfolding(crate::specs::Questions::asked_of))]
pub fn asked(channel: u16, index: usize) -> Option<Kind>
    ensures is { result ≡ asked_of channel index }
    ensures exact { Exactly (Asked channel index) result }
    ensures few { Few index result }
{
    if made_by_unit(channel) {
        return None;
    }
    let kind = find_channel(channel)?.kind;
    (index < count(kind)).then_some(kind)
}
