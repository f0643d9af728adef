// A synthetic sensor.
ghost use Rattle.std.specs.Prelude.{◌≡◌, ◌<◌};
ghost use Rattle.sensor.specs.Ramps.{ramp_at, ramp_of};

use crate::questions::asked;
use crate::sensors::{Question, Sensor};
use mti::Kind;

// Real numbers climb with each tick, the faster the higher the index, and start again. Whole ones are the tick.
#[derive(Clone, Copy)]
pub struct Ramp;

// The number at the index and tick. Real ones are in units of 2^-32.
fn climb(kind: Kind, question: Question) -> i64
    requires { question.index < 9 }
    ensures { result ≡ ramp_at question.index question.tick kind }
{
    match kind {
        Kind::Real(_) => {
            let step = (question.index as u64 + 1) * u64::from(question.tick) % 65536;
            (step as i64 - 32768) * 0x1_0000_0000
        }
        Kind::Whole(_) => i64::from(question.tick),
    }
}

impl Sensor for Ramp {
    ghost meaning = { λ _. ramp_of };

    #[tactic(auto, using(crate::proofs::Kept::ramp_ranged))]
    fn reading(&mut self, question: Question) -> Option<i64> {
        let kind = asked(question.channel, question.index)?;
        Some(climb(kind, question))
    }
}
