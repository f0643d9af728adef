// Sensors.
ghost use Rattle.std.specs.Prelude.{◌≡◌, ℕ, ℤ, Option};
ghost use Rattle.sensor.specs.Ranges.{InRange, Ranged};

// A channel, an index of its data, and a tick.
#[derive(Clone, Copy, PartialEq, Debug)]
pub struct Question {
    pub channel: u16,
    pub index: usize,
    pub tick: u32,
}

// A sensor means a number or none for each channel, index and tick. To ask it changes nothing,
// and the answer says that each number is in its channel's range.
pub trait Sensor {
    ghost meaning: { Self → ℕ → ℕ → ℕ → Option ℤ };

    fn reading(&mut self, question: Question) -> Option<i64>
        ensures answer { result ≡ meaning self.old question.channel question.index question.tick }
        ensures stays { meaning self.new ≡ meaning self.old }
        ensures range { Ranged (meaning self.old) };
}

// The readings of one question and then of another, each as if it had been asked alone.
pub fn two_readings<S: Sensor>(
    sensor: &mut S,
    first: Question,
    second: Question,
) -> (Option<i64>, Option<i64>)
    ensures first { result.0 ≡ S.Sensor.meaning sensor.old first.channel first.index first.tick }
    ensures second { result.1 ≡ S.Sensor.meaning sensor.old second.channel second.index second.tick }
    ensures stays { S.Sensor.meaning sensor.new ≡ S.Sensor.meaning sensor.old }
    ensures range { InRange first.channel first.index result.0 × InRange second.channel second.index result.1 }
{
    let one = sensor.reading(first);
    let other = sensor.reading(second);
    (one, other)
}
