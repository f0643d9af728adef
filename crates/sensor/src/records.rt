// A sensor over recorded rows.
ghost use Rattle.std.specs.Prelude.{◌≡◌};
ghost use Rattle.sensor.specs.Ranges.{Ranged};
ghost use Rattle.sensor.specs.Records.{counts_at, last_of, recorded_of, Replayed};

use crate::questions::asked;
use crate::ranges::clamped;
use crate::sensors::{Question, Sensor};

// The numbers of a channel at a tick, one for each index of its data.
#[derive(Clone, Copy)]
pub struct Row {
    pub channel: u16,
    pub tick: u32,
    pub numbers: [i64; 9],
}

impl Row {
    // Whether the row is of the channel and not above the tick.
    fn counts(&self, question: Question) -> bool
        ensures { result ≡ counts_at question.channel question.tick self.now }
    {
        self.channel == question.channel && self.tick <= question.tick
    }
}

// The last row that counts, in the order of the list.
fn last_row(rows: &[Row], question: Question) -> Option<Row>
    ensures { result ≡ last_of question.channel question.tick rows.now }
{
    rows.iter().rev().find(|row| row.counts(question)).copied()
}

// Rows in the order in which they were recorded: the last that counts gives the reading, clamped to its range.
#[derive(Clone, Copy)]
pub struct Recorded<'a> {
    pub rows: &'a [Row],
}

impl Sensor for Recorded<'_> {
    ghost meaning = { λ s. recorded_of s.rows.now };

    #[tactic(auto, using(crate::proofs::Kept::recorded_ranged))]
    fn reading(&mut self, question: Question) -> Option<i64>
        ensures answer { result ≡ recorded_of self.old.rows.now question.channel question.index question.tick }
        ensures stays { recorded_of self.new.rows.now ≡ recorded_of self.old.rows.now }
        ensures range { Ranged (recorded_of self.old.rows.now) }
        ensures last { Replayed self.old.rows.now question.channel question.index question.tick result }
    {
        let kind = asked(question.channel, question.index)?;
        let row = last_row(self.rows, question)?;
        Some(clamped(kind, row.numbers[question.index]))
    }
}
