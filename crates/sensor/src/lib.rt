// What a unit measures: sensors, among them a synthetic one and one that replays recorded rows.
#![tactic(auto)]

mod questions;
mod ramps;
mod ranges;
mod records;
mod sensors;

pub use questions::asked;
pub use ramps::Ramp;
pub use records::{Recorded, Row};
pub use sensors::{Question, Sensor, two_readings};
