// Worked examples of stores and sensors, each proved to be safe and then run.
#![tactic(auto)]

mod any;
#[cfg(test)]
mod sensors;
#[cfg(test)]
mod stores;

pub use any::{left_of_any, load_any, reading_of_any, save_any};
