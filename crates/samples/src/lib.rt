// What a unit sends in a tick, composed in a tray of the caller.
#![tactic(auto)]

mod data;
mod message;

pub use message::write_sample;
