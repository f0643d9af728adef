// A sensor reading as the bytes that are sent, in four precisions.
#![tactic(auto)]

mod put;
mod reading;

pub use mti::{HIGHEST, LOWEST};
pub use put::{NumberError, put_real};
