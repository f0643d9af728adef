// Composing data messages in a tray of the caller.
#![tactic(auto)]

mod composing;
mod draft;
mod extent;
mod refusal;

pub use composing::compose;
pub use draft::{Draft, Record};
pub use refusal::Refusal;
