// What a unit does, and what holds of all its sessions.
#![tactic(auto)]

mod answers;
mod counts;
mod laws;

pub use answers::{Fed, Refusal};
pub use counts::Counts;
pub use laws::{cases_stand, samples_stand, sessions_stand};
