// The unit: power, feed and tick over any store and sensor.
#![tactic(auto)]

mod calls;
mod changing;
mod cores;
mod device;
mod filling;
mod making;
mod sending;
mod serving;
mod ticking;
mod waking;

pub use device::Device;
pub use session::{Fed, Refusal};
