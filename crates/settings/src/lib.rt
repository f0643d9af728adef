// The settings of a unit: their rules, the factory's, and the image under which they are stored.
#![tactic(auto)]

mod checked;
mod rate;
mod record;
mod rules;

pub use checked::Settings;
pub use rate::largest_divisor;
pub use record::{Entries, Entry, ListFull, MOST_ENTRIES, Record};
