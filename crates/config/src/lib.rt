// What messages in the Config state give: changed settings, and the data of answers.
#![tactic(auto)]

mod answers;
mod changes;
mod layout;
mod outputs;

pub use answers::{MOST_ANSWER, answer};
pub use changes::{WrongValue, change};
pub use layout::configuration;
