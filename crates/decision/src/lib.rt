// What a message to a unit asks for, by the unit's state and product, the message's identifier and its data.
#![tactic(auto)]

mod actions;
mod deciding;
mod states;

pub use actions::{Action, Change, Question};
pub use deciding::{MessageError, decide, fits_entries};
pub use states::State;
