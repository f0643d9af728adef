// Calls played on units, and what they answer and write.
#![tactic(auto)]

mod both;
mod calls;
mod feeding;
mod playing;

pub use both::{World, replay_both};
pub use calls::{Answer, Call, Replay};
pub use feeding::{FeedError, feed_all};
pub use playing::replay;
