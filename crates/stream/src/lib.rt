// Reading a stream of Xbus bytes: what is dropped, the bytes that wait, and whole recordings.
#![tactic(auto)]

mod buffer;
mod reading;
mod settling;
mod until;
mod waiting;

pub use buffer::Waiting;
pub use reading::{Piece, Pieces, next_piece, read_recording};
pub use settling::{Settled, settle};
pub use waiting::FrameWaits;
pub use xbus::LONGEST;
