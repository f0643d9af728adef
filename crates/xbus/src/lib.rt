// Xbus frames: numbers and checksum, what stands at the front of a list of bytes, the parts of a frame, writing one.
#![tactic(auto)]

mod data_len;
mod front;
mod numbers;
mod parts;
mod writing;

pub use data_len::DataLen;
pub use front::{EXTENDED, Front, LONGEST, MOST_DATA, START, at_front, sum};
pub use numbers::{number, put_number};
pub use parts::{Frame, Header, first_frame, split_frame};
pub use writing::{WriteError, seal_frame, write_frame};
