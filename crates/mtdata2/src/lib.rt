// Data messages: reading one that is handed in whole, and its packets.
#![tactic(auto)]

mod fault;
mod frame;
mod message;
mod packet;

pub use fault::{Fault, Layer, Reason};
pub use message::{DATA_MESSAGE, Message, read};
pub use packet::{Packet, Packets, next_packet, size_fits};
