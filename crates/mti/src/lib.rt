// The products, their channels, and the identifiers under which their data is sent.
#![tactic(auto)]

mod channel;
mod output;
mod precision;
mod product;
mod readings;

pub use channel::{Availability, Channel, Kind, find_channel};
pub use output::{Output, PACKET_HEADER, channel_identifier, data_size, known};
pub use precision::{Precision, UnknownDigit};
pub use product::Product;
pub use readings::{HIGHEST, LOWEST};
