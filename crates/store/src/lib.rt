// Where an image is kept: what a store means, a cell of fixed memory, and a page over lent memory.
#![tactic(auto)]

mod cell;
mod image;
mod page;
mod port;
mod slots;
mod trial;

pub use cell::Cell;
pub use page::Page;
pub use port::{IMAGE, Loaded, Store, StoreError};
pub use trial::{Trial, try_store};
