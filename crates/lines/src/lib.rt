// The lines of text that the command-line programs read and print.
#![tactic(auto)]

mod cut;
mod decimal;
mod hex;
mod print;
mod text;
mod words;

pub use decimal::decimal_of;
pub use hex::{byte_of, digits};
pub use print::push_bytes;
pub use text::{Lines, lines_in, next_line};
pub use words::{LineFault, Words, bytes_of, next_word, words_in};
