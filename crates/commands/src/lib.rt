// What the command-line programs have in common: a script of lines, the arguments of a line, and what is printed.
#![tactic(auto)]

mod arguments;
mod fault;
mod hash;
mod print;
mod script;
mod words;

pub use arguments::{Arguments, only_number, only_number32};
pub use fault::{LineError, Misread};
pub use hash::{Hash, next_number};
pub use print::{print_bare_bytes, print_bytes};
pub use script::{Answers, Script, answer_all, read_input};
pub use words::{device_id_of, identifier_of, integer_of, only_word};
