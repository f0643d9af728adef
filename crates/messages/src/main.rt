// Prints what recordings and data messages hold, composes data messages, and shows readings in four precisions.
#![tactic(auto)]

mod composed;
mod message;
mod reading;
mod recording;

use commands::{Answers, LineError, Misread, answer_all};
use composed::{print_composed, read_packets};
use lines::{bytes_of, next_word};
use message::print_message;
use reading::{print_many, print_reading, read_number, read_seed_and_count};
use recording::print_recording;
use std::process::ExitCode;

// The program.
#[derive(Drop)]
struct Messages;

// Does what a command asks for.
// Out of line: it needs much of the stack, which a line without a command does not.
#[inline(never)]
fn answer_command(rt: &HostRuntime, command: &[u8], rest: &[u8]) -> Result<(), LineError> {
    match command {
        b"f" => print_recording(rt, bytes_of(rt.alloc(), rest)?.as_slice())?,
        b"r" => print_message(rt, bytes_of(rt.alloc(), rest)?.as_slice())?,
        b"c" => print_composed(rt, read_packets(rt.alloc(), rest)?.as_slice())?,
        b"v" => print_reading(rt, read_number(rest)?)?,
        b"n" => {
            let (seed, count) = read_seed_and_count(rest)?;
            print_many(rt, seed, count)?;
        }
        _ => return Err(Misread::UnknownCommand.into()),
    }
    Ok(())
}

impl Answers for Messages {
    fn answer(&mut self, rt: &HostRuntime, line: &[u8]) -> Result<(), LineError> {
        match next_word(line) {
            Some((command, rest)) => answer_command(rt, command, rest),
            None => Ok(()),
        }
    }
}

fn main(rt: HostRuntime) -> anyhow::Result<ExitCode> {
    answer_all(&rt, &mut Messages)
}
