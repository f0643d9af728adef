// Feeds and ticks units, and prints a hash over what they wrote.
#![tactic(auto)]

mod driven;
mod load;
mod source;

use commands::{Answers, LineError, Misread, answer_all, only_number32};
use lines::next_word;
use load::Load;
use std::process::ExitCode;

// Drives a unit, and prints the hash over what it wrote.
fn print_hash(rt: &HostRuntime, load: Load, count: u32) -> anyhow::Result<()> {
    let hash = load.run(count);
    println!(rt; "{load} {hash:016X}")?;
    Ok(())
}

// The program.
#[derive(Drop)]
struct Speed;

impl Answers for Speed {
    fn answer(&mut self, rt: &HostRuntime, line: &[u8]) -> Result<(), LineError> {
        let Some((command, rest)) = next_word(line) else {
            return Ok(());
        };
        let load = Load::of(command).ok_or(Misread::UnknownCommand)?;
        print_hash(rt, load, only_number32(rest)?)?;
        Ok(())
    }
}

fn main(rt: HostRuntime) -> anyhow::Result<ExitCode> {
    answer_all(&rt, &mut Speed)
}
