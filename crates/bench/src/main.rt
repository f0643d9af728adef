// A unit on the bench: it is fed and ticked line by line, and the frames that it sends are printed.
#![tactic(auto)]

mod bench;

use bench::Bench;
use commands::{Answers, LineError, Misread, answer_all, only_number32};
use lines::{bytes_of, next_word};
use std::process::ExitCode;
use store::{Page, Store};

// The bytes of a page of four slots.
const PAGE: usize = 564;

impl<S: Store + Drop> Answers for Bench<S> {
    fn answer(&mut self, rt: &HostRuntime, line: &[u8]) -> Result<(), LineError> {
        let Some((command, rest)) = next_word(line) else {
            return Ok(());
        };
        match command {
            b"b" => self.feed(rt, bytes_of(rt.alloc(), rest)?.as_slice())?,
            b"t" => self.tick(rt, only_number32(rest)?)?,
            _ => return Err(Misread::UnknownCommand.into()),
        }
        Ok(())
    }
}

// Powers a unit over the store, answers line by line, and prints the writes left.
fn run<S: Store + Drop>(rt: &HostRuntime, store: S) -> anyhow::Result<ExitCode> {
    let mut bench = Bench::new(store);
    bench.power(rt)?;
    let status = answer_all(rt, &mut bench)?;
    let left = bench.writes_left();
    println!(rt; "left {left}")?;
    Ok(status)
}

fn main(rt: HostRuntime) -> anyhow::Result<ExitCode> {
    let mut page = [0xFF; PAGE];
    run(&rt, Page::over(&mut page))
}
