// The lines that a program reads, and the status with which it ends.
ghost use Rattle.std.specs.Prelude.{◌≡◌, ◌+◌, ◌-◌, ◌^◌, ◌<◌, min, MatchOption};
ghost use Rattle.std.specs.Option.{option_map};
ghost use Rattle.lines.specs.Lines.{next_line};
ghost use Rattle.commands.specs.Scripts.{rest_of, unread, first_line, status_after};

use crate::fault::LineError;
use lines::next_line;
use std::io::Read;
use std::process::ExitCode;

// Reads the whole input.
pub fn read_input(rt: &HostRuntime) -> anyhow::Result<Vec<u8>> {
    let mut input = Vec::new(rt.alloc());
    rt.stdin().read_to_end(&mut input)?;
    Ok(input)
}

// The lines of a text, one after the other, and whether each was understood so far.
#[derive(Drop)]
pub struct Script<'a> {
    rest: &'a [u8],
    // the number of the line that was handed out last, counted from 1
    number: u64,
    status: ExitCode,
}

impl<'a> Script<'a> {
    pub fn over(text: &'a [u8]) -> Script<'a>
        ensures rest { rest_of result ≡ text.now }
        ensures number { result.number ≡ 0 }
        ensures status { result.status ≡ ExitCode.SUCCESS }
    {
        Script {
            rest: text,
            number: 0,
            status: ExitCode::SUCCESS,
        }
    }

    // The next line, which stays the next.
    pub fn peek(&self) -> Option<&'a [u8]>
        ensures { option_map (λ line. line.now) result ≡ first_line self.now }
    {
        let (line, _) = next_line(self.rest)?;
        Some(line)
    }

    // Hands out the next line.
    pub fn next(&mut self) -> Option<&'a [u8]>
        ensures line { option_map (λ line. line.now) result ≡ first_line self.old }
        ensures rest { MatchOption (next_line (rest_of self.old)) (rest_of self.new ≡ rest_of self.old) (λ q. rest_of self.new ≡ q.1) }
        ensures number { MatchOption result (self.new.number ≡ self.old.number) (λ _. self.new.number ≡ min (self.old.number + 1) (2 ^ 64 - 1)) }
        ensures status { self.new.status ≡ self.old.status }
        ensures fewer { MatchOption result (unread self.new ≡ unread self.old) (λ _. unread self.new < unread self.old) }
    {
        let (line, rest) = next_line(self.rest)?;
        self.rest = rest;
        self.number = self.number.saturating_add(1);
        Some(line)
    }

    // Says why the last line was misread, if it was; an error of another kind ends the program.
    pub fn settle(
        &mut self,
        rt: &HostRuntime,
        answered: Result<(), LineError>,
    ) -> anyhow::Result<()>
        ensures rest { rest_of self.new ≡ rest_of self.old }
        ensures number { self.new.number ≡ self.old.number }
        ensures status { self.new.status ≡ status_after ExitCode.FAILURE answered self.old.status }
    {
        match answered {
            Ok(()) => Ok(()),
            Err(LineError::Misread(misread)) => {
                let number = self.number;
                self.status = ExitCode::FAILURE;
                eprintln!(rt; "line {number}: {misread}")?;
                Ok(())
            }
            Err(LineError::Failed(error)) => Err(error),
        }
    }

    // Whether each line was understood.
    pub fn status(self) -> ExitCode
        ensures { result ≡ self.entry.status }
    {
        self.status
    }
}

// A program that answers line by line.
pub trait Answers {
    // Does what a line asks for.
    fn answer(&mut self, rt: &HostRuntime, line: &[u8]) -> Result<(), LineError>;
}

// Answers each line of the input, and gives the status.
pub fn answer_all<A: Answers>(rt: &HostRuntime, program: &mut A) -> anyhow::Result<ExitCode> {
    let input = read_input(rt)?;
    let mut script = Script::over(input.as_slice());
    while let Some(line) = script.next() {
        // An answered line moves no error.
        if let Err(error) = program.answer(rt, line) {
            script.settle(rt, Err(error))?;
        }
    }
    Ok(script.status())
}
