// Plays calls on units of every product over every store and sensor, and prints every answer.
#![tactic(auto)]

ghost use Rattle.std.specs.Prelude.{◌≤◌};
ghost use Rattle.commands.specs.Scripts.{unread};

mod calls;
mod kit;
mod making;
mod playing;

use commands::{LineError, Misread, Script, read_input};
use kit::Kit;
use lines::next_word;
use playing::play_unit;
use std::process::ExitCode;

// Does what a line asks for where there is no unit. A line that makes one is done with the calls on it that follow.
fn answer(
    rt: &HostRuntime,
    kit: &mut Kit,
    line: &[u8],
    script: &mut Script<'_>,
) -> Result<(), LineError>
    ensures { unread script.new ≤ unread script.old }
{
    let Some((command, rest)) = next_word(line) else {
        return Ok(());
    };
    match command {
        b"row" => kit.add_row(rest)?,
        b"forget" => kit.forget_rows(rest)?,
        b"memory" => kit.renew_memory(rt.alloc(), rest)?,
        b"poke" => kit.poke(rt.alloc(), rest)?,
        b"unit" => play_unit(rt, kit, rest, script)?,
        b"p" | b"f" | b"a" | b"t" => return Err(Misread::NoUnit.into()),
        _ => return Err(Misread::UnknownCommand.into()),
    }
    Ok(())
}

fn main(rt: HostRuntime) -> anyhow::Result<ExitCode> {
    let input = read_input(&rt)?;
    let mut script = Script::over(input.as_slice());
    let mut kit = Kit::new(rt.alloc());
    while let Some(line) = script.next() {
        let answered = answer(&rt, &mut kit, line, &mut script);
        script.settle(&rt, answered)?;
    }
    Ok(script.status())
}
