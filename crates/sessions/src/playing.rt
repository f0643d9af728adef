// A unit from its making to its end.
ghost use Rattle.std.specs.Prelude.{◌≡◌, ◌≤◌, ◌<◌, MatchOption};
ghost use Rattle.commands.specs.Scripts.{unread};

use crate::calls::call;
use crate::kit::Kit;
use crate::making::{Making, SensorKind, StoreKind, read_making};
use commands::{LineError, Script, print_bytes};
use lines::next_word;
use sensor::{Ramp, Recorded, Sensor};
use store::{Cell, Page, Store};
use unit::Device;

// Whether the unit ends at a line.
fn ends_unit(line: &[u8]) -> bool {
    matches!(
        next_word(line),
        Some((b"row" | b"forget" | b"memory" | b"poke" | b"unit", _))
    )
}

// Hands out the next line, unless the unit ends there.
fn next_call<'a>(script: &mut Script<'a>) -> Option<&'a [u8]>
    ensures { MatchOption result (unread script.new ≡ unread script.old) (λ _. unread script.new < unread script.old) }
{
    let line = script.peek()?;
    if ends_unit(line) {
        return None;
    }
    script.next()
}

// Plays the calls on a unit, prints the writes left, and gives the store back.
fn play<S: Store + Drop, T: Sensor + Drop>(
    rt: &HostRuntime,
    making: Making,
    store: S,
    sensor: T,
    script: &mut Script<'_>,
) -> anyhow::Result<S>
    ensures { unread script.new ≤ unread script.old }
{
    let mut device = Device::new(making.product, making.device_id, store, sensor);
    while let Some(line) = next_call(script) {
        let answered = call(rt, &mut device, line);
        script.settle(rt, answered)?;
    }
    let (store, _) = device.into_parts();
    let left = store.writes_left();
    println!(rt; "left {left}")?;
    Ok(store)
}

// Plays the calls on a unit over the sensor.
fn play_over<T: Sensor + Drop>(
    rt: &HostRuntime,
    making: Making,
    sensor: T,
    memory: &mut [u8],
    script: &mut Script<'_>,
) -> anyhow::Result<()>
    ensures { unread script.new ≤ unread script.old }
{
    match making.store {
        StoreKind::Cell(rating) => {
            let _ = play(rt, making, Cell::new(rating), sensor, script)?;
        }
        StoreKind::Page => {
            let page = play(rt, making, Page::over(memory), sensor, script)?;
            print_bytes(rt, "memory", page.into_bytes())?;
        }
    }
    Ok(())
}

// Makes a unit, and plays the calls on it.
pub fn play_unit(
    rt: &HostRuntime,
    kit: &mut Kit,
    line: &[u8],
    script: &mut Script<'_>,
) -> Result<(), LineError>
    ensures { unread script.new ≤ unread script.old }
{
    let making = read_making(line)?;
    let memory = kit.memory.as_mut_slice();
    match making.sensor {
        SensorKind::Ramp => play_over(rt, making, Ramp, memory, script)?,
        SensorKind::Recorded => {
            let rows = kit.rows.as_slice();
            play_over(rt, making, Recorded { rows }, memory, script)?;
        }
    }
    Ok(())
}
