// Calls played on a unit that is made for them.
ghost use Rattle.std.specs.Prelude.{◌≡◌, ◌≤◌, length, take, IfOk, OnOk};
ghost use Rattle.unit.specs.Units.{model_of, world_of};
ghost use Rattle.replay.specs.Calls.{asked, asked_with, written_by};
ghost use Rattle.replay.specs.Replayed.{Step, Added, Replayed, outcome_of};

use crate::calls::{Answer, Call, Replay};
use mti::Product;
use sensor::Sensor;
use std::alloc::{AllocError, Global};
use store::Store;
use unit::Device;

// Plays one call with this tray.
fn play<S: Store, T: Sensor>(device: &mut Device<S, T>, call: Call<'_>, tray: &mut [u8]) -> Answer
    ensures step { Step (model_of S.Store T.Sensor device.old) (model_of S.Store T.Sensor device.new) (asked_with call.entry (length tray.old)) result (take (written_by result) tray.new) }
    ensures room { written_by result ≤ length tray.new }
{
    match call {
        Call::Power { .. } => Answer::Power(device.power(tray)),
        Call::Feed { bytes, .. } => Answer::Feed(device.feed(bytes, tray)),
        Call::Tick { .. } => Answer::Tick(device.tick(tray)),
    }
}

// Plays one call with this tray, and adds its answer and what it wrote.
fn add<S: Store, T: Sensor>(
    device: &mut Device<S, T>,
    call: Call<'_>,
    tray: &mut [u8],
    answers: &mut Vec<Answer>,
    output: &mut Vec<u8>,
) -> Result<(), AllocError>
    ensures { OnOk result (Added (model_of S.Store T.Sensor device.old) (model_of S.Store T.Sensor device.new) (asked_with call.entry (length tray.old)) answers.old.items answers.new.items output.old.items output.new.items) }
{
    let answer = play(device, call, tray);
    answers.push(answer)?;
    output.extend_from_slice(&tray[..answer.written()])
}

// Plays one call with a tray of its length, and adds its answer and what it wrote.
fn play_call<S: Store, T: Sensor>(
    heap: Global,
    device: &mut Device<S, T>,
    call: Call<'_>,
    answers: &mut Vec<Answer>,
    output: &mut Vec<u8>,
) -> Result<(), AllocError>
    ensures { OnOk result (Added (model_of S.Store T.Sensor device.old) (model_of S.Store T.Sensor device.new) (asked call.entry) answers.old.items answers.new.items output.old.items output.new.items) }
{
    let mut tray = vec![in heap; 0; call.tray()]?;
    add(device, call, &mut tray, answers, output)
}

// Makes a unit, and plays exactly these calls on it, each with a tray of its length.
pub fn replay<S: Store + Drop, T: Sensor + Drop>(
    heap: Global,
    product: Product,
    device_id: u32,
    store: S,
    sensor: T,
    calls: &[Call<'_>],
) -> Result<Replay<S, T>, AllocError>
    ensures { IfOk result (λ r. Replayed (world_of S.Store T.Sensor product device_id store sensor) calls.now (outcome_of S.Store T.Sensor r)) }
{
    let mut device = Device::new(product, device_id, store, sensor);
    let mut answers = Vec::new(heap);
    let mut output = Vec::new(heap);
    for call in calls {
        play_call(heap, &mut device, *call, &mut answers, &mut output)?;
    }
    let (store, sensor) = device.into_parts();
    Ok(Replay {
        answers,
        output,
        store,
        sensor,
    })
}
