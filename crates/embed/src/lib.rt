// A unit for programs in C: one export, which plays a script of calls over memory that the caller lends.
#![tactic(auto)]

ghost use Rattle.std.specs.Prelude.{◌≤◌, length, take, IfOk};
ghost use Rattle.unit.specs.Units.{model_of, wrote};
ghost use Rattle.embed.specs.Scripts.{call_of, calls_of};
ghost use Rattle.embed.specs.Playing.{asked, memory_of, Called, CallsPlayed, world, ScriptPlayed};

mod script;

use mti::Product;
use script::{Step, next_step};
use sensor::{Ramp, Sensor};
use store::{Page, Store};
use unit::{Device, Refusal};

// What a script came to.
#[repr(C)]
#[derive(Drop)]
pub struct Played {
    // the calls that were accepted
    pub calls: usize,
    // the refusal that ended the script, or 0
    pub refusal: u32,
    // the bytes at the front of `out`: what all calls wrote, one behind the other
    pub written: usize,
    // the writes left in the page
    pub left: u64,
}

// Makes a call on a unit, and says how many bytes it wrote.
fn call<S: Store, T: Sensor>(
    device: &mut Device<S, T>,
    step: Step<'_>,
    tray: &mut [u8],
) -> Result<usize, Refusal>
    ensures called { Called S.Store.overwritten (model_of S.Store T.Sensor device.old) (model_of S.Store T.Sensor device.new) (asked (call_of step.entry) (length tray.old)) (take (wrote result) tray.new) result (memory_of S.Store device.old) (memory_of S.Store device.new) }
    ensures room { IfOk result (λ n. n ≤ length tray.new) }
{
    match step {
        Step::Power => device.power(tray),
        Step::Feed(bytes) => device.feed(bytes, tray).map(|fed| fed.written),
        Step::Tick => device.tick(tray),
    }
}

// Plays a script on a unit: its calls write to `out`, one behind the other.
fn play<S: Store, T: Sensor>(
    device: &mut Device<S, T>,
    script: &[u8],
    out: &mut [u8],
) -> (usize, usize, Option<Refusal>)
    ensures played { CallsPlayed S.Store.overwritten (model_of S.Store T.Sensor device.old) (model_of S.Store T.Sensor device.new) (calls_of script.now) (length out.old) (take result.1 out.new) result.0 result.2 (memory_of S.Store device.old) (memory_of S.Store device.new) }
    ensures room { result.1 ≤ length out.new }
{
    let mut calls = 0usize;
    let mut written = 0usize;
    let mut rest = script;
    while let Some((step, behind)) = next_step(rest) {
        match call(device, step, &mut out[written..]) {
            Ok(count) => written += count,
            Err(refusal) => return (calls, written, Some(refusal)),
        }
        calls = calls.saturating_add(1);
        rest = behind;
    }
    (calls, written, None)
}

// Makes an MTi-3 over the ramp and the page, and plays the script on it.
#[unsafe(no_mangle)]
pub extern "C" fn tirgolpa_play(
    device_id: u32,
    page: &mut [u8],
    script: &[u8],
    out: &mut [u8],
) -> Played
    ensures played { ScriptPlayed (world device_id page.old) script.now (length out.old) (take result.written out.new) result }
    ensures room { result.written ≤ length out.new }
{
    let mut device = Device::new(Product::Mti3, device_id, Page::over(page), Ramp);
    let (calls, written, refusal) = play(&mut device, script, out);
    let (store, _) = device.into_parts();
    Played {
        calls,
        refusal: refusal.map_or(0, |refusal| u32::from(refusal.number())),
        written,
        left: store.writes_left(),
    }
}
