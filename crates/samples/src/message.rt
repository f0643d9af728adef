// The data message of a tick.
ghost use Rattle.std.specs.Prelude.{◌≡◌, ℕ, ◌+◌, ◌<◌, ◌≤◌, List, [], ◌∷◌, ◌++◌, length, take};
ghost use Rattle.std.specs.List.{flat_map};
ghost use Rattle.mtdata2.specs.Packets.{Item, packet_bytes};
ghost use Rattle.draft.specs.Composed.{frame_so_far, Holding};
ghost use Rattle.settings.specs.Rates.{Divides};
ghost use Rattle.settings.specs.View.{values_of};
ghost use Rattle.session.specs.Sampling.{due, packets};

use crate::data::put_data;
use draft::{Draft, Record};
use mti::known;
use sensor::Sensor;
use session::Counts;
use settings::{Entry, Settings};
use xbus::LONGEST;

// The most data bytes of an output: nine doubles.
const MOST: usize = 72;

// Whether an entry is sent in the tick of this phase. A second has 2000 ticks.
fn due(phase: u16, entry: Entry) -> bool
    requires { Divides entry.frequency 2000 }
    ensures { result ≡ due phase entry }
{
    // the interval, 2000 / frequency, divides the phase
    u32::from(phase) * u32::from(entry.frequency) % 2000 == 0
}

// Adds the packet of an entry, if it is due and its data are there.
fn add_packet<T: Sensor>(
    draft: &mut Draft<'_>,
    tray: &mut [u8; LONGEST],
    sensor: &mut T,
    counts: &Counts,
    entry: Entry,
)
    requires rate { Divides entry.frequency 2000 }
    requires room { (draft.old.extent.start ≡ 0) × (draft.old.extent.size.len + 75 ≤ 2048) }
    ensures adds { (items : List Item) → Holding items tray.old draft.old → Holding (items ++ packets (T.Sensor.meaning sensor.old) counts.now (entry ∷ [])) tray.new draft.new }
    ensures start { draft.new.extent.start ≡ draft.old.extent.start }
    ensures lends { draft.new.mark.ghost_name ≡ draft.old.mark.ghost_name }
    ensures stays { T.Sensor.meaning sensor.new ≡ T.Sensor.meaning sensor.old }
{
    if !due(counts.phase, entry) {
        return;
    }
    let Some(output) = known(entry.identifier) else {
        return;
    };
    let mut buffer = [0; MOST];
    let data = &mut buffer[..output.size()];
    if put_data(sensor, counts, output, data).is_some() {
        let packet = Record::whole(entry.identifier, data);
        draft.add(tray, data, packet).unwrap();
    }
}

// Composes the data message of a tick at the front of the tray, and says how many bytes it has: none without a packet.
pub fn write_sample<T: Sensor>(
    sensor: &mut T,
    settings: &Settings,
    counts: &Counts,
    tray: &mut [u8; LONGEST],
) -> usize
    ensures stays { T.Sensor.meaning sensor.new ≡ T.Sensor.meaning sensor.old }
    ensures count { result ≡ length (frame_so_far (packets (T.Sensor.meaning sensor.old) counts.now (values_of settings.now).entries)) }
    ensures bytes { take result tray.new ≡ frame_so_far (packets (T.Sensor.meaning sensor.old) counts.now (values_of settings.now).entries) }
    ensures few { length (flat_map packet_bytes (packets (T.Sensor.meaning sensor.old) counts.now (values_of settings.now).entries)) ≤ 412 }
{
    let mut mark = 0;
    let mut draft = Draft::begin(&mut mark);
    for entry in settings.entries() {
        add_packet(&mut draft, tray, sensor, counts, *entry);
    }
    // Without a packet there is no message, and the mark stays 0.
    let _ = draft.close();
    mark
}
