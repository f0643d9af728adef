// A tick, half a millisecond.
ghost use Rattle.std.specs.Prelude.{◌≡◌, List, length, nat_lt};
ghost use Rattle.mtdata2.specs.Packets.{Item};
ghost use Rattle.settings.specs.View.{values_of};
ghost use Rattle.session.specs.Ticking.{configures, wake_tick, ticked, sampled, tick};
ghost use Rattle.session.specs.Sampling.{packets};
ghost use Rattle.unit.specs.Of.{core_of};
ghost use Rattle.unit.specs.Steps.{Stepped};

use crate::cores::Core;
use crate::sending::Tray;
use decision::State;
use samples::write_sample;
use sensor::Sensor;
use session::Counts;
use settings::Settings;
use store::Store;

// The option flag under which the unit goes from WakeUp to Config by itself.
const CONFIGURES: u32 = 0x02;

// The ticks of WakeUp.
const WAKE_TICKS: u16 = 1000;

// The ticks of a second.
const SECOND: u16 = 2000;

fn configures(settings: &Settings) -> bool
    ensures { result ≡ configures (values_of settings.now) }
{
    settings.flags() & CONFIGURES == CONFIGURES
}

// The counts after a tick in Measurement, in which a message was sent or not: it is sent if there are packets.
fn ticked(counts: Counts, sent: bool) -> Counts
    ensures { (items : List Item) → sent ≡ nat_lt 0 (length items) → result ≡ ticked items counts }
{
    let phase = (u32::from(counts.phase) + 1) % u32::from(SECOND);
    Counts {
        wake_ticks: counts.wake_ticks,
        sent: counts.sent.wrapping_add(u16::from(sent)),
        number: counts.number.wrapping_add(1),
        phase: phase as u16,
        seconds: counts.seconds.wrapping_add(u32::from(phase == 0)),
    }
}

impl<S: Store> Core<S> {
    // A tick in WakeUp: the thousandth leads to Measurement, or to Config.
    #[tactic(auto, unfolding(session::specs::Ticking::wake_tick))]
    fn wake_tick(&mut self, device_id: u32, tray: &mut Tray) -> usize
        ensures does { Stepped (wake_tick device_id (core_of S.Store self.old)) (core_of S.Store self.new) result tray.new }
        ensures store { self.new.store ≡ self.old.store }
    {
        if self.counts.wake_ticks < WAKE_TICKS - 1 {
            self.counts.wake_ticks += 1;
            return 0;
        }
        self.counts.wake_ticks = WAKE_TICKS;
        if configures(&self.settings) {
            self.state = Some(State::Config);
            return 0;
        }
        self.measure();
        self.send_configuration(device_id, tray, 0)
    }

    // A tick in Measurement: the packets that are due, and the counts.
    fn sample<T: Sensor>(&mut self, sensor: &mut T, tray: &mut Tray) -> usize
        ensures does { Stepped (sampled (packets (T.Sensor.meaning sensor.old) self.old.counts (values_of self.old.settings).entries) (core_of S.Store self.old)) (core_of S.Store self.new) result tray.new }
        ensures stays { T.Sensor.meaning sensor.new ≡ T.Sensor.meaning sensor.old }
        ensures store { self.new.store ≡ self.old.store }
    {
        let written = write_sample(sensor, &self.settings, &self.counts, tray);
        self.counts = ticked(self.counts, written > 0);
        written
    }

    // A tick, and how many bytes it wrote.
    #[tactic(auto, unfolding(session::specs::Ticking::tick, session::specs::Ticking::packets_at))]
    pub(crate) fn tick<T: Sensor>(
        &mut self,
        device_id: u32,
        sensor: &mut T,
        tray: &mut Tray,
    ) -> usize
        ensures does { Stepped (tick device_id (T.Sensor.meaning sensor.old) (core_of S.Store self.old)) (core_of S.Store self.new) result tray.new }
        ensures stays { T.Sensor.meaning sensor.new ≡ T.Sensor.meaning sensor.old }
        ensures store { self.new.store ≡ self.old.store }
    {
        match self.state {
            None | Some(State::Config) => 0,
            Some(State::WakeUp) => self.wake_tick(device_id, tray),
            Some(State::Measurement) => self.sample(sensor, tray),
        }
    }
}
