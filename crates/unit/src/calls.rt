// The calls on a unit: power, feed and tick.
ghost use Rattle.std.specs.Prelude.{◌≡◌, length, take, IfErr};
ghost use Rattle.session.specs.Calls.{power_call, feed_call, tick_call};
ghost use Rattle.session.specs.Sessions.{Power, Feed, Tick};
ghost use Rattle.session.specs.Laws.{Extends};
ghost use Rattle.unit.specs.Of.{core_of, memory_by};
ghost use Rattle.unit.specs.Units.{model_of, wrote, fed_wrote, InTray};

use crate::device::Device;
use crate::filling::fill;
use crate::sending::{WAKE_UP, send};
use sensor::Sensor;
use session::{Fed, Refusal};
use store::Store;
use xbus::LONGEST;

impl<S: Store, T: Sensor> Device<S, T> {
    // Loads the settings, writes WakeUp and starts the WakeUp state; says how many bytes it wrote.
    pub fn power(&mut self, tray: &mut [u8]) -> Result<usize, Refusal>
        ensures model { model_of S.Store T.Sensor self.new ≡ (power_call (model_of S.Store T.Sensor self.old) (length tray.old)).0 }
        ensures bytes { take (wrote result) tray.new ≡ (power_call (model_of S.Store T.Sensor self.old) (length tray.old)).1 }
        ensures answer { result ≡ (power_call (model_of S.Store T.Sensor self.old) (length tray.old)).2 }
        ensures refused { IfErr result (λ _. (self.new ≡ self.old) × (tray.new ≡ tray.old)) }
        ensures room { InTray (wrote result) tray.old tray.new }
        ensures memory { S.Store.memory self.new.core.store ≡ S.Store.memory self.old.core.store }
        ensures history { Extends (model_of S.Store T.Sensor self.old) (Power (length tray.old) (take (wrote result) tray.new) result) (model_of S.Store T.Sensor self.new) }
    {
        if self.core.state.is_some() {
            return Err(Refusal::AlreadyPowered);
        }
        let tray = tray.first_chunk_mut::<LONGEST>().ok_or(Refusal::ShortTray)?;
        self.core.wake();
        Ok(send(tray, 0, WAKE_UP, &[]))
    }

    // Serves the frame that waits; if none does, takes bytes until one waits, and serves that.
    pub fn feed(&mut self, bytes: &[u8], tray: &mut [u8]) -> Result<Fed, Refusal>
        ensures model { model_of S.Store T.Sensor self.new ≡ (feed_call (model_of S.Store T.Sensor self.old) bytes.now (length tray.old)).0 }
        ensures bytes { take (fed_wrote result) tray.new ≡ (feed_call (model_of S.Store T.Sensor self.old) bytes.now (length tray.old)).1 }
        ensures answer { result ≡ (feed_call (model_of S.Store T.Sensor self.old) bytes.now (length tray.old)).2 }
        ensures refused { IfErr result (λ _. (self.new ≡ self.old) × (tray.new ≡ tray.old)) }
        ensures room { InTray (fed_wrote result) tray.old tray.new }
        ensures memory { S.Store.memory self.new.core.store ≡ memory_by S.Store (core_of S.Store self.old.core) (core_of S.Store self.new.core) self.old.core.store }
        ensures history { Extends (model_of S.Store T.Sensor self.old) (Feed bytes.now (length tray.old) (take (fed_wrote result) tray.new) result) (model_of S.Store T.Sensor self.new) }
    {
        if self.core.state.is_none() {
            return Err(Refusal::Dark);
        }
        let tray = tray.first_chunk_mut::<LONGEST>().ok_or(Refusal::ShortTray)?;
        let taken = fill(&mut self.waiting, bytes);
        let Some(frame) = self.waiting.frame() else {
            return Ok(Fed {
                taken,
                written: 0,
                served: false,
            });
        };
        let written = self.core.serve(self.device_id, frame, tray);
        self.waiting.pass();
        Ok(Fed {
            taken,
            written,
            served: true,
        })
    }

    // Half a millisecond passes; says how many bytes were written.
    pub fn tick(&mut self, tray: &mut [u8]) -> Result<usize, Refusal>
        ensures model { model_of S.Store T.Sensor self.new ≡ (tick_call (model_of S.Store T.Sensor self.old) (length tray.old)).0 }
        ensures bytes { take (wrote result) tray.new ≡ (tick_call (model_of S.Store T.Sensor self.old) (length tray.old)).1 }
        ensures answer { result ≡ (tick_call (model_of S.Store T.Sensor self.old) (length tray.old)).2 }
        ensures refused { IfErr result (λ _. (self.new ≡ self.old) × (tray.new ≡ tray.old)) }
        ensures room { InTray (wrote result) tray.old tray.new }
        ensures memory { S.Store.memory self.new.core.store ≡ S.Store.memory self.old.core.store }
        ensures history { Extends (model_of S.Store T.Sensor self.old) (Tick (length tray.old) (take (wrote result) tray.new) result) (model_of S.Store T.Sensor self.new) }
    {
        if self.core.state.is_none() {
            return Err(Refusal::Dark);
        }
        let tray = tray.first_chunk_mut::<LONGEST>().ok_or(Refusal::ShortTray)?;
        if self.waiting.frame().is_some() {
            return Err(Refusal::FrameWaits);
        }
        // The data of valid settings are never too long.
        Ok(self.core.tick(self.device_id, &mut self.sensor, tray))
    }
}
