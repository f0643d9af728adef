// Making a unit, and taking it apart.
ghost use Rattle.std.specs.Prelude.{◌≡◌, []};
ghost use Rattle.session.specs.Model.{making};
ghost use Rattle.session.specs.Sessions.{Session};
ghost use Rattle.session.specs.Laws.{Lawful};
ghost use Rattle.unit.specs.Units.{world_of, model_of};

use crate::cores::{Core, NO_COUNTS};
use crate::device::Device;
use mti::Product;
use sensor::Sensor;
use settings::Settings;
use store::Store;
use stream::Waiting;

impl<S: Store, T: Sensor> Device<S, T> {
    // A unit is made dark.
    pub fn new(product: Product, device_id: u32, store: S, sensor: T) -> Device<S, T>
        ensures model { model_of S.Store T.Sensor result ≡ making (world_of S.Store T.Sensor product device_id store sensor) }
        ensures history { Session (making (world_of S.Store T.Sensor product device_id store sensor)) [] (model_of S.Store T.Sensor result) }
        ensures lawful { Lawful (world_of S.Store T.Sensor product device_id store sensor) [] (model_of S.Store T.Sensor result) }
        ensures store { result.core.store ≡ store }
        ensures sensor { result.sensor ≡ sensor }
    {
        let core = Core {
            state: None,
            settings: Settings::factory(product),
            counts: NO_COUNTS,
            store,
        };
        Device {
            device_id,
            core,
            waiting: Waiting::new(),
            sensor,
        }
    }

    // The store and the sensor.
    pub fn into_parts(self) -> (S, T)
        ensures store { result.0 ≡ self.core.store }
        ensures sensor { result.1 ≡ self.sensor }
    {
        (self.core.store, self.sensor)
    }
}
