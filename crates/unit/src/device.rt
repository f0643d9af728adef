// A unit: what it is made from, and what is left of it in the end.
use crate::cores::Core;
use sensor::Sensor;
use store::Store;
use stream::Waiting;

#[derive(Drop)]
pub struct Device<S: Store, T: Sensor> {
    pub(crate) device_id: u32,
    pub(crate) core: Core<S>,
    pub(crate) waiting: Waiting,
    pub(crate) sensor: T,
}
