// Calls played on two units, which may differ in store and sensor.
ghost use Rattle.std.specs.Prelude.{IfOk};
ghost use Rattle.unit.specs.Units.{world_of};
ghost use Rattle.replay.specs.Replayed.{outcome_of};
ghost use Rattle.replay.specs.Both.{ReplayedBoth};

use crate::calls::{Call, Replay};
use crate::playing::replay;
use mti::Product;
use sensor::Sensor;
use std::alloc::{AllocError, Global};
use store::Store;

// What a unit is made from.
#[derive(Drop)]
pub struct World<S, T> {
    pub product: Product,
    pub device_id: u32,
    pub store: S,
    pub sensor: T,
}

// Makes two units, and plays exactly these calls on the first and those others on the second.
pub fn replay_both<S: Store + Drop, T: Sensor + Drop, U: Store + Drop, V: Sensor + Drop>(
    heap: Global,
    first: World<S, T>,
    calls: &[Call<'_>],
    second: World<U, V>,
    others: &[Call<'_>],
) -> Result<(Replay<S, T>, Replay<U, V>), AllocError>
    ensures { IfOk result (λ r. ReplayedBoth (world_of S.Store T.Sensor first.product first.device_id first.store first.sensor) (world_of U.Store V.Sensor second.product second.device_id second.store second.sensor) calls.now others.now (outcome_of S.Store T.Sensor r.0) (outcome_of U.Store V.Sensor r.1)) }
{
    let World {
        product,
        device_id,
        store,
        sensor,
    } = first;
    let one = replay(heap, product, device_id, store, sensor, calls)?;
    let World {
        product,
        device_id,
        store,
        sensor,
    } = second;
    let other = replay(heap, product, device_id, store, sensor, others)?;
    Ok((one, other))
}
