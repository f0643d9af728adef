// What every store gives for two saves and a load.
ghost use Rattle.std.specs.Prelude.{◌≡◌, length};
ghost use Rattle.store.specs.Meaning.{buffer_after};
ghost use Rattle.store.specs.Trial.{held_after_two, left_after_two, trial_of, TrialSaid};

use crate::port::{Loaded, Store, StoreError};

// The answers of two saves and then a load.
#[derive(Clone, Copy, PartialEq, Debug)]
pub struct Trial {
    pub first: Result<(), StoreError>,
    pub second: Result<(), StoreError>,
    pub loaded: Result<Loaded, StoreError>,
}

// Saves two images one behind the other, and then loads.
pub fn try_store<S: Store>(store: &mut S, one: &[u8], two: &[u8], buf: &mut [u8]) -> Trial
    ensures value { result ≡ trial_of one.now two.now (length buf.old) (S.Store.held store.old) (S.Store.left store.old) }
    ensures buffer { buf.new ≡ buffer_after buf.old (held_after_two one.now two.now (S.Store.left store.old) (S.Store.held store.old)) }
    ensures held { S.Store.held store.new ≡ held_after_two one.now two.now (S.Store.left store.old) (S.Store.held store.old) }
    ensures left { S.Store.left store.new ≡ left_after_two one.now two.now (S.Store.left store.old) }
    ensures said { TrialSaid one.now two.now buf.old (S.Store.held store.old) (S.Store.left store.old) result buf.new (S.Store.left store.new) }
{
    let first = store.save(one);
    let second = store.save(two);
    let loaded = store.load(buf);
    Trial {
        first,
        second,
        loaded,
    }
}
