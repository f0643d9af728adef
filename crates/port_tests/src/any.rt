// A store or a sensor behind a trait object: its caller has no laws, and knows what each method says.
ghost use Rattle.std.specs.Prelude.{◌≡◌, length, IfErr};
ghost use Rattle.store.specs.Meaning.{ImageOrNone, load_answer, buffer_after, save_answer, held_after, left_after};
ghost use Rattle.sensor.specs.Ranges.{Ranged};

use sensor::{Question, Sensor};
use store::{Loaded, Store, StoreError};

// What is held is an image, or nothing.
pub fn load_any(store: &mut dyn Store, buf: &mut [u8]) -> Result<Loaded, StoreError>
    ensures answer { result ≡ load_answer (length buf.old) (held store.old) }
    ensures buffer { buf.new ≡ buffer_after buf.old (held store.old) }
    ensures held { held store.new ≡ held store.old }
    ensures left { left store.new ≡ left store.old }
    ensures memory { memory store.new ≡ memory store.old }
    ensures meant { ImageOrNone (held store.old) }
{
    store.load(buf)
}

// What a save that is not refused makes of lent bytes is not said here: a clause over a trait object cannot name
// `overwritten`.
pub fn save_any(store: &mut dyn Store, image: &[u8]) -> Result<(), StoreError>
    ensures answer { result ≡ save_answer (length image.now) (left store.old) }
    ensures held { held store.new ≡ held_after image.now (left store.old) (held store.old) }
    ensures left { left store.new ≡ left_after image.now (left store.old) }
    ensures memory { IfErr result (λ _. memory store.new ≡ memory store.old) }
    ensures meant { ImageOrNone (held store.old) }
{
    store.save(image)
}

pub fn left_of_any(store: &dyn Store) -> u64
    ensures value { result ≡ left store.now }
    ensures meant { ImageOrNone (held store.now) }
{
    store.writes_left()
}

// Each number is in its channel's range.
pub fn reading_of_any(sensor: &mut dyn Sensor, question: Question) -> Option<i64>
    ensures answer { result ≡ meaning sensor.old question.channel question.index question.tick }
    ensures stays { meaning sensor.new ≡ meaning sensor.old }
    ensures range { Ranged (meaning sensor.old) }
{
    sensor.reading(question)
}
