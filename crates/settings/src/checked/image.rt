// The image under which settings are stored.
ghost use Rattle.std.specs.Prelude.{◌≡◌, ℕ, map, length};
ghost use Rattle.std.specs.Fn.{FnReturnsAt};
ghost use Rattle.store.specs.Meaning.{image_size};
ghost use Rattle.settings.specs.declared.record.Entry.{Entry};
ghost use Rattle.settings.specs.Values.{listed};
ghost use Rattle.settings.specs.Image.{places, fields_of, image_of};
ghost use Rattle.settings.specs.Stored.{ImageSaid, StoredSaid};
ghost use Rattle.settings.specs.View.{values_of};

use super::Settings;
use crate::record::{Entries, Entry};
use store::IMAGE;

// The twelve bytes before the places.
fn fields(settings: &Settings) -> [u8; 12]
    ensures { result ≡ fields_of (values_of settings.now) }
{
    let values = &settings.values;
    let count = values.entries.as_slice().len() as u8;
    let mode = values.error_mode.to_be_bytes();
    let location = values.location.to_be_bytes();
    let flags = values.flags.to_be_bytes();
    [
        0x0A,
        count,
        values.baud,
        values.profile,
        mode[0],
        mode[1],
        location[0],
        location[1],
        flags[0],
        flags[1],
        flags[2],
        flags[3],
    ]
}

// The 32 places of a number of each entry; 0 stands in those that no entry has.
// Form: places by their index, since the library does not say what an array holds where an adapter lent its parts.
fn column<F: Fn(&Entry) -> u16>(entries: &Entries, number: F) -> [u8; 64]
    requires { F.IsAlwaysCallable number }
    ensures { (f : Entry → ℕ) → ((e : Entry) (n : ℕ) → FnReturnsAt F.Fn number e n → n ≡ f e) → result ≡ places 32 (map f (listed entries.now)) }
{
    let mut out = [0; 64];
    for (i, entry) in entries.as_slice().iter().enumerate() {
        out[2 * i..2 * i + 2].copy_from_slice(&number(entry).to_be_bytes());
    }
    out
}

impl Settings {
    pub fn image(&self) -> [u8; IMAGE]
        ensures is { result ≡ image_of (values_of self.now) }
        ensures size { length result ≡ image_size }
        ensures bytes { ImageSaid }
        ensures said { StoredSaid }
    {
        let entries = &self.values.entries;
        let mut out = [0; IMAGE];
        out[..12].copy_from_slice(&fields(self));
        out[12..76].copy_from_slice(&column(entries, |entry| entry.identifier));
        out[76..IMAGE].copy_from_slice(&column(entries, |entry| entry.frequency));
        out
    }
}
