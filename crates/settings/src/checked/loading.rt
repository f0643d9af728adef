// Settings from an image.
ghost use Rattle.std.specs.Prelude.{◌≡◌, ◌≤◌};
ghost use Rattle.std.specs.Option.{option_map};
ghost use Rattle.std.specs.Str.{bytes_eq};
ghost use Rattle.settings.specs.Values.{recorded, listed};
ghost use Rattle.settings.specs.Image.{number_at, entries_at, read_of, load_of};
ghost use Rattle.settings.specs.Stored.{StoredSaid};
ghost use Rattle.settings.specs.View.{values_of};

use super::Settings;
use crate::record::{Entries, Entry, MOST_ENTRIES, Record};
use mti::Product;
use store::IMAGE;

// So many entries: identifiers from byte 12 on, frequencies from byte 76 on.
fn read_entries(image: &[u8; IMAGE], count: usize) -> Entries
    requires { count ≤ 32 }
    ensures { listed result ≡ entries_at image.now count }
{
    let identifiers = image[12..76].as_chunks().0;
    let frequencies = image[76..].as_chunks().0;
    let mut entries = Entries::new();
    for (identifier, frequency) in identifiers[..count].iter().zip(frequencies) {
        let entry = Entry {
            identifier: u16::from_be_bytes(*identifier),
            frequency: u16::from_be_bytes(*frequency),
        };
        entries.push(entry).unwrap();
    }
    entries
}

// The values that the image spells out, where there are no more entries than a list has.
fn read(image: &[u8; IMAGE]) -> Record
    requires { number_at image.now 1 1 ≤ 32 }
    ensures { (p : Product) → recorded p result ≡ read_of p image.now }
{
    Record {
        baud: image[2],
        profile: image[3],
        error_mode: u16::from_be_bytes([image[4], image[5]]),
        location: u16::from_be_bytes([image[6], image[7]]),
        flags: u32::from_be_bytes([image[8], image[9], image[10], image[11]]),
        entries: read_entries(image, usize::from(image[1])),
    }
}

impl Settings {
    // The valid settings of the product whose image the bytes are, if they are one.
    pub fn load(product: Product, bytes: &[u8]) -> Option<Settings>
        ensures is { option_map values_of result ≡ load_of product bytes.now }
        ensures said { StoredSaid }
    {
        let image = <&[u8; IMAGE]>::try_from(bytes).ok()?;
        if usize::from(image[1]) > MOST_ENTRIES {
            return None;
        }
        let settings = Settings::checked(product, &read(image))?;
        (settings.image() == *image).then_some(settings)
    }
}
