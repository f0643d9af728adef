// Settings from values, and those of the factory.
ghost use Rattle.std.specs.Prelude.{◌≡◌, ◌≤◌, map, length};
ghost use Rattle.std.specs.Option.{option_map};
ghost use Rattle.settings.specs.Values.{recorded, entry, listed};
ghost use Rattle.settings.specs.Rules.{ValidSaid};
ghost use Rattle.settings.specs.Factory.{factory_entries, factory_of};
ghost use Rattle.settings.specs.View.{values_of, checked_of};

use super::Settings;
use crate::record::{Entries, Entry, Record};
use crate::rules::{first_profile, is_valid};
use mti::Product;

// The outputs of the factory; the last three only of the product that has them.
const FACTORY: [u16; 7] = [0x2010, 0x1020, 0x1060, 0xE020, 0x5022, 0x5042, 0xD012];

fn at_100_hz(identifiers: &[u16]) -> Entries
    requires { length identifiers.now ≤ 32 }
    ensures { listed result ≡ map (λ i. entry i 100) identifiers.now }
{
    let mut entries = Entries::new();
    for &identifier in identifiers {
        let entry = Entry {
            identifier,
            frequency: 100,
        };
        entries.push(entry).unwrap();
    }
    entries
}

fn factory_entries(product: Product) -> Entries
    ensures { listed result ≡ factory_entries product }
{
    let identifiers = match product {
        Product::MtiG710 => &FACTORY[..],
        _ => &FACTORY[..4],
    };
    at_100_hz(identifiers)
}

impl Settings {
    // These values as settings of the product, if it can have them.
    pub fn checked(product: Product, values: &Record) -> Option<Settings>
        ensures is { option_map values_of result ≡ checked_of (recorded product values.now) }
        ensures said { ValidSaid }
    {
        // Form: an `if`, since the closure that `then` takes knows the test only by a clause of its own, which is longer.
        if is_valid(product, values) {
            Some(Settings {
                product,
                values: *values,
            })
        } else {
            None
        }
    }

    // The settings that the product leaves the factory with.
    pub fn factory(product: Product) -> Settings
        ensures { values_of result ≡ factory_of product }
    {
        let values = Record {
            baud: 0x02,
            profile: first_profile(product),
            error_mode: 1,
            location: 0,
            flags: 0,
            entries: factory_entries(product),
        };
        Settings { product, values }
    }

    pub fn product(&self) -> Product
        ensures { result ≡ (values_of self.now).product }
    {
        self.product
    }

    // The outputs, in list order.
    pub fn entries(&self) -> &[Entry]
        ensures is { result.now ≡ (values_of self.now).entries }
        ensures few { length result.now ≤ 32 }
    {
        self.values.entries.as_slice()
    }

    pub fn flags(&self) -> u32
        ensures { result ≡ (values_of self.now).flags }
    {
        self.values.flags
    }

    pub fn values(&self) -> Record
        ensures { recorded (values_of self.now).product result ≡ values_of self.now }
    {
        self.values
    }
}
