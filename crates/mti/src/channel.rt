// The channels of the products.
ghost use Rattle.std.specs.Prelude.{◌≡◌};
ghost use Rattle.std.specs.Option.{option_map};
ghost use Rattle.mti.specs.Channels.{channel_of, offered_by, taken_by};
ghost use Rattle.mti.specs.Exactly.{Exactly};
ghost use Rattle.mti.specs.Table.{Bearer, Orderly};

use self::Availability::{All, From300, OnlyG710};
use self::Kind::{Real, Whole};
use crate::precision::Precision;
use crate::product::Product;

// What a channel sends: so many real numbers, or one unsigned whole number of so many bytes.
#[derive(Clone, Copy, PartialEq, Debug)]
pub enum Kind {
    Real(u8),
    Whole(u8),
}

// The products that offer a channel.
#[derive(Clone, Copy, PartialEq, Debug)]
pub enum Availability {
    All,
    From300,
    OnlyG710,
}

// A channel by its identifier, whose last hexadecimal digit is 0.
#[derive(Clone, Copy, PartialEq, Debug)]
pub struct Channel {
    pub identifier: u16,
    pub kind: Kind,
    pub max_hz: u16,
    pub availability: Availability,
}

impl Channel {
    // Whether the product offers the channel.
    pub fn offered_by(self, product: Product) -> bool
        ensures { result ≡ offered_by self.availability product }
    {
        match self.availability {
            All => true,
            From300 => matches!(product, Product::Mti300 | Product::MtiG710),
            OnlyG710 => product == Product::MtiG710,
        }
    }

    // Real numbers are sent in every precision, a whole number only under the format digit 0.
    pub fn takes(self, precision: Precision) -> bool
        ensures { result ≡ taken_by self.kind precision }
    {
        matches!(self.kind, Real(_)) || precision == Precision::Single
    }
}

// The table of the channels.
#[rattlefmt::skip]
const CHANNELS: [Channel; 19] = [
    Channel { identifier: 0x0810, kind: Real(1), max_hz: 1, availability: All },
    Channel { identifier: 0x1020, kind: Whole(2), max_hz: 2000, availability: All },
    Channel { identifier: 0x1060, kind: Whole(4), max_hz: 2000, availability: All },
    Channel { identifier: 0x1070, kind: Whole(4), max_hz: 2000, availability: All },
    Channel { identifier: 0x2010, kind: Real(4), max_hz: 400, availability: All },
    Channel { identifier: 0x2020, kind: Real(9), max_hz: 400, availability: All },
    Channel { identifier: 0x2030, kind: Real(3), max_hz: 400, availability: All },
    Channel { identifier: 0x3010, kind: Whole(4), max_hz: 50, availability: From300 },
    Channel { identifier: 0x4010, kind: Real(3), max_hz: 2000, availability: All },
    Channel { identifier: 0x4020, kind: Real(3), max_hz: 2000, availability: All },
    Channel { identifier: 0x4030, kind: Real(3), max_hz: 2000, availability: All },
    Channel { identifier: 0x5020, kind: Real(1), max_hz: 400, availability: OnlyG710 },
    Channel { identifier: 0x5040, kind: Real(2), max_hz: 400, availability: OnlyG710 },
    Channel { identifier: 0x8020, kind: Real(3), max_hz: 2000, availability: All },
    Channel { identifier: 0x8030, kind: Real(4), max_hz: 2000, availability: All },
    Channel { identifier: 0xC020, kind: Real(3), max_hz: 100, availability: All },
    Channel { identifier: 0xD010, kind: Real(3), max_hz: 400, availability: OnlyG710 },
    Channel { identifier: 0xE010, kind: Whole(1), max_hz: 2000, availability: All },
    Channel { identifier: 0xE020, kind: Whole(4), max_hz: 2000, availability: All },
];

// The row of the table that bears the identifier.
// Never inlined, so that the compiler sees two searches for one identifier as the same call, and makes it once.
#[inline(never)]
fn find_row(identifier: u16) -> Option<&'static Channel>
    ensures { option_map (λ row. row.now) result ≡ channel_of identifier }
{
    CHANNELS.iter().find(|row| row.identifier == identifier)
}

// The channel of the table that bears the identifier.
pub fn find_channel(identifier: u16) -> Option<Channel>
    ensures is { result ≡ channel_of identifier }
    ensures exact { Exactly (Bearer identifier) result }
    ensures table { Orderly }
{
    let row = find_row(identifier)?;
    // The identifier as it was asked for: a later search for the channel's own is then the same call.
    Some(Channel { identifier, ..*row })
}
