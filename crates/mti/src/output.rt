// Identifiers in a message: what they name, and the size of its data.
ghost use Rattle.std.specs.Prelude.{◌≡◌, ℕ};
ghost use Rattle.std.specs.Option.{option_map};
ghost use Rattle.mti.specs.Exactly.{Exactly};
ghost use Rattle.mti.specs.Identifiers.{plain, known_of, identifier_of, size_of, data_size_of, Known, KnownSize, Bounded};

use crate::channel::{Channel, Kind, find_channel};
use crate::precision::Precision;

// The bytes in front of the data of a packet: the identifier and the size.
pub const PACKET_HEADER: usize = 3;

// The identifier of the channel: the identifier with 0 for its format digit.
pub fn channel_identifier(identifier: u16) -> u16
    ensures { result ≡ plain identifier }
{
    identifier - identifier % 16
}

// A channel in a precision.
#[derive(Clone, Copy, PartialEq, Debug)]
pub struct Output {
    pub channel: Channel,
    pub precision: Precision,
}

impl Output {
    // The channel's identifier with the precision in the place of the format digit.
    pub fn identifier(&self) -> u16
        ensures is { result ≡ identifier_of self.now }
        ensures back { (i : ℕ) → Known i self.now → result ≡ i }
    {
        channel_identifier(self.channel.identifier) + self.precision.digit()
    }

    // The bytes of the data.
    pub fn size(&self) -> usize
        ensures { result ≡ size_of self.now }
    {
        match self.channel.kind {
            Kind::Real(count) => usize::from(count) * self.precision.width(),
            Kind::Whole(width) => usize::from(width),
        }
    }
}

// What the identifier names, whatever the product.
pub fn known(identifier: u16) -> Option<Output>
    ensures is { result ≡ known_of identifier }
    ensures exact { Exactly (Known identifier) result }
    ensures bounded { Bounded (option_map size_of result) }
{
    let channel = find_channel(channel_identifier(identifier))?;
    let precision = Precision::try_from(identifier % 16).ok()?;
    let output = Output { channel, precision };
    channel.takes(precision).then_some(output)
}

// The data size of a known identifier.
pub fn data_size(identifier: u16) -> Option<usize>
    ensures is { result ≡ data_size_of identifier }
    ensures exact { Exactly (KnownSize identifier) result }
    ensures bounded { Bounded result }
{
    known(identifier).map(|output| output.size())
}
