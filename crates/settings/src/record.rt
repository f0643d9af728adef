// What settings hold, in fixed memory.
ghost use Rattle.std.specs.Prelude.{◌≡◌, ◌≤◌, length};
ghost use Rattle.mti.specs.Identifiers.{plain};

use mti::channel_identifier;

// The most entries that a list of outputs has.
pub const MOST_ENTRIES: usize = 32;

// An output: an identifier and how often its data are sent, in Hz.
#[derive(Clone, Copy, PartialEq, Eq, Debug)]
pub struct Entry {
    pub identifier: u16,
    pub frequency: u16,
}

impl Entry {
    // The identifier of the channel: the identifier with 0 for its last hexadecimal digit.
    pub fn channel(self) -> u16
        ensures { result ≡ plain self.identifier }
    {
        channel_identifier(self.identifier)
    }
}

// A list has no room for one more output.
#[derive(Clone, Copy, PartialEq, Eq, Debug)]
pub struct ListFull;

// A list of at most 32 outputs.
// Form: an array and a count, since a device has no heap and settings stay Copy, which the kit's ArrayVec is not.
#[derive(Clone, Copy)]
pub struct Entries {
    list: [Entry; MOST_ENTRIES],
    count: usize,
    ghost fits: { count ≤ 32 },
    ghost sized: { length list ≡ 32 },
}

// The values of the settings, valid or not.
#[derive(Clone, Copy)]
pub struct Record {
    pub baud: u8,
    pub profile: u8,
    pub error_mode: u16,
    pub location: u16,
    pub flags: u32,
    pub entries: Entries,
}

mod list;
