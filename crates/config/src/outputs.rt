// The outputs that a message asks for.
ghost use Rattle.std.specs.Prelude.{◌≡◌, ◌≤◌, map, length};
ghost use Rattle.std.specs.Option.{option_map};
ghost use Rattle.settings.specs.Values.{entry, listed};
ghost use Rattle.config.specs.Changed.{entries_in, used, empties, asked_outputs};

use decision::fits_entries;
use mti::known;
use settings::{Entries, Entry, largest_divisor};

// The entry at the frequency that its channel is sent at.
fn used_entry(identifier: u16, asked: u16) -> Entry
    ensures { result ≡ used (entry identifier asked) }
{
    let frequency = known(identifier).map_or(
        asked,
        |output| largest_divisor(output.channel.max_hz, asked),
    );
    Entry {
        identifier,
        frequency,
    }
}

// The entries in four bytes each.
fn used_entries(bytes: &[u8]) -> Entries
    requires { length (entries_in bytes.now) ≤ 32 }
    ensures { listed result ≡ map used (entries_in bytes.now) }
{
    let mut entries = Entries::new();
    for four in bytes.as_chunks::<4>().0 {
        let [a, b, c, d] = *four;
        let entry = used_entry(u16::from_be_bytes([a, b]), u16::from_be_bytes([c, d]));
        entries.push(entry).unwrap();
    }
    entries
}

// Whether the bytes are four zeros.
fn is_emptying(bytes: &[u8]) -> bool
    ensures { result ≡ empties bytes.now }
{
    matches!(bytes, [0, 0, 0, 0])
}

// The outputs that the bytes ask for: none for four zeros, else 1 to 32 entries.
// Form: the length is tested again, since `change` is promised for the bytes of any change.
pub(crate) fn asked_outputs(bytes: &[u8]) -> Option<Entries>
    ensures { option_map listed result ≡ asked_outputs bytes.now }
{
    if !fits_entries(bytes.len()) {
        return None;
    }
    if is_emptying(bytes) {
        return Some(Entries::new());
    }
    Some(used_entries(bytes))
}
