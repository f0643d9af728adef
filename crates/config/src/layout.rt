// The data of the Configuration message.
ghost use Rattle.std.specs.Prelude.{◌≡◌, ◌≤◌};
ghost use Rattle.mti.specs.Identifiers.{data_size_of};
ghost use Rattle.settings.specs.Values.{listed};
ghost use Rattle.settings.specs.View.{values_of};
ghost use Rattle.config.specs.Answered.{packet_bytes, data_bytes, configuration_of};
ghost use Rattle.config.specs.Told.{ConfigurationSaid};

use mti::{PACKET_HEADER, data_size};
use settings::{Entries, Settings};

// The bytes of a packet with the data of an output.
fn packet_bytes(identifier: u16) -> usize
    ensures is { result ≡ packet_bytes (data_size_of identifier) }
    ensures few { result ≤ 75 }
{
    data_size(identifier).map_or(0, |size| PACKET_HEADER + size)
}

// The data bytes of a message that has the data of all entries.
fn data_bytes(entries: &Entries) -> u16
    ensures { result ≡ data_bytes (listed entries.now) }
{
    entries
        .as_slice()
        .iter()
        .map(|entry| packet_bytes(entry.identifier))
        .sum::<usize>() as u16
}

// The device ID, zeros, 0001, the device ID again, the size of all data, and zeros.
pub fn configuration(settings: &Settings, device_id: u32) -> [u8; 118]
    ensures is { result ≡ configuration_of device_id (values_of settings.now) }
    ensures said { ConfigurationSaid }
{
    let values = settings.values();
    let id = device_id.to_be_bytes();
    let size = data_bytes(&values.entries).to_be_bytes();
    let mut out = [0; 118];
    out[..4].copy_from_slice(&id);
    out[96..104].copy_from_slice(&[0, 1, id[0], id[1], id[2], id[3], size[0], size[1]]);
    out
}
