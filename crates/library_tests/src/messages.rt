// Channels and data messages.
use mtdata2::{Layer, Packet, next_packet, read};
use mti::{Product, data_size, find_channel, known};
use std::test::Fail;

#[test]
fn identifiers(rt: HostRuntime) {
    assert_eq!(rt; data_size(0x2013), Some(32));
    assert_eq!(rt; data_size(0x1020), Some(2));
    assert_eq!(rt; data_size(0x2022), Some(54));
    assert_eq!(rt; data_size(0x1021), None);
    assert_eq!(rt; data_size(0x2014), None);
    assert_eq!(rt; known(0x0000), None);
}

#[test]
fn products(rt: HostRuntime) -> Result<(), Fail> {
    let pressure = find_channel(0x3010).ok_or("no pressure")?;
    assert!(rt; pressure.offered_by(Product::Mti300));
    assert!(rt; !pressure.offered_by(Product::Mti30));
    let altitude = find_channel(0x5020).ok_or("no altitude")?;
    assert!(rt; altitude.offered_by(Product::MtiG710));
    assert!(rt; !altitude.offered_by(Product::Mti300));
    Ok(())
}

// The number, layer and place of the fault: none where the message is accepted.
fn fault_of(input: &[u8]) -> Option<(u8, Layer, usize)> {
    let fault = read(input).err()?;
    Some((fault.number(), fault.layer(), fault.place))
}

#[test]
fn faults(rt: HostRuntime) {
    assert_eq!(rt; fault_of(&[]), Some((14, Layer::Frame, 0)));
    assert_eq!(rt; fault_of(&[0xFA, 0xFF]), Some((15, Layer::Frame, 2)));
    assert_eq!(rt;
        fault_of(&[0xFA, 0xFF, 0x36, 0xFF, 0x09, 0x00]),
        Some((16, Layer::Frame, 4))
    );
    assert_eq!(rt;
        fault_of(&[0xFA, 0xFF, 0x36, 0x00, 0xCC]),
        Some((17, Layer::Frame, 4))
    );
    assert_eq!(rt;
        fault_of(&[0xFA, 0x01, 0x36, 0x00, 0xC9]),
        Some((18, Layer::Message, 1))
    );
    assert_eq!(rt;
        fault_of(&[0xFA, 0xFF, 0x36, 0x00, 0xCB]),
        Some((19, Layer::Message, 4))
    );
    assert_eq!(rt;
        fault_of(&[0xFA, 0xFF, 0x36, 0x02, 0x10, 0x20, 0x99]),
        Some((20, Layer::Packet, 4))
    );
}

#[test]
fn packets(rt: HostRuntime) -> Result<(), Fail> {
    let input = [0xFA, 0xFF, 0x36, 0x05, 0x10, 0x20, 0x02, 0x00, 0x07, 0x8D];
    assert_eq!(rt; fault_of(&input), None);
    let (packet, behind) = next_packet(&input[4..9]).ok_or("no packet")?;
    assert_eq!(rt;
        packet,
        Packet::Whole {
            identifier: 0x1020,
            content: &[0, 7],
        }
    );
    assert!(rt; behind.is_empty());
    Ok(())
}
