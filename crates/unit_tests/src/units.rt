// A unit over a cell and the ramp, call by call.
use mti::Product;
use sensor::Ramp;
use std::process::Abort;
use std::test::Fail;
use store::{Cell, Page, Store};
use stream::LONGEST;
use unit::{Device, Fed, Refusal};

const WAKE_UP_ACK: [u8; 5] = [0xFA, 0xFF, 0x3F, 0x00, 0xC2];

const REQ_DID: [u8; 5] = [0xFA, 0xFF, 0x00, 0x00, 0x01];

// A feed that served a frame and wrote so many bytes.
fn served(taken: usize, written: usize) -> Result<Fed, Refusal> {
    Ok(Fed {
        taken,
        written,
        served: true,
    })
}

// The unit has written these bytes.
fn wrote(rt: &impl Abort, tray: &[u8], bytes: &[u8]) {
    assert_eq!(rt; tray.get(..bytes.len()), Some(bytes));
}

// The first session of docs/BENCH.md: an MTi-3 over a page of four slots, all FF.
#[test]
fn device_id(rt: HostRuntime) {
    let mut tray = [0; LONGEST];
    let mut memory = [0xFF; 564];
    let mut device = Device::new(Product::Mti3, 0x0102_0304, Page::over(&mut memory), Ramp);
    assert_eq!(rt; device.power(&mut tray), Ok(5));
    wrote(&rt, &tray, &[0xFA, 0xFF, 0x3E, 0x00, 0xC3]);
    assert_eq!(rt; device.feed(&WAKE_UP_ACK, &mut tray), served(5, 0));
    assert_eq!(rt; device.feed(&REQ_DID, &mut tray), served(5, 9));
    wrote(&rt, &tray, &[0xFA, 0xFF, 0x01, 0x04, 1, 2, 3, 4, 0xF2]);
    let (page, _) = device.into_parts();
    assert_eq!(rt; page.writes_left(), 4);
}

#[test]
fn refusals(rt: HostRuntime) {
    let mut tray = [0; LONGEST];
    let mut short = [0; LONGEST - 1];
    let mut device = Device::new(Product::Mti300, 1, Cell::new(0), Ramp);
    assert_eq!(rt; device.feed(&REQ_DID, &mut short), Err(Refusal::Dark));
    assert_eq!(rt; device.tick(&mut tray), Err(Refusal::Dark));
    assert_eq!(rt; device.power(&mut short), Err(Refusal::ShortTray));
    assert_eq!(rt; device.power(&mut tray), Ok(5));
    assert_eq!(rt; device.power(&mut short), Err(Refusal::AlreadyPowered));
    assert_eq!(rt; device.tick(&mut short), Err(Refusal::ShortTray));
}

// Two frames in one feed: the second waits, and a tick is refused until it is served.
#[test]
fn waiting_frames(rt: HostRuntime) {
    let mut tray = [0; LONGEST];
    let mut device = Device::new(Product::Mti3, 1, Cell::new(0), Ramp);
    assert_eq!(rt; device.power(&mut tray), Ok(5));
    let failed = [
        0xFA, 0xFF, 0x00, 0x0A, 0xFA, 0xFF, 0x3F, 0x00, 0xC2, 0xFA, 0xFF, 0x00, 0x00, 0x01, 0x00,
    ];
    assert_eq!(rt; device.feed(&failed, &mut tray), served(15, 0));
    assert_eq!(rt; device.tick(&mut tray), Err(Refusal::FrameWaits));
    assert_eq!(rt; device.feed(&REQ_DID, &mut tray), served(0, 9));
    assert_eq!(rt; device.tick(&mut tray), Ok(0));
}

// A change is stored in the page, and its memory is the caller's again once the unit is taken apart.
#[test]
fn stored_change(rt: HostRuntime) {
    let mut tray = [0; LONGEST];
    let mut memory = [0xFF; 141];
    let mut device = Device::new(Product::Mti30, 7, Page::over(&mut memory), Ramp);
    assert_eq!(rt; device.power(&mut tray), Ok(5));
    assert_eq!(rt; device.feed(&WAKE_UP_ACK, &mut tray), served(5, 0));
    let location = [0xFA, 0xFF, 0x84, 0x02, 0x00, 0x05, 0x76];
    assert_eq!(rt; device.feed(&location, &mut tray), served(7, 5));
    wrote(&rt, &tray, &[0xFA, 0xFF, 0x85, 0x00, 0x7C]);
    assert_eq!(rt; device.feed(&location, &mut tray), served(7, 11));
    wrote(
        &rt,
        &tray,
        &[0xFA, 0xFF, 0x42, 0x06, 40, 0x84, 0, 0, 0, 0, 0x0D],
    );
    let (page, _) = device.into_parts();
    assert_eq!(rt; page.writes_left(), 0);
    let memory = page.into_bytes();
    assert_eq!(rt;
        memory.get(..9),
        Some(&[0x00, 0x0A, 4, 0x02, 39, 0, 1, 0, 5][..])
    );
}

#[test]
fn thousand_ticks(rt: HostRuntime) -> Result<(), Fail> {
    let mut tray = [0; LONGEST];
    let mut device = Device::new(Product::Mti3, 1, Cell::new(0), Ramp);
    device.power(&mut tray).map_err(|_| "refused")?;
    for _ in 0..999 {
        assert_eq!(rt; device.tick(&mut tray), Ok(0));
    }
    assert_eq!(rt; device.tick(&mut tray), Ok(123));
    assert_eq!(rt; device.feed(&WAKE_UP_ACK, &mut tray), served(5, 6));
    wrote(&rt, &tray, &[0xFA, 0xFF, 0x42, 0x01, 4, 0xBA]);
    Ok(())
}
