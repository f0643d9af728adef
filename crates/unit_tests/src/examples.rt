// The examples of docs/USING.md, as they stand there.
use config::change;
use decision::{Action, Change, State, decide};
use draft::{Draft, Record};
use mtdata2::read;
use mti::{Precision, Product, data_size, known};
use numbers::put_real;
use replay::{Call, replay};
use sensor::{Question, Ramp, Recorded, Row, Sensor};
use settings::Settings;
use std::test::Fail;
use store::{Cell, IMAGE, Page, Store};
use stream::{Piece, read_recording};
use unit::{Device, Fed};
use xbus::{Frame, Front, Header, at_front, write_frame};

#[test]
fn unit(rt: HostRuntime) {
    let mut tray = [0; 2055];
    let mut device = Device::new(Product::Mti3, 0x0102_0304, Cell::new(10), Ramp);
    assert_eq!(rt; device.power(&mut tray), Ok(5));
    assert_eq!(rt; tray.get(..5), Some(&[0xFA, 0xFF, 0x3E, 0x00, 0xC3][..]));

    let served = |written| {
        Ok(Fed {
            taken: 5,
            written,
            served: true,
        })
    };
    let wake_up_ack = [0xFA, 0xFF, 0x3F, 0x00, 0xC2];
    assert_eq!(rt; device.feed(&wake_up_ack, &mut tray), served(0));
    let req_did = [0xFA, 0xFF, 0x00, 0x00, 0x01];
    assert_eq!(rt; device.feed(&req_did, &mut tray), served(9));
    assert_eq!(rt; device.tick(&mut tray), Ok(0));

    let (store, _) = device.into_parts();
    assert_eq!(rt; store.writes_left(), 10);
}

#[test]
fn calls_played(rt: HostRuntime) -> Result<(), Fail> {
    let calls = [
        Call::Power { tray: 2055 },
        Call::Feed {
            bytes: &[0xFA, 0xFF, 0x3F, 0x00, 0xC2],
            tray: 2055,
        },
        Call::Tick { tray: 2055 },
    ];
    let played = replay(rt.alloc(), Product::Mti3, 1, Cell::new(3), Ramp, &calls)?;
    assert_eq!(rt; played.answers.len(), 3);
    assert!(rt; played.output.as_slice() == [0xFA, 0xFF, 0x3E, 0x00, 0xC3].as_slice());
    Ok(())
}

#[test]
fn stores_and_sensors(rt: HostRuntime) {
    let mut memory = [0xFF; 564];
    let mut page = Page::over(&mut memory);
    assert_eq!(rt; page.save(&[9; IMAGE]), Ok(()));
    assert_eq!(rt; page.writes_left(), 3);
    let memory = page.into_bytes();
    assert_eq!(rt; memory.get(..3), Some(&[0x00, 9, 9][..]));

    let rows = [Row {
        channel: 0x2030,
        tick: 0,
        numbers: [4; 9],
    }];
    let mut sensor = Recorded { rows: &rows };
    let question = Question {
        channel: 0x2030,
        index: 2,
        tick: 7,
    };
    assert_eq!(rt; sensor.reading(question), Some(4));
}

#[test]
fn settings_and_messages(rt: HostRuntime) -> Result<(), Fail> {
    let settings = Settings::factory(Product::Mti30);
    let asked = decide(State::Config, Product::Mti30, 0x84, &[0, 5]);
    assert_eq!(rt; asked, Ok(Action::Set(Change::Location(5))));
    let changed = change(&settings, Change::Location(5)).map_err(|_| "wrong")?;
    let image = changed.image();
    let loaded = Settings::load(Product::Mti30, &image).ok_or("no image of settings")?;
    assert_eq!(rt; loaded.values().location, 5);
    Ok(())
}

#[test]
fn frames(rt: HostRuntime) {
    let mut tray = [0; 16];
    let header = Header {
        address: 0xFF,
        identifier: 0x00,
    };
    let frame = Frame {
        header,
        content: &[],
    };
    assert_eq!(rt; write_frame(&mut tray, 0, frame), Ok(5));
    assert_eq!(rt; at_front(&tray), Front::Whole(5));

    let recording = [0xFA, 0xFA, 0xFF, 0x00, 0x00, 0x01];
    let mut pieces = read_recording(&recording);
    assert_eq!(rt; pieces.next(), Some(Piece::Dropped(&[0xFA])));
    assert_eq!(rt;
        pieces.next(),
        Some(Piece::Frame(&[0xFA, 0xFF, 0x00, 0x00, 0x01]))
    );
    assert_eq!(rt; pieces.next(), None);
}

#[test]
fn data_messages(rt: HostRuntime) -> Result<(), Fail> {
    let mut tray = [0; 2055];
    let mut mark = 0;
    let counter = [0, 7];
    let mut draft = Draft::begin(&mut mark);
    draft
        .add(&mut tray, &counter, Record::whole(0x1020, &counter))
        .map_err(|_| "refused")?;
    draft.close().map_err(|_| "refused")?;
    assert_eq!(rt; mark, 10);

    let message = read(&tray[..10]).map_err(|_| "a fault")?;
    for packet in message.packets() {
        assert_eq!(rt; packet.identifier(), 0x1020);
        assert_eq!(rt; packet.content(), &[0, 7][..]);
    }

    assert_eq!(rt;
        known(0x2013).map(|output| output.precision),
        Some(Precision::Double)
    );
    assert_eq!(rt; data_size(0x2013), Some(32));
    let mut bytes = [0; 4];
    assert_eq!(rt;
        put_real(&mut bytes, 0x1_0000_0000, Precision::Single),
        Ok(4)
    );
    assert_eq!(rt; bytes, [0x3F, 0x80, 0x00, 0x00]);
    Ok(())
}
