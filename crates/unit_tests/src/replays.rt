// Calls that are played on units made for them.
use mti::Product;
use replay::{Answer, Call, World, feed_all, replay, replay_both};
use sensor::{Ramp, Recorded};
use std::test::Fail;
use store::{Cell, Page, Store};
use unit::{Device, Fed, Refusal};

const TRAY: usize = 2055;

const TWO_FRAMES: [u8; 10] = [0xFA, 0xFF, 0x3F, 0x00, 0xC2, 0xFA, 0xFF, 0x00, 0x00, 0x01];

#[test]
fn answers_and_output(rt: HostRuntime) -> Result<(), Fail> {
    let calls = [
        Call::Tick { tray: TRAY },
        Call::Power { tray: TRAY },
        Call::Feed {
            bytes: &TWO_FRAMES,
            tray: TRAY,
        },
    ];
    let played = replay(rt.alloc(), Product::Mti3, 1, Cell::new(3), Ramp, &calls)?;
    let fed = Fed {
        taken: 5,
        written: 0,
        served: true,
    };
    let answers = [
        Answer::Tick(Err(Refusal::Dark)),
        Answer::Power(Ok(5)),
        Answer::Feed(Ok(fed)),
    ];
    assert!(rt; played.answers.as_slice() == answers.as_slice());
    assert!(rt; played.output.as_slice() == [0xFA, 0xFF, 0x3E, 0x00, 0xC3].as_slice());
    assert_eq!(rt; played.store.writes_left(), 3);
    Ok(())
}

// A unit without readings, over any store.
fn silent<S>(store: S) -> World<S, Recorded<'static>> {
    World {
        product: Product::Mti3,
        device_id: 9,
        store,
        sensor: Recorded { rows: &[] },
    }
}

fn feed(bytes: &[u8]) -> Call<'_> {
    Call::Feed { bytes, tray: TRAY }
}

// The same bytes, cut elsewhere, with a refused call, on a unit over another kind of store.
#[test]
fn alike_sessions(rt: HostRuntime) -> Result<(), Fail> {
    let mut memory = [0xFF; 141];
    let (first, second) = TWO_FRAMES.split_at(3);
    let power = Call::Power { tray: TRAY };
    let refused = Call::Power { tray: 0 };
    let again = feed(&TWO_FRAMES[5..]);
    let calls = [power, feed(&TWO_FRAMES), again];
    let others = [refused, power, feed(first), feed(second), again];
    let one = silent(Cell::new(1));
    let other = silent(Page::over(&mut memory));
    let (a, b) = replay_both(rt.alloc(), one, &calls, other, &others)?;
    assert!(rt; a.output.as_slice() == b.output.as_slice());
    assert_eq!(rt; a.output.len(), 14);
    Ok(())
}

#[test]
fn all_fed(rt: HostRuntime) -> Result<(), Fail> {
    let mut tray = [0; TRAY];
    let mut device = Device::new(Product::Mti3, 1, Cell::new(0), Ramp);
    device.power(&mut tray).map_err(|_| "refused")?;
    let mut feeds = Vec::new(rt.alloc());
    let mut out = Vec::new(rt.alloc());
    let fed = feed_all(&mut device, &TWO_FRAMES, &mut tray, &mut feeds, &mut out);
    assert!(rt; fed.is_ok());
    assert_eq!(rt; feeds.len(), 3);
    assert_eq!(rt; out.len(), 9);
    Ok(())
}
