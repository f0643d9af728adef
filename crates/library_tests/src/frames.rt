// Frames, their front, the bytes that wait.
use stream::{FrameWaits, Waiting};
use xbus::{
    Frame, Front, Header, WriteError, at_front, first_frame, number, put_number, sum, write_frame,
};

#[test]
fn fronts(rt: HostRuntime) {
    assert_eq!(rt; at_front(&[]), Front::Waits);
    assert_eq!(rt;
        at_front(&[0xFA, 0xFA, 0xFF, 0x00, 0x00, 0x01]),
        Front::Wrong
    );
    assert_eq!(rt;
        at_front(&[0xFA, 0xFF, 0x00, 0x00, 0x01, 0x77]),
        Front::Whole(5)
    );
    assert_eq!(rt; at_front(&[0xFA, 0xFF, 0x00, 0x00, 0x02]), Front::Wrong);
    assert_eq!(rt; at_front(&[0xFA, 0x01, 0x02, 0xFF, 0x08]), Front::Waits);
    assert_eq!(rt; at_front(&[0xFA, 0x01, 0x02, 0xFF, 0x09]), Front::Wrong);
    assert_eq!(rt;
        at_front(&[0xFA, 0x01, 0x02, 0xFF, 0x00, 0xFE]),
        Front::Wrong
    );
}

#[test]
fn sums_and_numbers(rt: HostRuntime) {
    assert_eq!(rt; sum(&[0xFF, 0x00, 0x00, 0x01]), 0);
    assert_eq!(rt; number(&[0x01, 0x02, 0x03]), 0x010203);
    let mut three = [0u8; 3];
    put_number(&mut three, 0xAA01_0203);
    assert_eq!(rt; number(&three), 0x010203);
    put_number(&mut three, 5);
    assert_eq!(rt; three[2], 5);
}

#[test]
fn written_and_read_back(rt: HostRuntime) {
    let mut tray = [0x55u8; 12];
    let frame = Frame {
        header: Header {
            address: 0xFF,
            identifier: 0x01,
        },
        content: &[1, 2, 3, 4],
    };
    assert_eq!(rt; write_frame(&mut tray, 4, frame), Err(WriteError::NoRoom));
    assert_eq!(rt; tray[4], 0x55);
    assert_eq!(rt; write_frame(&mut tray, 3, frame), Ok(9));
    assert_eq!(rt; tray[2], 0x55);
    assert_eq!(rt; tray[11], 0xF2);
    assert_eq!(rt; first_frame(&tray[3..]), Some(frame));
}

// The identifier of the frame that waits.
fn waiting_identifier(waiting: &Waiting) -> Option<u8> {
    waiting.frame().map(|frame| frame.header.identifier)
}

#[test]
fn one_byte_is_dropped(rt: HostRuntime) {
    let mut waiting = Waiting::new();
    for byte in [0xFA, 0xFA, 0xFF, 0x00, 0x00, 0x01] {
        assert_eq!(rt; waiting.take_byte(byte), Ok(()));
    }
    assert_eq!(rt; waiting_identifier(&waiting), Some(0x00));
    assert_eq!(rt; waiting.bytes().len(), 5);
}

#[test]
fn frames_inside_a_failed_frame(rt: HostRuntime) {
    let mut waiting = Waiting::new();
    let frames = [
        0xFAu8, 0xFF, 0x10, 0x0A, 0xFA, 0xFF, 0x00, 0x00, 0x01, 0xFA, 0xFF, 0x12, 0x00, 0xEF, 0x00,
    ];
    for byte in frames {
        assert_eq!(rt; waiting.take_byte(byte), Ok(()));
    }
    assert_eq!(rt; waiting_identifier(&waiting), Some(0x00));
    assert_eq!(rt; waiting.take_byte(0x00), Err(FrameWaits));
    waiting.pass();
    assert_eq!(rt; waiting_identifier(&waiting), Some(0x12));
    waiting.pass();
    assert!(rt; waiting.bytes().is_empty());
}
