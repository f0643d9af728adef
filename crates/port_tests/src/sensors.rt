// Sensors: the ramp and recorded rows.
use crate::any::reading_of_any;
use mti::Kind;
use sensor::{Question, Ramp, Recorded, Row, Sensor, asked, two_readings};
use std::process::Abort;

// One, in units of 2^-32.
const ONE: i64 = 0x1_0000_0000;

// A question.
const fn at(channel: u16, index: usize, tick: u32) -> Question {
    Question {
        channel,
        index,
        tick,
    }
}

// The sensor answers each question with the reading beside it.
fn answers<S: Sensor>(rt: &impl Abort, sensor: &mut S, readings: &[(Question, Option<i64>)]) {
    for (question, reading) in readings {
        assert_eq!(rt; sensor.reading(*question), *reading);
    }
}

// What neither sensor answers.
fn silent() -> [(Question, Option<i64>); 9] {
    [
        (at(0x1020, 0, 9), None),
        (at(0x1060, 0, 9), None),
        (at(0x1070, 0, 9), None),
        (at(0xE010, 0, 9), None),
        (at(0x2011, 0, 9), None),
        (at(0x0000, 0, 9), None),
        (at(0x2010, 4, 9), None),
        (at(0x2020, 9, 9), None),
        (at(0x3010, 1, 9), None),
    ]
}

#[test]
fn ramp(rt: HostRuntime) {
    let mut sensor = Ramp;
    answers(&rt, &mut sensor, &silent());
    answers(
        &rt,
        &mut sensor,
        &[
            (at(0x2010, 0, 0), Some(-32768 * ONE)),
            (at(0x2010, 0, 1), Some(-32767 * ONE)),
            (at(0x2020, 8, 1000), Some(-23768 * ONE)),
            (at(0x4020, 1, 32767), Some(32766 * ONE)),
            (at(0x4020, 1, 32768), Some(-32768 * ONE)),
            (at(0x0810, 0, 65535), Some(32767 * ONE)),
            (at(0x0810, 0, 65536), Some(-32768 * ONE)),
            (at(0x8030, 3, 4294967295), Some(32764 * ONE)),
            (at(0x3010, 0, 70000), Some(70000)),
            (at(0xE020, 0, 4294967295), Some(4294967295)),
        ],
    );
}

// A row that has the number at index 1, and small ones elsewhere.
const fn row(channel: u16, tick: u32, number: i64) -> Row {
    Row {
        channel,
        tick,
        numbers: [0, number, 2, 3, 4, 5, 6, 7, 8],
    }
}

#[test]
fn rows_that_are_not_asked(rt: HostRuntime) {
    let rows = [
        row(0x1020, 0, 1),
        row(0x1060, 0, 1),
        row(0x1070, 0, 1),
        row(0xE010, 0, 1),
        row(0x2011, 0, 1),
        row(0x2010, 0, 1),
        row(0x2020, 0, 1),
        row(0x3010, 0, 1),
    ];
    let mut sensor = Recorded { rows: &rows };
    answers(&rt, &mut sensor, &silent());
}

#[test]
fn rows_out_of_order(rt: HostRuntime) {
    let rows = [
        row(0x4020, 50, 100),
        row(0x4020, 10, 200),
        row(0x8020, 20, 300),
        row(0x4020, 30, 400),
        row(0x4020, 20, 500),
        row(0x4020, 20, 600),
    ];
    let mut sensor = Recorded { rows: &rows };
    answers(
        &rt,
        &mut sensor,
        &[
            (at(0x4020, 1, 9), None),
            (at(0x2030, 0, 60), None),
            (at(0x4020, 3, 60), None),
            (at(0x4020, 1, 10), Some(200)),
            (at(0x4020, 1, 19), Some(200)),
            (at(0x4020, 1, 20), Some(600)),
            (at(0x4020, 1, 60), Some(600)),
            (at(0x8020, 1, 60), Some(300)),
            (at(0x4020, 2, 60), Some(2)),
        ],
    );
}

#[test]
fn no_rows(rt: HostRuntime) {
    let mut sensor = Recorded { rows: &[] };
    answers(&rt, &mut sensor, &[(at(0x4020, 0, 4294967295), None)]);
}

#[test]
fn clamped_numbers(rt: HostRuntime) {
    let below = Row {
        channel: 0xE020,
        tick: 1,
        numbers: [-1; 9],
    };
    let above = Row {
        channel: 0xE020,
        tick: 2,
        numbers: [0x1_0000_0000; 9],
    };
    let rows = [
        row(0x4020, 1, 0x7FFF_FFFF_FFFF),
        row(0x4020, 2, 0x8000_0000_0000),
        row(0x4020, 3, -0x8000_0000_0000),
        row(0x4020, 4, -0x8000_0000_0001),
        below,
        above,
    ];
    let mut sensor = Recorded { rows: &rows };
    answers(
        &rt,
        &mut sensor,
        &[
            (at(0x4020, 1, 1), Some(0x7FFF_FFFF_FFFF)),
            (at(0x4020, 1, 2), Some(0x7FFF_FFFF_FFFF)),
            (at(0x4020, 1, 3), Some(-0x8000_0000_0000)),
            (at(0x4020, 1, 4), Some(-0x8000_0000_0000)),
            (at(0xE020, 0, 1), Some(0)),
            (at(0xE020, 0, 2), Some(0xFFFF_FFFF)),
        ],
    );
}

#[test]
fn asked_for(rt: HostRuntime) {
    assert_eq!(rt; asked(0x2020, 8), Some(Kind::Real(9)));
    assert_eq!(rt; asked(0xE020, 0), Some(Kind::Whole(4)));
    assert_eq!(rt; asked(0x5040, 2), None);
    assert_eq!(rt; asked(0xE020, 1), None);
    assert_eq!(rt; asked(0x1020, 0), None);
}

#[test]
fn two_questions(rt: HostRuntime) {
    let first = at(0x4020, 0, 5);
    let second = at(0xE020, 0, 3);
    let mut sensor = Ramp;
    let (one, other) = two_readings(&mut sensor, first, second);
    assert_eq!(rt; one, Some(-32763 * ONE));
    assert_eq!(rt; other, Some(3));
}

// The same answers through a trait object.
#[test]
fn any_sensor(rt: HostRuntime) {
    let rows = [Row {
        channel: 0xE020,
        tick: 3,
        numbers: [-1; 9],
    }];
    let mut recorded = Recorded { rows: &rows };
    assert_eq!(rt; reading_of_any(&mut recorded, at(0xE020, 0, 2)), None);
    assert_eq!(rt; reading_of_any(&mut recorded, at(0xE020, 0, 3)), Some(0));
    assert_eq!(rt; reading_of_any(&mut Ramp, at(0x2010, 0, 32769)), Some(ONE));
}
