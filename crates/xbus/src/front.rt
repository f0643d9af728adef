// What stands at the front of a list of bytes.
ghost use Rattle.std.specs.Prelude.{◌≡◌, ◌%◌};
ghost use Rattle.xbus.specs.Front.{total, announced, front_of};
ghost use Rattle.xbus.specs.Numbers.{Bytes};
ghost use Rattle.xbus.specs.Frames.{FrontSaid, Stays, Bounded};
ghost use Rattle.xbus.specs.Writing.{frame_size};

use crate::data_len::DataLen;

// The first byte of each frame.
pub const START: u8 = 0xFA;

// In place of a length of one byte: two bytes with the length follow.
pub const EXTENDED: u8 = 0xFF;

// The most data bytes that a frame holds.
pub const MOST_DATA: usize = 2048;

// The bytes of the longest frame.
pub const LONGEST: usize = 2055;

#[derive(Clone, Copy, Debug, PartialEq)]
pub enum Front {
    // a frame of so many bytes
    Whole(usize),
    // nothing, or a proper start of a frame
    Waits,
    // what begins no frame
    Wrong,
}

// The sum of the bytes modulo 256.
pub fn sum(part: &[u8]) -> u8
    ensures value { result ≡ total part.now % 256 }
    ensures bytes { Bytes part.now }
{
    let mut sum = 0u8;
    for byte in part {
        sum = sum.wrapping_add(*byte);
    }
    sum
}

// What stands there if the header announces so many data bytes.
fn announced(bytes: &[u8], len: DataLen) -> Front
    ensures { result ≡ announced (frame_size len.len) bytes.now }
{
    let size = len.frame_size();
    let Some(part) = bytes.get(1..size) else {
        return Front::Waits;
    };
    if sum(part) == 0 {
        Front::Whole(size)
    } else {
        Front::Wrong
    }
}

// What stands at the front, by the header.
// Form: apart from `at_front`, since in one each theorem is owed at each way out, and no line gets plainer by it.
// Form: `read_frame` of mtdata2 has a match of its own: there no bytes and a cut header are faults, and here they wait.
fn classify(bytes: &[u8]) -> Front
    ensures { result ≡ front_of bytes.now }
{
    match bytes {
        [] | [START] | [START, _] | [START, _, _] | [START, _, _, _] => Front::Waits,
        [START, _, _, EXTENDED, 0..=8] => Front::Waits,
        [START, _, _, EXTENDED, _] => Front::Wrong,
        [START, _, _, EXTENDED, high, low, ..] => {
            let len = usize::from(u16::from_be_bytes([*high, *low]));
            if (255..=MOST_DATA).contains(&len) {
                announced(bytes, DataLen { len })
            } else {
                Front::Wrong
            }
        }
        [START, _, _, len, ..] => {
            let len = usize::from(*len);
            announced(bytes, DataLen { len })
        }
        _ => Front::Wrong,
    }
}

// What stands at the front of the bytes.
pub fn at_front(bytes: &[u8]) -> Front
    ensures value { result ≡ front_of bytes.now }
    ensures said { FrontSaid bytes.now }
    ensures stays { Stays bytes.now }
    ensures bounded { Bounded bytes.now }
{
    classify(bytes)
}
