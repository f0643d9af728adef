// The parts of a frame.
ghost use Rattle.std.specs.Prelude.{◌≡◌};
ghost use Rattle.std.specs.Option.{option_map};
ghost use Rattle.xbus.specs.Parts.{split_of, first_parts, seen, PartsInverse};

use crate::front::{EXTENDED, Front, at_front};

// What a frame says of itself in front of its data.
#[derive(Clone, Copy, Debug, PartialEq)]
pub struct Header {
    pub address: u8,
    pub identifier: u8,
}

// A frame's header and data, which are a part of the bytes read.
#[derive(Clone, Copy, Debug, PartialEq)]
pub struct Frame<'a> {
    pub header: Header,
    pub content: &'a [u8],
}

// The parts of a frame. None where the bytes are too few for one.
pub fn split_frame(frame: &[u8]) -> Option<Frame<'_>>
    ensures { option_map seen result ≡ split_of frame.now }
{
    // Form: by the length byte, since `DataLen::of_frame` goes by the number of bytes alone.
    let start = if *frame.get(3)? == EXTENDED { 6 } else { 4 };
    let content = frame.get(start..frame.len() - 1)?;
    let header = Header {
        address: frame[1],
        identifier: frame[2],
    };
    Some(Frame { header, content })
}

// The whole frame at the front of the bytes, if one stands there.
pub fn first_frame(bytes: &[u8]) -> Option<Frame<'_>>
    ensures value { option_map seen result ≡ first_parts bytes.now }
    ensures inverse { PartsInverse }
{
    match at_front(bytes) {
        Front::Whole(size) => split_frame(&bytes[0..size]),
        _ => None,
    }
}
