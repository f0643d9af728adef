// The frame of a message that is handed in whole.
ghost use Rattle.std.specs.Prelude.{◌≡◌};
ghost use Rattle.xbus.specs.Writing.{content_start};
ghost use Rattle.mtdata2.specs.Reading.{seen_body, body_of, frame_of};

use crate::fault::{Fault, Reason};
use xbus::{DataLen, EXTENDED, Header, MOST_DATA, START, sum};

// The parts of a frame, and where its data start.
#[derive(Drop)]
pub(crate) struct Body<'a> {
    pub header: Header,
    pub start: usize,
    pub content: &'a [u8],
}

// The parts of a frame whose header says that it has `size` data bytes.
fn read_body(input: &[u8], header: Header, size: DataLen) -> Result<Body<'_>, Fault>
    ensures { seen_body result ≡ body_of header.address header.identifier (content_start size.len) size.len input.now }
{
    if input.len() != size.frame_size() {
        return Err(Reason::WrongLength.at(input.len()));
    }
    if sum(&input[1..]) != 0 {
        return Err(Reason::WrongChecksum.at(input.len() - 1));
    }
    let start = size.content_start();
    Ok(Body {
        header,
        start,
        content: &input[start..start + size.len],
    })
}

// The frame that the input is.
// Form: header patterns as in xbus's `classify`, since there a cut header waits, and here it is a fault with a place.
pub(crate) fn read_frame(input: &[u8]) -> Result<Body<'_>, Fault>
    ensures { seen_body result ≡ frame_of input.now }
{
    match *input {
        [START]
        | [START, _]
        | [START, _, _]
        | [START, _, _, EXTENDED]
        | [START, _, _, EXTENDED, _] => Err(Reason::WrongLength.at(input.len())),
        [START, address, identifier, EXTENDED, high, low, ..] => {
            let len = usize::from(u16::from_be_bytes([high, low]));
            if !(255..=MOST_DATA).contains(&len) {
                return Err(Reason::LengthRuledOut.at(4));
            }
            read_body(
                input,
                Header {
                    address,
                    identifier,
                },
                DataLen { len },
            )
        }
        [START, address, identifier, size, ..] => read_body(
            input,
            Header {
                address,
                identifier,
            },
            DataLen {
                len: usize::from(size),
            },
        ),
        _ => Err(Reason::NoStart.at(0)),
    }
}
