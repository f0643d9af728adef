// Reading a data message that is handed in whole.
ghost use Rattle.std.specs.Prelude.{◌≡◌};
ghost use Rattle.mtdata2.specs.Packets.{handed_out};
ghost use Rattle.mtdata2.specs.Reading.{seen_body, message_of, read_of, seen_message};
ghost use Rattle.mtdata2.specs.Words.{ReadSaid};

use crate::fault::{Fault, Reason};
use crate::frame::{Body, read_frame};
use crate::packet::{Packets, check_packets};
use xbus::Header;

// The header of each data message.
pub const DATA_MESSAGE: Header = Header {
    address: 0xFF,
    identifier: 0x36,
};

// A data message whose packets are all right.
#[derive(Clone, Copy)]
pub struct Message<'a> {
    content: &'a [u8],
}

// The data of the message that the input is.
fn read_message(input: &[u8]) -> Result<Body<'_>, Fault>
    ensures { seen_body result ≡ message_of input.now }
{
    let body = read_frame(input)?;
    if body.header.address != DATA_MESSAGE.address {
        return Err(Reason::NotDataMessage.at(1));
    }
    if body.header.identifier != DATA_MESSAGE.identifier {
        return Err(Reason::NotDataMessage.at(2));
    }
    if body.content.is_empty() {
        return Err(Reason::NoPacket.at(body.start));
    }
    Ok(body)
}

// Reads a data message that is handed in whole, or finds its first fault.
pub fn read(input: &[u8]) -> Result<Message<'_>, Fault>
    ensures value { seen_message result ≡ read_of input.now }
    ensures said { ReadSaid input.now }
{
    let body = read_message(input)?;
    check_packets(body.content, body.start)?;
    Ok(Message {
        content: body.content,
    })
}

impl<'a> Message<'a> {
    // Its packets, in order.
    pub fn packets(&self) -> Packets<'a>
        ensures { handed_out result.rest.now ≡ handed_out self.now.content.now }
    {
        Packets { rest: self.content }
    }
}
