// Faults of a data message.
ghost use Rattle.std.specs.Prelude.{◌≡◌, Some};
ghost use Rattle.mtdata2.specs.Faults.{number_of, layer_of, layer_name};

use std::fmt;

// Where reading was when it found a fault.
#[derive(Clone, Copy, Debug, PartialEq, Eq)]
pub enum Layer {
    Frame,
    Message,
    Packet,
}

impl fmt::Display for Layer {
    ghost output = { λ layer. Some (layer_name layer) };

    fn fmt<W: fmt::Write>(&self, f: &mut fmt::Formatter<W>) -> fmt::Result {
        f.write_str(match self {
            Layer::Frame => "frame",
            Layer::Message => "message",
            Layer::Packet => "packet",
        })
    }
}

// What is wrong, as the number of the fault.
#[derive(Clone, Copy, Debug, PartialEq, Eq)]
pub enum Reason {
    // the first byte is not FA, or there is none
    NoStart = 14,
    // the header is cut, or the input is shorter or longer than its frame
    WrongLength = 15,
    // the two-byte length is below 255 or above 2,048
    LengthRuledOut = 16,
    // the bytes behind FA do not sum to 0
    WrongChecksum = 17,
    // the address is not FF, or the identifier is not 36
    NotDataMessage = 18,
    // there are no data
    NoPacket = 19,
    // a packet's identifier and size are cut
    HeaderCut = 20,
    // a packet's data are cut
    ContentCut = 21,
    // a known identifier with another size than its data size
    WrongSize = 22,
}

impl Reason {
    // The fault of this reason at a place.
    pub(crate) fn at(self, place: usize) -> Fault
        ensures { result ≡ record { reason = self; place = place } }
    {
        Fault {
            reason: self,
            place,
        }
    }
}

// A fault and its place, an index in the input.
#[derive(Clone, Copy, Debug, PartialEq, Eq)]
pub struct Fault {
    pub reason: Reason,
    pub place: usize,
}

impl Fault {
    pub fn number(&self) -> u8
        ensures { result ≡ number_of self.now.reason }
    {
        self.reason as u8
    }

    pub fn layer(&self) -> Layer
        ensures { result ≡ layer_of self.now.reason }
    {
        match self.reason {
            Reason::NoStart
            | Reason::WrongLength
            | Reason::LengthRuledOut
            | Reason::WrongChecksum => Layer::Frame,
            Reason::NotDataMessage | Reason::NoPacket => Layer::Message,
            Reason::HeaderCut | Reason::ContentCut | Reason::WrongSize => Layer::Packet,
        }
    }
}
