// A data message composed of packets that a line writes as IDENTIFIER:BYTES, and read back.
use crate::message::print_message;
use commands::{LineError, Misread, identifier_of, print_bytes};
use draft::{Draft, Record, Refusal};
use lines::{byte_of, words_in};
use std::alloc::Global;
use stream::LONGEST;

// A packet of a line: its identifier, and its data as the pairs of digits that the line holds.
#[derive(Clone, Copy)]
pub struct Packet<'a> {
    identifier: u16,
    digits: &'a [u8],
}

// Whether these are pairs of hexadecimal digits without spaces.
fn are_pairs(digits: &[u8]) -> bool {
    digits.chunks(2).all(|pair| byte_of(pair).is_some())
}

// Reads one packet, IDENTIFIER:BYTES.
fn read_packet(word: &[u8]) -> Option<Packet<'_>> {
    let [a, b, c, d, b':', digits @ ..] = word else {
        return None;
    };
    let identifier = identifier_of(&[*a, *b, *c, *d])?;
    are_pairs(digits).then_some(Packet { identifier, digits })
}

// Reads the packets of a line.
pub fn read_packets(heap: Global, line: &[u8]) -> Result<Vec<Packet<'_>>, LineError> {
    let mut packets = Vec::new(heap);
    for word in words_in(line) {
        packets.push(read_packet(word).ok_or(Misread::NotAPacket)?)?;
    }
    Ok(packets)
}

// One byte more than a packet can have: a packet of so many is refused, and one of more as well.
const TOO_MANY: usize = 256;

// The data of a packet, or the first `TOO_MANY` bytes of them.
fn read_content<'a>(digits: &[u8], out: &'a mut [u8; TOO_MANY]) -> &'a [u8] {
    let size = (digits.len() / 2).min(TOO_MANY);
    for (byte, pair) in out.iter_mut().zip(digits.chunks(2)) {
        *byte = byte_of(pair).unwrap_or_default();
    }
    &out[..size]
}

// Composes the packets at the mark of the tray.
// Form: a loop of its own, since draft's compose takes a message that was read, of which its theorem speaks.
fn compose_at(mark: &mut usize, tray: &mut [u8], packets: &[Packet<'_>]) -> Result<(), Refusal> {
    let mut draft = Draft::begin(mark);
    let mut out = [0u8; TOO_MANY];
    for packet in packets {
        let content = read_content(packet.digits, &mut out);
        draft.add(tray, content, Record::whole(packet.identifier, content))?;
    }
    draft.close()
}

// Prints the composed frame and what it reads back as, or the refusal.
pub fn print_composed(rt: &HostRuntime, packets: &[Packet<'_>]) -> anyhow::Result<()> {
    let mut tray = [0u8; LONGEST];
    let mut mark = 0;
    match compose_at(&mut mark, &mut tray, packets) {
        Ok(()) => {
            let frame = &tray[0..mark.min(LONGEST)];
            print_bytes(rt, "frame", frame)?;
            print_message(rt, frame)?;
        }
        Err(refusal) => {
            let number = refusal.number();
            println!(rt; "refused {number}")?;
        }
    }
    Ok(())
}
