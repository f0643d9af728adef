// The packets of a data message, each a part of the input.
ghost use Rattle.std.specs.Prelude.{◌≡◌, ◌+◌, ◌^◌, ◌<◌, [], ◌∷◌, length, MatchOption};
ghost use Rattle.std.specs.Option.{option_map};
ghost use Rattle.mtdata2.specs.Packets.{size_fits, item_of, item, cut_of, seen_cut, cut_seen, ok_of, handed_out, packet_steps, packets_from, done, seen_done};
ghost use Rattle.std.specs.Iterator.{at_most};

use crate::fault::{Fault, Reason};
use mti::{Kind, data_size, known};

// A packet with its identifier and its data: real numbers, a whole number, or of an unknown identifier.
#[derive(Clone, Copy, Debug, PartialEq, Eq)]
pub enum Packet<'a> {
    Real { identifier: u16, content: &'a [u8] },
    Whole { identifier: u16, content: &'a [u8] },
    Unknown { identifier: u16, content: &'a [u8] },
}

impl<'a> Packet<'a> {
    pub fn identifier(&self) -> u16
        ensures { result ≡ (item self.now).identifier }
    {
        match self {
            Packet::Real { identifier, .. }
            | Packet::Whole { identifier, .. }
            | Packet::Unknown { identifier, .. } => *identifier,
        }
    }

    // The part of the input that holds its data.
    pub fn content(&self) -> &'a [u8]
        ensures { result.now ≡ (item self.now).bytes }
    {
        match self {
            Packet::Real { content, .. }
            | Packet::Whole { content, .. }
            | Packet::Unknown { content, .. } => content,
        }
    }
}

// Whether a packet of this identifier may have so many data bytes.
pub fn size_fits(identifier: u16, size: usize) -> bool
    ensures { result ≡ size_fits identifier size }
{
    data_size(identifier).is_none_or(|right| size == right)
}

fn packet_of(identifier: u16, content: &[u8]) -> Packet<'_>
    ensures { item result ≡ item_of identifier content.now }
{
    match known(identifier).map(|output| output.channel.kind) {
        Some(Kind::Real(_)) => Packet::Real {
            identifier,
            content,
        },
        Some(Kind::Whole(_)) => Packet::Whole {
            identifier,
            content,
        },
        None => Packet::Unknown {
            identifier,
            content,
        },
    }
}

// The packet at the front of `rest`, which stands at `place`, and what is behind it.
// Form: place and rest are two parameters, since `next_packet` hands on the rest alone.
fn cut(rest: &[u8], place: usize) -> Result<(Packet<'_>, &[u8]), Fault>
    requires { place + length rest.now < 2 ^ 64 }
    ensures { seen_cut result ≡ cut_of place rest.now }
{
    let [high, low, size, after @ ..] = rest else {
        return Err(Reason::HeaderCut.at(place));
    };
    let identifier = u16::from_be_bytes([*high, *low]);
    let size = usize::from(*size);
    let (content, behind) = after
        .split_at_checked(size)
        .ok_or(Reason::ContentCut.at(place + 2))?;
    if !size_fits(identifier, size) {
        return Err(Reason::WrongSize.at(place + 2));
    }
    Ok((packet_of(identifier, content), behind))
}

// Looks at packet by packet from the front. The first stands at `start`.
pub(crate) fn check_packets(content: &[u8], start: usize) -> Result<(), Fault>
    requires { start + length content.now < 2 ^ 64 }
    ensures { seen_done result ≡ done (packets_from (length content.now) start content.now) }
{
    let end = start + content.len();
    let mut rest = content;
    while !rest.is_empty() {
        (_, rest) = cut(rest, end - rest.len())?;
    }
    Ok(())
}

// The packet at the front of `rest`, and what is behind it; none if no packet stands there.
pub fn next_packet(rest: &[u8]) -> Option<(Packet<'_>, &[u8])>
    ensures value { option_map cut_seen result ≡ ok_of (cut_of 0 rest.now) }
    ensures hands { MatchOption result (handed_out rest.now ≡ []) (λ q. (handed_out rest.now ≡ item q.0 ∷ handed_out q.1.now) × (length q.1.now < length rest.now)) }
{
    cut(rest, 0).ok()
}

// The packets that are left.
#[derive(Clone, Copy)]
pub struct Packets<'a> {
    pub(crate) rest: &'a [u8],
}

impl<'a> Iterator for Packets<'a> {
    type Item = Packet<'a>;

    ghost next_gives = { packet_steps };

    ghost remaining = { λ s. at_most (length s.rest.now) };

    fn next(&mut self) -> Option<Packet<'a>> {
        let (packet, behind) = next_packet(self.rest)?;
        self.rest = behind;
        Some(packet)
    }
}
