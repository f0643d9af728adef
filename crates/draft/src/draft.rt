// A data message that is being composed in the caller's tray.
ghost use Rattle.std.specs.Prelude.{◌≡◌, ℕ, ◌+◌, ◌≤◌, List, [], ◌++◌, length, take, drop, is_ok, if◌then◌else◌, MatchResult};
ghost use Rattle.std.proofs.Math.Seq.{paste};
ghost use Rattle.std.specs.Slice.{IsGetRangeResult};
ghost use Rattle.xbus.specs.Frames.{encoded};
ghost use Rattle.xbus.specs.Writing.{frame_size, content_start};
ghost use Rattle.mtdata2.specs.Packets.{Item, item_of, packet_bytes};
ghost use Rattle.draft.specs.Composed.{asked, grown, sized, judged, counted, answered, closing, Holding, Added, Closed};

use crate::extent::Extent;
use crate::refusal::Refusal;
use mtdata2::{DATA_MESSAGE, size_fits};
use mti::PACKET_HEADER;
use xbus::{DataLen, seal_frame};

// A packet to add: its identifier, and the place and size of its data in the bytes lent with it.
// Form: place and size, and no slice, since a caller is told by a refusal that a record reaches past its bytes.
#[derive(Clone, Copy)]
pub struct Record {
    pub identifier: u16,
    pub place: usize,
    pub size: usize,
}

impl Record {
    // The packet whose data are all of the bytes lent with it.
    pub fn whole(identifier: u16, content: &[u8]) -> Record
        ensures { result ≡ record { identifier = identifier; place = 0; size = length content.now } }
    {
        Record {
            identifier,
            place: 0,
            size: content.len(),
        }
    }
}

// The data that a record names; none if it reaches past its bytes.
fn content_of(source: &[u8], packet: Record) -> Option<&[u8]>
    ensures { IsGetRangeResult source.now packet.place (packet.place + packet.size) result }
{
    source.get(packet.place..)?.get(..packet.size)
}

// The data bytes with one packet more, or why it is refused.
fn judge(have: DataLen, packet: Record) -> Result<DataLen, Refusal>
    ensures { counted result ≡ sized packet.identifier packet.size have.len }
{
    if packet.size > 255 || !size_fits(packet.identifier, packet.size) {
        return Err(Refusal::WrongSize);
    }
    DataLen::new(have.len + (PACKET_HEADER + packet.size)).ok_or(Refusal::TooLong)
}

// Writes a packet: identifier, size and data.
// Form: two parameters, since a pair would be made by one caller only to be taken apart here.
// Form: `as u8`, since `judge` has tested the size, and a size handed on would be the slice's length once more.
fn put_packet(out: &mut [u8], identifier: u16, content: &[u8])
    requires { (length content.now ≤ 255) × (length out.old ≡ 3 + length content.now) }
    ensures { out.new ≡ packet_bytes (item_of identifier content.now) }
{
    out[..2].copy_from_slice(&identifier.to_be_bytes());
    out[2] = content.len() as u8;
    out[PACKET_HEADER..].copy_from_slice(content);
}

// Moves `len` bytes from place `old` to place `new`.
fn shift(frame: &mut [u8], old: usize, new: usize, len: usize)
    requires { (old + len ≤ length frame.old) × (new + len ≤ length frame.old) }
    ensures bytes { frame.new ≡ paste frame.old new (drop old frame.old) len }
    ensures size { length frame.new ≡ length frame.old }
{
    if new != old {
        frame.copy_within(old..old + len, new);
    }
}

// Adds a packet in place to a frame with `have` data bytes, which is as long as the frame with the packet, of `more`.
fn extend_frame(frame: &mut [u8], have: DataLen, more: DataLen, identifier: u16, content: &[u8])
    requires { (length content.now ≤ 255) × ((more.len ≡ grown have.len (length content.now)) × (length frame.old ≡ frame_size more.len)) }
    ensures { frame.new ≡ encoded 0xFF 0x36 (take have.len (drop (content_start have.len) frame.old) ++ packet_bytes (item_of identifier content.now)) }
{
    let old = have.content_start();
    let new = more.content_start();
    shift(frame, old, new, have.len);
    put_packet(
        &mut frame[new + have.len..new + more.len],
        identifier,
        content,
    );
    seal_frame(frame, DATA_MESSAGE).unwrap();
}

// A data message that is being composed. It borrows the fill mark, and not the tray, which is lent to each call.
pub struct Draft<'m> {
    mark: &'m mut usize,
    extent: Extent,
}

impl Drop for Draft<'_> {
    // A draft that is not closed puts the fill mark back.
    fn drop(self)
        ensures { self.exit.0.now ≡ self.entry.extent.start }
    {
        let Draft { mark, extent } = self;
        *mark = extent.start;
    }
}

impl<'m> Draft<'m> {
    // Begins a message at the fill mark, which stays until the first packet.
    pub fn begin(mark: &'m mut usize) -> Draft<'m>
        ensures lends { result.mark.ghost_name ≡ mark.entry.ghost_name }
        ensures stays { result.mark.now ≡ mark.old }
        ensures old { result.extent.start ≡ mark.old }
        ensures none { result.extent.size.len ≡ 0 }
        ensures holds { (tray : List ℕ) → Holding [] tray result }
    {
        let start = *mark;
        let extent = Extent {
            start,
            size: DataLen { len: 0 },
        };
        Draft { mark, extent }
    }

    // Adds a packet behind the others; then the whole frame so far stands in the tray, and the mark behind it.
    pub fn add(&mut self, tray: &mut [u8], source: &[u8], packet: Record) -> Result<(), Refusal>
        ensures says { result ≡ answered (judged (length source.now) packet.identifier packet.place packet.size self.old.extent.start self.old.extent.size.len (length tray.old)) }
        ensures lends { self.new.mark.ghost_name ≡ self.old.mark.ghost_name }
        ensures old { self.new.extent.start ≡ self.old.extent.start }
        ensures does { MatchResult result (λ _. Added self.old self.new tray.old tray.new (asked source.now packet.identifier packet.place packet.size)) (λ _. (self.new ≡ self.old) × (tray.new ≡ tray.old)) }
    {
        let Extent { start, size: have } = self.extent;
        let content = content_of(source, packet).ok_or(Refusal::PastBytes)?;
        let grown = judge(have, packet)?;
        let size = grown.frame_size();
        let (_, behind) = tray.split_at_mut_checked(start).ok_or(Refusal::NoRoom)?;
        let (frame, _) = behind.split_at_mut_checked(size).ok_or(Refusal::NoRoom)?;
        extend_frame(frame, have, grown, packet.identifier, content);
        self.extent.size = grown;
        *self.mark = start + size;
        Ok(())
    }

    // Ends the message. Nothing is written: the frame stands in the tray. Without a packet the mark is put back.
    pub fn close(self) -> Result<(), Refusal>
        ensures says { result ≡ closing self.entry.extent.size.len }
        ensures mark { self.exit.0.now ≡ (if is_ok result then self.entry.mark.now else self.entry.extent.start) }
        ensures reads { (items : List Item) (tray : List ℕ) → Holding items tray self.entry → Closed items tray self.entry result }
    {
        if self.extent.size.len == 0 {
            return Err(Refusal::NoPacket);
        }
        let Draft { mark: _, extent: _ } = self;
        Ok(())
    }
}
