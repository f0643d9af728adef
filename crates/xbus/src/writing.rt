// Writing a frame at a place of a tray.
ghost use Rattle.std.specs.Prelude.{◌≡◌, ◌≤◌, ◌∷◌, length, take, drop};
ghost use Rattle.xbus.specs.Frames.{header_of, encoded};
ghost use Rattle.xbus.specs.Parts.{seen, frame_of};
ghost use Rattle.xbus.specs.Writing.{frame_size, content_start, content_size, sealed_by, writing, written, ReadsBack};

use crate::data_len::DataLen;
use crate::front::{EXTENDED, START, sum};
use crate::numbers::put_number;
use crate::parts::{Frame, Header};

#[derive(Clone, Copy, Debug, PartialEq)]
pub enum WriteError {
    // more than 2,048 data bytes
    TooLong,
    // the frame would reach past the tray's end
    NoRoom,
}

// Writes FA, the address, the identifier and the length in front of the place of the data.
fn write_header(out: &mut [u8], header: Header, len: DataLen)
    requires { content_start len.len ≤ length out.old }
    ensures bytes { take (content_start len.len) out.new ≡ 0xFA ∷ header_of header.address header.identifier len.len }
    ensures rest { drop (content_start len.len) out.new ≡ drop (content_start len.len) out.old }
{
    out[0] = START;
    out[1] = header.address;
    out[2] = header.identifier;
    if len.len < 255 {
        out[3] = len.len as u8;
    } else {
        out[3] = EXTENDED;
        put_number(&mut out[4..6], len.len as u64);
    }
}

// Writes header and checksum around `len` data bytes that stand in their place.
fn seal(frame: &mut [u8], header: Header, len: DataLen)
    requires { length frame.old ≡ frame_size len.len }
    ensures { frame.new ≡ encoded header.address header.identifier (take len.len (drop (content_start len.len) frame.old)) }
{
    write_header(frame, header, len);
    let end = len.content_start() + len.len;
    frame[end] = 0u8.wrapping_sub(sum(&frame[1..end]));
}

// Writes header and checksum of a frame whose data stand in their place, and says how many these are;
// none, and nothing is written, if no frame has so many bytes.
pub fn seal_frame(frame: &mut [u8], header: Header) -> Option<usize>
    ensures value { result ≡ content_size (length frame.old) }
    ensures bytes { frame.new ≡ sealed_by result header.address header.identifier frame.old }
{
    let len = DataLen::of_frame(frame.len())?;
    seal(frame, header, len);
    Some(len.len)
}

// Fills `out`, which is as long as the frame.
fn fill_frame(out: &mut [u8], frame: Frame<'_>, len: DataLen)
    requires { (len.len ≡ length frame.content.now) × (length out.old ≡ frame_size len.len) }
    ensures { out.new ≡ frame_of (seen frame.entry) }
{
    let start = len.content_start();
    out[start..start + len.len].copy_from_slice(frame.content);
    seal(out, frame.header, len);
}

// Writes a frame at a place of the tray, and says how many bytes it has.
#[tactic(auto, using(crate::proofs::Splits::reads_back))]
pub fn write_frame(tray: &mut [u8], at: usize, frame: Frame<'_>) -> Result<usize, WriteError>
    ensures value { result ≡ writing (length tray.old) at (length frame.entry.content.now) }
    ensures bytes { tray.new ≡ written result tray.old at (seen frame.entry) }
    ensures back { ReadsBack }
{
    let len = DataLen::new(frame.content.len()).ok_or(WriteError::TooLong)?;
    let size = len.frame_size();
    let (_, behind) = tray.split_at_mut_checked(at).ok_or(WriteError::NoRoom)?;
    let (out, _) = behind.split_at_mut_checked(size).ok_or(WriteError::NoRoom)?;
    fill_frame(out, frame, len);
    Ok(size)
}
