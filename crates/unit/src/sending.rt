// The frames that a unit writes, one behind the other, at the front of a tray.
ghost use Rattle.std.specs.Prelude.{◌≡◌, ℕ, ◌≤◌, List, ◌++◌, length};
ghost use Rattle.xbus.specs.Frames.{encoded};
ghost use Rattle.xbus.specs.Parts.{seen};
ghost use Rattle.session.specs.Sending.{reply, error};
ghost use Rattle.unit.specs.Steps.{Sent};

use xbus::{Frame, Header, LONGEST, write_frame};

// What a call can write to: room for the longest frame.
pub(crate) type Tray = [u8; LONGEST];

// The address of what is sent unasked.
const UNASKED: u8 = 0xFF;

const ERROR: u8 = 0x42;

pub(crate) const WAKE_UP: Header = Header {
    address: UNASKED,
    identifier: 0x3E,
};

pub(crate) const CONFIGURATION: Header = Header {
    address: UNASKED,
    identifier: 0x0D,
};

// Writes a frame behind the first `at` bytes, and says where it ends.
pub(crate) fn send(tray: &mut Tray, at: usize, header: Header, content: &[u8]) -> usize
    requires { (at ≤ 1000) × (length content.now ≤ 1000) }
    ensures { (xs : List ℕ) → Sent xs at tray.old → Sent (xs ++ encoded header.address header.identifier content.now) result tray.new }
{
    at + write_frame(tray, at, Frame { header, content }).unwrap()
}

// Writes the reply to a request: its address, and its identifier and 1.
pub(crate) fn reply(tray: &mut Tray, request: Frame<'_>, content: &[u8]) -> usize
    requires { length content.now ≤ 1000 }
    ensures { Sent (reply (seen request.entry) content.now) result tray.new }
{
    let header = Header {
        identifier: request.header.identifier.wrapping_add(1),
        ..request.header
    };
    send(tray, 0, header, content)
}

// Writes an Error in place of the reply.
pub(crate) fn refuse(tray: &mut Tray, request: Frame<'_>, content: &[u8]) -> usize
    requires { length content.now ≤ 1000 }
    ensures { Sent (error (seen request.entry) content.now) result tray.new }
{
    let header = Header {
        identifier: ERROR,
        ..request.header
    };
    send(tray, 0, header, content)
}
