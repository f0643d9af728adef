// The bytes that wait to be read: taking one, looking at the frame at the front, passing it.
ghost use Rattle.std.specs.Prelude.{◌≡◌, ◌-◌, ◌≤◌, [], ◌∷◌, ◌++◌, length, take, drop, None};
ghost use Rattle.std.proofs.Math.Seq.{paste};
ghost use Rattle.std.specs.Option.{option_map};
ghost use Rattle.xbus.specs.Parts.{first_parts, seen};
ghost use Rattle.stream.specs.Settling.{settled};
ghost use Rattle.stream.specs.Waiting.{held, taking, took, passed};

use crate::buffer::Waiting;
use crate::settling::settle;
use crate::until::waits_until;
use xbus::{Frame, LONGEST, START, split_frame};

// A whole frame waits, and no byte is taken before it is passed.
#[derive(Clone, Copy, Debug, PartialEq)]
pub struct FrameWaits;

// Moves the bytes from `start` to `end` to the front.
fn move_to_front(bytes: &mut [u8; LONGEST], start: usize, end: usize)
    requires { (start ≤ end) × (end ≤ length bytes.old) }
    ensures bytes { bytes.new ≡ paste bytes.old 0 (drop start bytes.old) (end - start) }
    ensures size { length bytes.new ≡ length bytes.old }
{
    if start > 0 {
        bytes.copy_within(start..end, 0);
    }
}

impl Waiting {
    pub fn new() -> Waiting
        ensures { held result ≡ [] }
    {
        Waiting {
            bytes: [0u8; LONGEST],
            len: 0,
            whole: None,
            until: 0,
        }
    }

    // The bytes that wait.
    pub fn bytes(&self) -> &[u8]
        ensures value { result.now ≡ held self.now }
        ensures bound { length result.now ≤ 2055 }
    {
        &self.bytes[0..self.len]
    }

    // Keeps what is settled of the bytes from `from` to `end`, and moves it to the front once.
    // Out of line: it is long, and most bytes are taken without it.
    #[inline(never)]
    fn keep(&mut self, from: usize, end: usize)
        requires { (from ≤ end) × (end ≤ 2055) }
        ensures { held self.new ≡ settled (drop from (take end self.old.bytes)) }
    {
        let found = settle(&self.bytes[from..end]);
        let start = from + found.dropped;
        move_to_front(&mut self.bytes, start, end);
        self.len = end - start;
        self.whole = found.whole;
        self.until = waits_until(&self.bytes[..end - start]);
    }

    // Puts a byte behind the others and settles.
    fn push(&mut self, byte: u8)
        requires { self.old.whole ≡ None }
        ensures { held self.new ≡ settled (held self.old ++ (byte ∷ [])) }
    {
        self.bytes[self.len] = byte;
        self.keep(0, self.len + 1);
    }

    // Takes one byte more and settles, unless a whole frame waits.
    pub fn take_byte(&mut self, byte: u8) -> Result<(), FrameWaits>
        ensures value { result ≡ taking (held self.old) }
        ensures after { held self.new ≡ took (held self.old) byte }
    {
        // While too few are there, no whole frame waits, and nothing is to be settled.
        let end = self.len + 1;
        if end < self.until {
            self.bytes[self.len] = byte;
            self.len = end;
            return Ok(());
        }
        if self.whole.is_some() {
            return Err(FrameWaits);
        }
        // Where nothing waits, only FA is kept.
        if self.len > 0 || byte == START {
            self.push(byte);
        }
        Ok(())
    }

    // The whole frame at the front.
    pub fn frame(&self) -> Option<Frame<'_>>
        ensures { option_map seen result ≡ first_parts (held self.now) }
    {
        match self.whole {
            Some(size) => split_frame(&self.bytes[0..size]),
            None => None,
        }
    }

    // Passes the whole frame at the front and settles.
    pub fn pass(&mut self)
        ensures { held self.new ≡ passed (held self.old) }
    {
        if let Some(size) = self.whole {
            let end = self.len;
            self.keep(size, end);
        }
    }
}
