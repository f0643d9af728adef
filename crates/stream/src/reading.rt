// Reading a recording: the frames that reading takes, the bytes that it drops, and what is left.
ghost use Rattle.std.specs.Prelude.{◌≡◌, ◌<◌, [], ◌++◌, length, MatchOption};
ghost use Rattle.std.specs.Option.{option_map};
ghost use Rattle.stream.specs.Reading.{read_of, ReadingSaid, FramesAreRead, shown, seen_next, next_of, piece_steps};
ghost use Rattle.std.specs.Iterator.{at_most};

use crate::settling::settle;

// A part of a recording.
#[derive(Clone, Copy, Debug, PartialEq)]
pub enum Piece<'a> {
    // a frame that reading takes
    Frame(&'a [u8]),
    // bytes that it drops, one behind the other
    Dropped(&'a [u8]),
    // what waits at the end
    Left(&'a [u8]),
}

// The first piece of the bytes, and the bytes behind it.
pub fn next_piece(bytes: &[u8]) -> Option<(Piece<'_>, &[u8])>
    ensures value { option_map seen_next result ≡ next_of bytes.now }
    ensures hands { MatchOption result (read_of bytes.now ≡ []) (λ q. (read_of bytes.now ≡ shown q.0 ++ read_of q.1.now) × (length q.1.now < length bytes.now)) }
    ensures said { ReadingSaid bytes.now }
    ensures frames { FramesAreRead }
{
    let found = settle(bytes);
    if found.dropped > 0 {
        let (dropped, behind) = bytes.split_at(found.dropped);
        return Some((Piece::Dropped(dropped), behind));
    }
    if let Some(size) = found.whole {
        let (frame, behind) = bytes.split_at(size);
        return Some((Piece::Frame(frame), behind));
    }
    if bytes.is_empty() {
        return None;
    }
    let (left, behind) = bytes.split_at(bytes.len());
    Some((Piece::Left(left), behind))
}

// The pieces of a recording, in order.
// Form: one iterator for each item, here, in mtdata2 and in lines: a shared one would need a trait for cuts and their laws.
#[derive(Clone, Copy)]
pub struct Pieces<'a> {
    rest: &'a [u8],
}

pub fn read_recording(recording: &[u8]) -> Pieces<'_>
    ensures { result.rest.now ≡ recording.now }
{
    Pieces { rest: recording }
}

impl<'a> Iterator for Pieces<'a> {
    type Item = Piece<'a>;

    ghost next_gives = { piece_steps };

    ghost remaining = { λ s. at_most (length s.rest.now) };

    fn next(&mut self) -> Option<Piece<'a>> {
        let (piece, behind) = next_piece(self.rest)?;
        self.rest = behind;
        Some(piece)
    }
}
