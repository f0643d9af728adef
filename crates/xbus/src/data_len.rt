// How many data bytes a frame has.
ghost use Rattle.std.specs.Prelude.{◌≡◌, ◌≤◌};

use crate::front::{LONGEST, MOST_DATA};

// A number of data bytes that a frame may have.
#[derive(Clone, Copy, Debug, PartialEq)]
pub struct DataLen {
    pub len: usize,
    pub ghost most: { len ≤ 2048 },
}

impl DataLen {
    ghost use Rattle.std.specs.Option.{option_map};
    ghost use Rattle.xbus.specs.Writing.{frame_size, content_start, content_size, allowed, count};

    // The number, if a frame may have so many data bytes.
    pub fn new(len: usize) -> Option<DataLen>
        ensures { option_map count result ≡ allowed len }
    {
        // Form: an `if`, since a closure for `then` would state the test again, as a `requires` for the ghost field.
        if len <= MOST_DATA {
            Some(DataLen { len })
        } else {
            None
        }
    }

    // How many data bytes a frame of `size` bytes has; none if no frame has so many bytes.
    pub fn of_frame(size: usize) -> Option<DataLen>
        ensures { option_map count result ≡ content_size size }
    {
        match size {
            5..=259 => Some(DataLen { len: size - 5 }),
            262..=LONGEST => Some(DataLen { len: size - 7 }),
            _ => None,
        }
    }

    // The bytes of the frame.
    pub fn frame_size(self) -> usize
        ensures { result ≡ frame_size self.len }
    {
        let len = self.len;
        if len < 255 { len + 5 } else { len + 7 }
    }

    // Where the data start in the frame.
    pub fn content_start(self) -> usize
        ensures { result ≡ content_start self.len }
    {
        if self.len < 255 { 4 } else { 6 }
    }
}
