// A store over lent memory, which is cut into slots that are each written once.
ghost use Rattle.std.specs.Prelude.{◌≡◌, length};
ghost use Rattle.std.specs.Option.{option_copied};
ghost use Rattle.store.specs.Meaning.{ImageOrNone, load_answer, buffer_after, save_answer, held_after, left_after};
ghost use Rattle.store.specs.Slots.{used, held_in, left_in, saved, bytes_after, rest, UsedSaid};

use crate::image::hand_out;
use crate::port::{IMAGE, Loaded, Store, StoreError};
use crate::slots::{held_image, left_in, save_to, used_slots};

#[derive(Drop)]
pub struct Page<'a> {
    bytes: &'a mut [u8],
}

impl<'a> Page<'a> {
    // The page over memory of any length and content.
    pub fn over(bytes: &'a mut [u8]) -> Page<'a>
        ensures bytes { result.bytes.now ≡ bytes.old }
        ensures lent { result.bytes.ghost_name ≡ bytes.entry.ghost_name }
    {
        Page { bytes }
    }

    // The longest run of slots from the front whose mark is 00.
    pub fn used(&self) -> usize
        ensures value { result ≡ used self.now.bytes.now }
        ensures said { UsedSaid self.now.bytes.now }
    {
        used_slots(self.bytes)
    }

    // The memory that was lent.
    pub fn into_bytes(self) -> &'a mut [u8]
        ensures bytes { result.now ≡ self.entry.bytes.now }
        ensures lent { result.ghost_name ≡ self.entry.bytes.ghost_name }
    {
        let Page { bytes } = self;
        bytes
    }

    fn held_image(&self) -> Option<&[u8; IMAGE]>
        ensures { option_copied result ≡ held_in self.now.bytes.now }
    {
        held_image(self.bytes)
    }
}

impl Store for Page<'_> {
    ghost held = { λ s. held_in s.bytes.now };

    ghost left = { λ s. left_in s.bytes.now };

    ghost memory = { λ s. s.bytes.now };

    ghost overwritten = { saved };

    #[tactic(auto, using(crate::proofs::Held::image_or_none_in))]
    fn load(&mut self, buf: &mut [u8]) -> Result<Loaded, StoreError>
        ensures answer { result ≡ load_answer (length buf.old) (held_in self.old.bytes.now) }
        ensures buffer { buf.new ≡ buffer_after buf.old (held_in self.old.bytes.now) }
        ensures held { held_in self.new.bytes.now ≡ held_in self.old.bytes.now }
        ensures left { left_in self.new.bytes.now ≡ left_in self.old.bytes.now }
        ensures memory { self.new.bytes.now ≡ self.old.bytes.now }
        ensures meant { ImageOrNone (held_in self.old.bytes.now) }
        ensures lent { self.new.bytes.ghost_name ≡ self.old.bytes.ghost_name }
    {
        hand_out(self.held_image(), buf)
    }

    #[tactic(auto, using(crate::proofs::Held::image_or_none_in))]
    fn save(&mut self, image: &[u8]) -> Result<(), StoreError>
        ensures answer { result ≡ save_answer (length image.now) (left_in self.old.bytes.now) }
        ensures held { held_in self.new.bytes.now ≡ held_after image.now (left_in self.old.bytes.now) (held_in self.old.bytes.now) }
        ensures left { left_in self.new.bytes.now ≡ left_after image.now (left_in self.old.bytes.now) }
        ensures memory { self.new.bytes.now ≡ bytes_after image.now self.old.bytes.now }
        ensures meant { ImageOrNone (held_in self.old.bytes.now) }
        ensures rest { rest self.new.bytes.now ≡ rest self.old.bytes.now }
        ensures lent { self.new.bytes.ghost_name ≡ self.old.bytes.ghost_name }
    {
        save_to(self.bytes, image)
    }

    #[tactic(auto, using(crate::proofs::Held::image_or_none_in))]
    fn writes_left(&self) -> u64
        ensures value { result ≡ left_in self.now.bytes.now }
        ensures meant { ImageOrNone (held_in self.now.bytes.now) }
    {
        left_in(self.bytes) as u64
    }
}
