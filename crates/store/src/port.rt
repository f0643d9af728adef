// What a store answers and means after each call.
ghost use Rattle.std.specs.Prelude.{◌≡◌, ℕ, List, [], length, Option};
ghost use Rattle.store.specs.Refused.{RefusedSaid};
ghost use Rattle.store.specs.Meaning.{error_number, ImageOrNone, load_answer, buffer_after, save_answer, held_after, left_after, memory_after};

// The bytes of an image.
pub const IMAGE: usize = 140;

#[derive(Clone, Copy, PartialEq, Debug)]
pub enum StoreError {
    // the buffer or the image has not the length of an image
    WrongLength = 6,
    NoWritesLeft = 7,
}

impl StoreError {
    // Also says which call is refused by which number, and in which order.
    #[tactic(auto, using(crate::proofs::Refused::refused_said))]
    pub fn number(&self) -> u8
        ensures value { result ≡ error_number self.now }
        ensures said { RefusedSaid }
    {
        *self as u8
    }
}

// What a load found.
// Form: an enum of its own, since an Option of nothing would not say where the image is.
#[derive(Clone, Copy, PartialEq, Debug)]
pub enum Loaded {
    // an image, which is in the buffer
    Held,
    None,
}

// What keeps an image or none, and takes so many writes more. Each method says that what is held is an image.
pub trait Store {
    // the image, if one is held
    ghost held: { Self → Option (List ℕ) };

    // the writes left
    ghost left: { Self → ℕ };

    // the bytes that it was lent, if any, and what a save that is not refused makes of them
    ghost memory: { Self → List ℕ } = { λ _. [] };

    ghost overwritten: { List ℕ → List ℕ → List ℕ } = { λ _ bytes. bytes };

    // Copies the image, if there is one, into a buffer of its length.
    fn load(&mut self, buf: &mut [u8]) -> Result<Loaded, StoreError>
        ensures answer { result ≡ load_answer (length buf.old) (held self.old) }
        ensures buffer { buf.new ≡ buffer_after buf.old (held self.old) }
        ensures held { held self.new ≡ held self.old }
        ensures left { left self.new ≡ left self.old }
        ensures memory { memory self.new ≡ memory self.old }
        ensures meant { ImageOrNone (held self.old) };

    // Holds the image from now on.
    fn save(&mut self, image: &[u8]) -> Result<(), StoreError>
        ensures answer { result ≡ save_answer (length image.now) (left self.old) }
        ensures held { held self.new ≡ held_after image.now (left self.old) (held self.old) }
        ensures left { left self.new ≡ left_after image.now (left self.old) }
        ensures memory { memory self.new ≡ memory_after overwritten image.now (left self.old) (memory self.old) }
        ensures meant { ImageOrNone (held self.old) };

    fn writes_left(&self) -> u64
        ensures value { result ≡ left self.now }
        ensures meant { ImageOrNone (held self.now) };
}
