// One image in fixed memory, which can be written again.
ghost use Rattle.std.specs.Prelude.{◌≡◌, None};
ghost use Rattle.store.specs.Meaning.{ImageOrNone};

use crate::image::hand_out;
use crate::port::{IMAGE, Loaded, Store, StoreError};

#[derive(Drop)]
pub struct Cell {
    kept: Option<[u8; IMAGE]>,
    rating: u32,
    ghost sized: { ImageOrNone kept },
}

impl Cell {
    // An empty cell that takes so many writes.
    pub fn new(rating: u32) -> Cell
        ensures held { ⟦<Cell as Store>⟧.held result ≡ None }
        ensures left { ⟦<Cell as Store>⟧.left result ≡ rating }
    {
        Cell { kept: None, rating }
    }
}

impl Store for Cell {
    ghost held = { λ s. s.kept };

    ghost left = { λ s. s.rating };

    fn load(&mut self, buf: &mut [u8]) -> Result<Loaded, StoreError> {
        hand_out(self.kept.as_ref(), buf)
    }

    fn save(&mut self, image: &[u8]) -> Result<(), StoreError> {
        let image = image.as_array::<IMAGE>().ok_or(StoreError::WrongLength)?;
        let left = self.rating.checked_sub(1).ok_or(StoreError::NoWritesLeft)?;
        self.kept = Some(*image);
        self.rating = left;
        Ok(())
    }

    fn writes_left(&self) -> u64 {
        u64::from(self.rating)
    }
}
