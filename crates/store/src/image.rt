// An image on its way out of a store.
ghost use Rattle.std.specs.Prelude.{◌≡◌, length};
ghost use Rattle.std.specs.Option.{option_copied};
ghost use Rattle.store.specs.Meaning.{load_answer, buffer_after};

use crate::port::{IMAGE, Loaded, StoreError};

// Copies the image that is held, if there is one, into a buffer of its length.
pub(crate) fn hand_out(held: Option<&[u8; IMAGE]>, buf: &mut [u8]) -> Result<Loaded, StoreError>
    ensures answer { result ≡ load_answer (length buf.old) (option_copied held.entry) }
    ensures buffer { buf.new ≡ buffer_after buf.old (option_copied held.entry) }
{
    let buf = buf.as_mut_array().ok_or(StoreError::WrongLength)?;
    let Some(image) = held else {
        return Ok(Loaded::None);
    };
    *buf = *image;
    Ok(Loaded::Held)
}
