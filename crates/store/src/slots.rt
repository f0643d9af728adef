// Memory that is cut into slots: a mark byte and an image.
ghost use Rattle.std.specs.Prelude.{◌≡◌, ◌<◌, ◌≤◌, length};
ghost use Rattle.std.specs.Option.{option_copied};
ghost use Rattle.store.specs.Meaning.{save_answer, held_after, left_after};
ghost use Rattle.store.specs.Slots.{slots, slots_of, used, held_in, left_in, end_marked, filled, bytes_after, rest, UsedSaid};

use crate::port::{IMAGE, StoreError};

// The bytes of a slot.
const SLOT: usize = IMAGE + 1;

const USED: u8 = 0x00;

const UNUSED: u8 = 0xFF;

// The slots, without the bytes that are in none.
fn slots_of(bytes: &[u8]) -> &[[u8; SLOT]]
    ensures cut { result.now ≡ slots_of bytes.now }
    ensures count { length result.now ≡ slots bytes.now }
{
    bytes.as_chunks().0
}

pub(crate) fn used_slots(bytes: &[u8]) -> usize
    ensures value { result ≡ used bytes.now }
    ensures within { result ≤ slots bytes.now }
    ensures said { UsedSaid bytes.now }
{
    slots_of(bytes)
        .iter()
        .take_while(|slot| slot[0] == USED)
        .count()
}

pub(crate) fn left_in(bytes: &[u8]) -> usize
    ensures { result ≡ left_in bytes.now }
{
    slots_of(bytes).len() - used_slots(bytes)
}

// The image of the last used slot.
pub(crate) fn held_image(bytes: &[u8]) -> Option<&[u8; IMAGE]>
    ensures { option_copied result ≡ held_in bytes.now }
{
    let slot = slots_of(bytes)[..used_slots(bytes)].last()?;
    slot.last_chunk()
}

// Marks slot `j` as not used, if there is such a slot.
// Form: places are computed, here and in `fill`, since the library does not say what the memory ends as where its slots are lent.
fn put_end_mark(bytes: &mut [u8], j: usize)
    ensures { bytes.new ≡ end_marked bytes.old j }
{
    if j < slots_of(bytes).len() {
        bytes[SLOT * j] = UNUSED;
    }
}

// Writes an image to slot `k`, and then its mark.
fn fill(bytes: &mut [u8], k: usize, image: &[u8; IMAGE])
    requires { k < slots bytes.old }
    ensures { bytes.new ≡ filled bytes.old k image.now }
{
    let at = SLOT * k;
    bytes[at + 1..at + SLOT].copy_from_slice(image);
    bytes[at] = USED;
}

pub(crate) fn save_to(bytes: &mut [u8], image: &[u8]) -> Result<(), StoreError>
    ensures answer { result ≡ save_answer (length image.now) (left_in bytes.old) }
    ensures held { held_in bytes.new ≡ held_after image.now (left_in bytes.old) (held_in bytes.old) }
    ensures left { left_in bytes.new ≡ left_after image.now (left_in bytes.old) }
    ensures bytes { bytes.new ≡ bytes_after image.now bytes.old }
    ensures rest { rest bytes.new ≡ rest bytes.old }
{
    let image = image.as_array::<IMAGE>().ok_or(StoreError::WrongLength)?;
    let used = used_slots(bytes);
    if used == slots_of(bytes).len() {
        return Err(StoreError::NoWritesLeft);
    }
    put_end_mark(bytes, used + 1);
    fill(bytes, used, image);
    Ok(())
}
