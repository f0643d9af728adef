// The buffer of bytes that wait to be read. A whole frame stands at its front, or the rest waits for more.
ghost use Rattle.std.specs.Prelude.{◌≡◌, ◌+◌, ◌<◌, ◌≤◌, ℕ, true, List, ◌++◌, length, take, None};
ghost use Rattle.xbus.specs.Front.{front_of};
ghost use Rattle.stream.specs.Settling.{is_front_by};

use xbus::LONGEST;

#[derive(Drop)]
pub struct Waiting {
    pub(crate) bytes: [u8; LONGEST],
    pub(crate) len: usize,
    // the size of the whole frame at the front
    pub(crate) whole: Option<usize>,
    // with fewer bytes than these the rest waits, whatever comes
    pub(crate) until: usize,
    ghost size: { length bytes ≡ 2055 },
    ghost fits: { len ≤ 2055 },
    ghost front: { is_front_by (front_of (take len bytes)) whole ≡ true },
    ghost waits: { (ys : List ℕ) → len + length ys < until → is_front_by (front_of (take len bytes ++ ys)) None ≡ true },
}
