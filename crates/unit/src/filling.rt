// Bytes that are taken until a whole frame waits.
ghost use Rattle.std.specs.Prelude.{◌≡◌};
ghost use Rattle.stream.specs.Waiting.{held};
ghost use Rattle.session.specs.Filling.{fills, filled};

use stream::Waiting;

// Takes bytes until a whole frame waits, and says how many.
pub(crate) fn fill(waiting: &mut Waiting, bytes: &[u8]) -> usize
    ensures count { result ≡ fills (held waiting.old) bytes.now }
    ensures after { held waiting.new ≡ filled (held waiting.old) bytes.now }
{
    for (taken, byte) in bytes.iter().enumerate() {
        if waiting.take_byte(*byte).is_err() {
            return taken;
        }
    }
    bytes.len()
}
