// A reading at the front of some bytes.
ghost use Rattle.std.specs.Prelude.{◌≡◌, ◌≤◌, length, IfOk};
ghost use Rattle.mti.specs.Precisions.{width_of};
ghost use Rattle.numbers.specs.Putting.{putting, put};
ghost use Rattle.numbers.specs.Meanings.{Meanings};

use crate::reading::Reading;
use mti::Precision;
use xbus::put_number;

#[derive(Clone, Copy, PartialEq, Debug)]
pub enum NumberError {
    OutOfRange,
    NoRoom,
}

// Writes a reading at the front of `out`, and says how many bytes that took.
#[tactic(auto, using(crate::proofs::Fronts::meanings), unfolding(crate::specs::Encoding::encoded))]
pub fn put_real(out: &mut [u8], value: i64, precision: Precision) -> Result<usize, NumberError>
    ensures answer { result ≡ putting (length out.old) precision value }
    ensures bytes { out.new ≡ put result out.old precision value }
    ensures size { IfOk result (λ n. (n ≡ width_of precision) × (n ≤ length out.old)) }
    ensures meaning { Meanings }
{
    let reading = Reading::new(value).ok_or(NumberError::OutOfRange)?;
    let width = precision.width();
    let (front, _) = out.split_at_mut_checked(width).ok_or(NumberError::NoRoom)?;
    put_number(front, reading.code(precision));
    Ok(width)
}
