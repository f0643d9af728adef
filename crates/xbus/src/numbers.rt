// Whole numbers as bytes, the highest first, at any width.
ghost use Rattle.std.specs.Prelude.{◌≡◌, ◌%◌, ◌^◌, length};
ghost use Rattle.xbus.specs.Numbers.{be, number_of, NumbersInverse};

// The number that the bytes stand for, modulo 2^64.
pub fn number(bytes: &[u8]) -> u64
    ensures value { result ≡ number_of bytes.now % 2 ^ 64 }
    ensures inverse { NumbersInverse }
{
    let mut n = 0u64;
    for byte in bytes {
        n = n.wrapping_mul(256).wrapping_add(u64::from(*byte));
    }
    n
}

// The same as `put_number`, byte by byte: the lowest first, and then the other way round.
// Cold, since numbers are sent in other widths: without it `put_number` is short enough to be inlined.
#[cold]
fn put_bytewise(out: &mut [u8], value: u64)
    ensures { out.new ≡ be (length out.old) value }
{
    let mut rest = value;
    for byte in out.iter_mut() {
        *byte = (rest % 256) as u8;
        rest /= 256;
    }
    out.reverse();
}

// Fills `out` with the lowest bytes of a number: at once in the widths in which numbers are sent.
pub fn put_number(out: &mut [u8], value: u64)
    ensures { out.new ≡ be (length out.old) value }
{
    let bytes = value.to_be_bytes();
    match out.len() {
        8 => out.copy_from_slice(&bytes),
        6 => out.copy_from_slice(&bytes[2..]),
        4 => out.copy_from_slice(&bytes[4..]),
        2 => out.copy_from_slice(&bytes[6..]),
        1 => out.copy_from_slice(&bytes[7..]),
        _ => put_bytewise(out, value),
    }
}
