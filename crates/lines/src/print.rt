// Bytes printed as text.
ghost use Rattle.std.specs.Prelude.{◌≡◌, ◌∷◌, ◌++◌, is_ok, if◌then◌else◌, string_bytes, MatchResult};
ghost use Rattle.lines.specs.Bytes.{digits_of, printed, ReadsBack, CommandReadsBack};
ghost use Rattle.lines.specs.Prints.{PrintedFront};

use crate::hex::digits;
use std::alloc::AllocError;
use std::str;

// Appends a space and the two digits of a byte, or nothing.
// Form: the text is made first, since write! says nothing of what it appended where memory ran out.
fn push_byte(out: &mut String, byte: u8) -> Result<(), AllocError>
    ensures { string_bytes out.new ≡ (if is_ok result then string_bytes out.old ++ (32 ∷ digits_of byte) else string_bytes out.old) }
{
    let [high, low] = digits(byte);
    out.push_str(str::from_utf8(&[b' ', high, low]).unwrap())
}

// Appends a space and the two digits of each byte. Where memory runs out, the first bytes are appended.
pub fn push_bytes(out: &mut String, bytes: &[u8]) -> Result<(), AllocError>
    ensures value { MatchResult result (λ _. string_bytes out.new ≡ string_bytes out.old ++ printed bytes.now) (λ _. PrintedFront (string_bytes out.old) bytes.now (string_bytes out.new)) }
    ensures back { ReadsBack }
    ensures command { CommandReadsBack }
{
    for byte in bytes {
        push_byte(out, *byte)?;
    }
    Ok(())
}
