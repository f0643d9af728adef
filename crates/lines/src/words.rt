// A line read word by word.
ghost use Rattle.std.specs.Prelude.{◌≡◌, ◌==◌, not, [], ◌∷◌, length, position, Some, MatchOption, MatchResult};
ghost use Rattle.std.specs.Option.{option_map};
ghost use Rattle.std.specs.Iterator.{at_most};
ghost use Rattle.std.specs.List.{AllByRecursion};
ghost use Rattle.lines.specs.Bytes.{bytes_of};
ghost use Rattle.lines.specs.Faults.{Faulty, fault_text};
ghost use Rattle.lines.specs.declared.words.LineFault.TheVariants.{Memory};
ghost use Rattle.lines.specs.Cuts.{seen};
ghost use Rattle.lines.specs.Words.{next_word, words_of, WordOf, word_steps};

use crate::cut::cut;
use crate::hex::byte_of;
use std::alloc::{AllocError, AllocFailed, Global};
use std::error::Error;
use std::fmt;

const SPACE: u8 = b' ';

// Why the bytes of a line cannot be read.
#[derive(Clone, Copy, Debug, PartialEq, Eq)]
pub enum LineFault {
    // a word is not a pair of hexadecimal digits
    NotAByte,
    // there is no memory for the bytes
    Memory,
}

impl fmt::Display for LineFault {
    ghost output = { λ fault. Some (fault_text fault) };

    fn fmt<W: fmt::Write>(&self, f: &mut fmt::Formatter<W>) -> fmt::Result {
        f.write_str(match self {
            LineFault::NotAByte => "not a byte",
            LineFault::Memory => "no memory",
        })
    }
}

impl Error for LineFault {}

// Form: one From for each of the two errors of memory, since both were public, and a caller's `?` may meet either.
impl From<AllocError> for LineFault {
    ghost from_gives = { λ _ r. r ≡ Memory };

    fn from(_e: AllocError) -> LineFault {
        LineFault::Memory
    }
}

impl<T: Drop> From<AllocFailed<T>> for LineFault {
    ghost from_gives = { λ _ r. r ≡ Memory };

    fn from(_e: AllocFailed<T>) -> LineFault {
        LineFault::Memory
    }
}

// The place of the first byte that is no space.
fn word_start(line: &[u8]) -> Option<usize>
    ensures { result ≡ position (λ b. not (b == 32)) line.now }
{
    line.iter().position(|b| *b != SPACE)
}

// The first word of a line, and the line behind it.
pub fn next_word(line: &[u8]) -> Option<(&[u8], &[u8])>
    ensures value { option_map seen result ≡ next_word line.now }
    ensures parts { MatchOption result (AllByRecursion (λ x. x ≡ 32) line.now) (λ q. WordOf line.now q.0.now q.1.now) }
    ensures words { MatchOption result (words_of line.now ≡ []) (λ q. words_of line.now ≡ q.0.now ∷ words_of q.1.now) }
{
    let start = word_start(line)?;
    Some(cut(&line[start..], SPACE))
}

// The words of a line, in order.
#[derive(Clone, Copy)]
pub struct Words<'a> {
    rest: &'a [u8],
}

pub fn words_in(line: &[u8]) -> Words<'_>
    ensures { result.rest.now ≡ line.now }
{
    Words { rest: line }
}

impl<'a> Iterator for Words<'a> {
    type Item = &'a [u8];

    ghost next_gives = { word_steps };

    ghost remaining = { λ s. at_most (length s.rest.now) };

    fn next(&mut self) -> Option<&'a [u8]> {
        let (word, rest) = next_word(self.rest)?;
        self.rest = rest;
        Some(word)
    }
}

// The bytes that the words of a line stand for.
pub fn bytes_of(heap: Global, line: &[u8]) -> Result<Vec<u8>, LineFault>
    ensures { MatchResult result (λ v. bytes_of line.now ≡ Some v.items) (λ e. Faulty e line.now) }
{
    let mut bytes = Vec::new(heap);
    for word in words_in(line) {
        bytes.push(byte_of(word).ok_or(LineFault::NotAByte)?)?;
    }
    Ok(bytes)
}
