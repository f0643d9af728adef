// The words behind the first one of a line.
ghost use Rattle.std.specs.Prelude.{◌≡◌, Ok, Err, Some, MatchOption, MatchResult};
ghost use Rattle.std.specs.Option.{ok_or, option_map, option_and_then};
ghost use Rattle.lines.specs.Bytes.{byte_of, bytes_of};
ghost use Rattle.lines.specs.Decimals.{decimal_of};
ghost use Rattle.lines.specs.Words.{next_word, words_of};
ghost use Rattle.commands.specs.Numbers.{only, identifier_of, device_id_of, integer_of};
ghost use Rattle.commands.specs.Faults.{Erring};
ghost use Rattle.commands.specs.Arguments.{first_by, behind_first, number_of};
ghost use Rattle.commands.specs.declared.fault.Misread.TheVariants.{NotANumber, NotAByte, NotAnIdentifier, TooManyWords};

use crate::fault::{LineError, Misread};
use crate::words::{device_id_of, identifier_of, integer_of, only_word};
use lines::{byte_of, bytes_of, decimal_of, next_word};
use std::alloc::Global;

// The number below 2^64 that is the only word of a line.
pub fn only_number(line: &[u8]) -> Result<u64, Misread>
    ensures { result ≡ ok_or (option_and_then decimal_of (only (words_of line.now))) NotANumber }
{
    only_word(line)
        .and_then(|word| decimal_of(word))
        .ok_or(Misread::NotANumber)
}

// The number below 2^32 that is the only word of a line.
pub fn only_number32(line: &[u8]) -> Result<u32, Misread>
    ensures { result ≡ ok_or (option_and_then (number_of 0xFFFF_FFFF) (only (words_of line.now))) NotANumber }
{
    u32::try_from(only_number(line)?).map_err(|_| Misread::NotANumber)
}

// The words of a line that are not read yet.
#[derive(Clone, Copy)]
pub struct Arguments<'a> {
    rest: &'a [u8],
}

impl<'a> Arguments<'a> {
    pub fn of(line: &'a [u8]) -> Arguments<'a>
        ensures { result.rest.now ≡ line.now }
    {
        Arguments { rest: line }
    }

    // The next word.
    pub fn word(&mut self) -> Option<&'a [u8]>
        ensures word { option_map (λ word. word.now) result ≡ first_by (λ word. Some word) self.old.rest.now }
        ensures rest { self.new.rest.now ≡ behind_first self.old.rest.now }
    {
        let (word, rest) = next_word(self.rest)?;
        self.rest = rest;
        Some(word)
    }

    // A number of at most `most`.
    pub fn number(&mut self, most: u64) -> Result<u64, Misread>
        ensures value { result ≡ ok_or (first_by (number_of most) self.old.rest.now) NotANumber }
        ensures rest { self.new.rest.now ≡ behind_first self.old.rest.now }
    {
        self.word()
            .and_then(|word| decimal_of(word))
            .filter(|number| *number <= most)
            .ok_or(Misread::NotANumber)
    }

    // A number below 2^32.
    pub fn number32(&mut self) -> Result<u32, Misread>
        ensures value { result ≡ ok_or (first_by (number_of 0xFFFF_FFFF) self.old.rest.now) NotANumber }
        ensures rest { self.new.rest.now ≡ behind_first self.old.rest.now }
    {
        Ok(self.number(u64::from(u32::MAX))? as u32)
    }

    // A whole number with a sign or without.
    pub fn integer(&mut self) -> Result<i64, Misread>
        ensures value { result ≡ ok_or (first_by integer_of self.old.rest.now) NotANumber }
        ensures rest { self.new.rest.now ≡ behind_first self.old.rest.now }
    {
        self.word().and_then(integer_of).ok_or(Misread::NotANumber)
    }

    pub fn byte(&mut self) -> Result<u8, Misread>
        ensures value { result ≡ ok_or (first_by byte_of self.old.rest.now) NotAByte }
        ensures rest { self.new.rest.now ≡ behind_first self.old.rest.now }
    {
        self.word()
            .and_then(|word| byte_of(word))
            .ok_or(Misread::NotAByte)
    }

    // Four hexadecimal digits.
    pub fn identifier(&mut self) -> Result<u16, Misread>
        ensures value { result ≡ ok_or (first_by identifier_of self.old.rest.now) NotAnIdentifier }
        ensures rest { self.new.rest.now ≡ behind_first self.old.rest.now }
    {
        self.word()
            .and_then(identifier_of)
            .ok_or(Misread::NotAnIdentifier)
    }

    // Eight hexadecimal digits.
    pub fn device_id(&mut self) -> Result<u32, Misread>
        ensures value { result ≡ ok_or (first_by device_id_of self.old.rest.now) NotAnIdentifier }
        ensures rest { self.new.rest.now ≡ behind_first self.old.rest.now }
    {
        self.word()
            .and_then(device_id_of)
            .ok_or(Misread::NotAnIdentifier)
    }

    // The bytes that all other words stand for.
    pub fn bytes(self, heap: Global) -> Result<Vec<u8>, LineError>
        ensures { MatchResult result (λ bytes. bytes_of self.entry.rest.now ≡ Some bytes.items) (λ error. Erring error self.entry.rest.now) }
    {
        Ok(bytes_of(heap, self.rest)?)
    }

    // No word is left.
    pub fn end(self) -> Result<(), Misread>
        ensures { MatchOption (next_word self.entry.rest.now) (result ≡ Ok tt) (λ _. result ≡ Err TooManyWords) }
    {
        if next_word(self.rest).is_some() {
            return Err(Misread::TooManyWords);
        }
        Ok(())
    }
}
