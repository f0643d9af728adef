// Readings in four precisions: one as text, many as a hash.
use commands::{Arguments, Hash, Misread, integer_of, next_number, only_word};
use lines::digits;
use mti::Precision;
use numbers::{LOWEST, put_real};
use std::alloc::AllocError;
use std::str;

const PRECISIONS: [Precision; 4] = [
    Precision::Single,
    Precision::Fixed32,
    Precision::Fixed48,
    Precision::Double,
];

// The most readings of one line.
const MOST: u64 = 1_000_000;

// The number that is the only word of a line.
pub fn read_number(line: &[u8]) -> Result<i64, Misread> {
    let word = only_word(line).ok_or(Misread::NotANumber)?;
    integer_of(word).ok_or(Misread::NotANumber)
}

// The two numbers of a line: a seed, and how many readings.
pub fn read_seed_and_count(line: &[u8]) -> Result<(u64, u64), Misread> {
    let mut arguments = Arguments::of(line);
    let seed = arguments.number(u64::MAX)?;
    let count = arguments.number(MOST)?;
    arguments.end().map_err(|_| Misread::NotANumber)?;
    Ok((seed, count))
}

// Appends the digits of bytes, without spaces.
fn push_digits(out: &mut String, bytes: &[u8]) -> Result<(), AllocError> {
    for byte in bytes {
        if let Ok(text) = str::from_utf8(&digits(*byte)) {
            out.push_str(text)?;
        }
    }
    Ok(())
}

// Prints a reading in the four precisions.
// Form: a loop like that of add_reading, since a function for both would hand out a buffer and its size.
pub fn print_reading(rt: &HostRuntime, value: i64) -> anyhow::Result<()> {
    let mut text = String::from_str(rt.alloc(), "v")?;
    for precision in PRECISIONS {
        let mut bytes = [0u8; 8];
        let Ok(size) = put_real(&mut bytes, value, precision) else {
            rt.println("out of range")?;
            return Ok(());
        };
        text.push_str(" ")?;
        push_digits(&mut text, &bytes[0..size])?;
    }
    rt.println(text.as_str())?;
    Ok(())
}

// Adds the bytes of a reading in the four precisions.
fn add_reading(hash: &mut Hash, value: i64) {
    for precision in PRECISIONS {
        let mut bytes = [0u8; 8];
        if let Ok(size) = put_real(&mut bytes, value, precision) {
            hash.add(&bytes[0..size]);
        }
    }
}

// The reading that a number of the sequence gives: from LOWEST to HIGHEST.
fn reading_of(x: u64) -> i64 {
    LOWEST + (x >> 16) as i64
}

// The hash over many readings from a seed.
fn hash_of(seed: u64, count: u64) -> u64 {
    let mut x = seed;
    let mut hash = Hash::new();
    for _ in 0..count {
        x = next_number(x);
        add_reading(&mut hash, reading_of(x));
    }
    hash.value()
}

// Prints the hash over many readings.
pub fn print_many(rt: &HostRuntime, seed: u64, count: u64) -> anyhow::Result<()> {
    let hash = hash_of(seed, count);
    println!(rt; "n {hash:016X}")?;
    Ok(())
}
