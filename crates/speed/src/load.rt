// What units are driven with.
use crate::driven::Driven;
use crate::source::Source;
use mti::Product;
use std::fmt;

const GO_TO_MEASUREMENT: [u8; 5] = [0xFA, 0xFF, 0x10, 0x00, 0xF1];

const REQ_DID: [u8; 5] = [0xFA, 0xFF, 0x00, 0x00, 0x01];

// SetOutputConfiguration with all channels, the real ones as doubles, each as often as it can be.
#[rattlefmt::skip]
const ALL_CHANNELS: [u8; 81] = [
    0xFA, 0xFF, 0xC0, 0x4C,
    0x08, 0x13, 0xFF, 0xFF, 0x10, 0x20, 0xFF, 0xFF, 0x10, 0x60, 0xFF, 0xFF, 0x10, 0x70, 0xFF, 0xFF,
    0x20, 0x13, 0xFF, 0xFF, 0x20, 0x23, 0xFF, 0xFF, 0x20, 0x33, 0xFF, 0xFF, 0x30, 0x10, 0xFF, 0xFF,
    0x40, 0x13, 0xFF, 0xFF, 0x40, 0x23, 0xFF, 0xFF, 0x40, 0x33, 0xFF, 0xFF, 0x50, 0x23, 0xFF, 0xFF,
    0x50, 0x43, 0xFF, 0xFF, 0x80, 0x23, 0xFF, 0xFF, 0x80, 0x33, 0xFF, 0xFF, 0xC0, 0x23, 0xFF, 0xFF,
    0xD0, 0x13, 0xFF, 0xFF, 0xE0, 0x10, 0xFF, 0xFF, 0xE0, 0x20, 0xFF, 0xFF,
    0x9C,
];

// The bytes that are fed at once.
const PIECE: usize = 1000;

// Behind so many zeros nothing waits.
const ZEROS: [u8; 2055] = [0; 2055];

#[derive(Clone, Copy, PartialEq, Debug)]
pub enum Load {
    Factory,
    All,
    Frames,
    Noise,
    Nested,
}

impl fmt::Display for Load {
    fn fmt<W: fmt::Write>(&self, f: &mut fmt::Formatter<W>) -> fmt::Result {
        f.write_str(match self {
            Load::Factory => "factory",
            Load::All => "all",
            Load::Frames => "frames",
            Load::Noise => "noise",
            Load::Nested => "nested",
        })
    }
}

impl Load {
    // The load that a line names.
    pub fn of(command: &[u8]) -> Option<Load> {
        match command {
            b"factory" => Some(Load::Factory),
            b"all" => Some(Load::All),
            b"frames" => Some(Load::Frames),
            b"noise" => Some(Load::Noise),
            b"nested" => Some(Load::Nested),
            _ => None,
        }
    }

    // Drives a unit, and gives the hash over what it wrote.
    pub fn run(self, count: u32) -> u64 {
        match self {
            Load::Factory => ticks(Product::Mti3, &[], count),
            Load::All => ticks(Product::MtiG710, &ALL_CHANNELS, count),
            Load::Frames => frames(count),
            Load::Noise => bytes(Source::noise(), count),
            Load::Nested => bytes(Source::failing(), count),
        }
    }
}

// So many ticks in Measurement, behind a message in Config.
fn ticks(product: Product, message: &[u8], count: u32) -> u64 {
    let mut driven = Driven::new(product);
    driven.feed_all(message);
    driven.feed_all(&GO_TO_MEASUREMENT);
    for _ in 0..count {
        driven.tick();
    }
    driven.hash()
}

// The same question so many times.
fn frames(count: u32) -> u64 {
    let mut driven = Driven::new(Product::Mti3);
    for _ in 0..count {
        driven.feed(&REQ_DID);
    }
    driven.hash()
}

// So many bytes in pieces; then what makes sure that nothing waits, and a question.
fn bytes(mut source: Source, count: u32) -> u64 {
    let mut driven = Driven::new(Product::Mti3);
    let mut piece = [0; PIECE];
    let mut left = count as usize;
    for _ in 0..count.div_ceil(PIECE as u32) {
        let len = left.min(PIECE);
        source.fill(&mut piece[..len]);
        driven.feed_all(&piece[..len]);
        left -= len;
    }
    driven.feed_all(&ZEROS);
    driven.feed_all(&REQ_DID);
    driven.hash()
}
