// A unit that is fed and ticked, and the hash over what it writes.
use commands::Hash;
use mti::Product;
use sensor::Ramp;
use store::Cell;
use stream::LONGEST;
use unit::Device;

const DEVICE_ID: u32 = 0x0102_0304;

const WRITES: u32 = 10;

const WAKE_UP_ACK: [u8; 5] = [0xFA, 0xFF, 0x3F, 0x00, 0xC2];

#[derive(Drop)]
pub struct Driven {
    device: Device<Cell, Ramp>,
    tray: [u8; LONGEST],
    hash: Hash,
}

impl Driven {
    // A unit in Config.
    pub fn new(product: Product) -> Driven {
        let mut driven = Driven {
            device: Device::new(product, DEVICE_ID, Cell::new(WRITES), Ramp),
            tray: [0; LONGEST],
            hash: Hash::new(),
        };
        if let Ok(written) = driven.device.power(&mut driven.tray) {
            driven.note(written);
        }
        driven.feed(&WAKE_UP_ACK);
        driven
    }

    // The bytes that a call wrote.
    fn note(&mut self, written: usize) {
        self.hash.add(&self.tray[..written.min(LONGEST)]);
    }

    // One feed: how many bytes it took, if it served a frame.
    pub fn feed(&mut self, bytes: &[u8]) -> Option<usize> {
        let fed = self.device.feed(bytes, &mut self.tray).ok()?;
        self.note(fed.written);
        fed.served.then_some(fed.taken)
    }

    // Feeds until a feed serves no frame.
    // Form: a loop of its own, since replay's `feed_all` keeps all answers and outputs on the heap, which would be counted.
    pub fn feed_all(&mut self, bytes: &[u8]) {
        let mut rest = bytes;
        for _ in 0..u64::MAX {
            let Some(taken) = self.feed(rest) else {
                return;
            };
            rest = &rest[taken.min(rest.len())..];
        }
    }

    pub fn tick(&mut self) {
        if let Ok(written) = self.device.tick(&mut self.tray) {
            self.note(written);
        }
    }

    pub fn hash(&self) -> u64 {
        self.hash.value()
    }
}
