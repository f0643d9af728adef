// The unit on the bench, and the frames that it sends.
use anyhow::anyhow;
use commands::print_bare_bytes;
use mti::Product;
use replay::{FeedError, feed_all};
use sensor::Ramp;
use store::Store;
use stream::{LONGEST, Piece, read_recording};
use unit::{Device, Refusal};

const DEVICE_ID: u32 = 0x0102_0304;

#[derive(Drop)]
pub struct Bench<S: Store> {
    device: Device<S, Ramp>,
    tray: [u8; LONGEST],
}

// Prints the frames that were sent, each in a line of its own.
fn print_frames(rt: &HostRuntime, sent: &[u8]) -> anyhow::Result<()> {
    for piece in read_recording(sent) {
        if let Piece::Frame(frame) = piece {
            print_bare_bytes(rt, frame)?;
        }
    }
    Ok(())
}

// No line brings a refusal about: the unit is powered once, the tray is long enough, and no frame is left waiting.
fn refused(refusal: Refusal) -> anyhow::Error {
    let number = refusal.number();
    anyhow!("refused {number}")
}

impl<S: Store + Drop> Bench<S> {
    pub fn new(store: S) -> Bench<S> {
        Bench {
            device: Device::new(Product::Mti3, DEVICE_ID, store, Ramp),
            tray: [0; LONGEST],
        }
    }

    // Prints what the unit wrote to the front of the tray.
    fn print_written(&self, rt: &HostRuntime, written: usize) -> anyhow::Result<()> {
        print_frames(rt, &self.tray[..written.min(LONGEST)])
    }

    pub fn power(&mut self, rt: &HostRuntime) -> anyhow::Result<()> {
        let written = self.device.power(&mut self.tray).map_err(refused)?;
        self.print_written(rt, written)
    }

    // Feeds the bytes, until all are taken and no whole frame waits.
    pub fn feed(&mut self, rt: &HostRuntime, bytes: &[u8]) -> anyhow::Result<()> {
        let mut feeds = Vec::new(rt.alloc());
        let mut sent = Vec::new(rt.alloc());
        feed_all(
            &mut self.device,
            bytes,
            &mut self.tray,
            &mut feeds,
            &mut sent,
        )
        .map_err(|error| match error {
            FeedError::Refused(refusal) => refused(refusal),
            FeedError::Memory => anyhow!("no memory"),
        })?;
        print_frames(rt, sent.as_slice())
    }

    pub fn tick(&mut self, rt: &HostRuntime, count: u32) -> anyhow::Result<()> {
        for _ in 0..count {
            let written = self.device.tick(&mut self.tray).map_err(refused)?;
            self.print_written(rt, written)?;
        }
        Ok(())
    }

    pub fn writes_left(self) -> u64 {
        let (store, _) = self.device.into_parts();
        store.writes_left()
    }
}
