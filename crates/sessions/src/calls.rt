// The calls on a unit, and their answers.
use anyhow::anyhow;
use commands::{Arguments, LineError, Misread, print_bytes};
use lines::next_word;
use replay::{FeedError, feed_all};
use sensor::Sensor;
use std::alloc::{AllocError, Global};
use store::Store;
use unit::{Device, Fed, Refusal};

// The most bytes of a tray.
const MOST_TRAY: u64 = 10_000;

// The most ticks of a line.
const MOST_TICKS: u64 = 1_000_000;

// A tray of so many bytes.
fn tray_of(heap: Global, length: u64) -> Result<Vec<u8>, AllocError> {
    vec![in heap; 0; length as usize]
}

fn print_refusal(rt: &HostRuntime, refusal: Refusal) -> anyhow::Result<()> {
    let number = refusal.number();
    println!(rt; "refused {number}")?;
    Ok(())
}

// Prints how many bytes a call wrote, and the bytes.
fn print_written(rt: &HostRuntime, tray: &[u8], written: usize) -> anyhow::Result<()> {
    let bytes = &tray[..written.min(tray.len())];
    let answer = format!(in rt.alloc(); "ok {written}")?;
    print_bytes(rt, answer.as_str(), bytes)
}

// Prints what a feed did, and the bytes that it wrote.
fn print_fed(rt: &HostRuntime, fed: Fed, bytes: &[u8]) -> anyhow::Result<()> {
    let Fed {
        taken,
        written,
        served,
    } = fed;
    let served = if served { "yes" } else { "no" };
    let answer = format!(in rt.alloc(); "ok {taken} {written} {served}")?;
    print_bytes(rt, answer.as_str(), bytes)
}

// Prints what each of several feeds did, and the bytes that it wrote.
fn print_feeds(rt: &HostRuntime, feeds: &[Fed], sent: &[u8]) -> anyhow::Result<()> {
    let mut rest = sent;
    for fed in feeds {
        let (bytes, behind) = rest.split_at(fed.written.min(rest.len()));
        print_fed(rt, *fed, bytes)?;
        rest = behind;
    }
    Ok(())
}

// TRAY
fn power<S: Store, T: Sensor>(
    rt: &HostRuntime,
    device: &mut Device<S, T>,
    line: &[u8],
) -> Result<(), LineError> {
    let mut arguments = Arguments::of(line);
    let length = arguments.number(MOST_TRAY)?;
    arguments.end()?;
    let mut tray = tray_of(rt.alloc(), length)?;
    match device.power(tray.as_mut_slice()) {
        Ok(written) => print_written(rt, tray.as_slice(), written)?,
        Err(refusal) => print_refusal(rt, refusal)?,
    }
    Ok(())
}

// TRAY BYTES: one feed.
fn feed<S: Store, T: Sensor>(
    rt: &HostRuntime,
    device: &mut Device<S, T>,
    line: &[u8],
) -> Result<(), LineError> {
    let mut arguments = Arguments::of(line);
    let length = arguments.number(MOST_TRAY)?;
    let bytes = arguments.bytes(rt.alloc())?;
    let mut tray = tray_of(rt.alloc(), length)?;
    match device.feed(bytes.as_slice(), tray.as_mut_slice()) {
        Ok(fed) => print_fed(rt, fed, &tray.as_slice()[..fed.written.min(tray.len())])?,
        Err(refusal) => print_refusal(rt, refusal)?,
    }
    Ok(())
}

// TRAY BYTES: feeds until a feed serves no frame.
fn feed_until_silent<S: Store, T: Sensor>(
    rt: &HostRuntime,
    device: &mut Device<S, T>,
    line: &[u8],
) -> Result<(), LineError> {
    let mut arguments = Arguments::of(line);
    let length = arguments.number(MOST_TRAY)?;
    let bytes = arguments.bytes(rt.alloc())?;
    let mut tray = tray_of(rt.alloc(), length)?;
    let mut feeds = Vec::new(rt.alloc());
    let mut sent = Vec::new(rt.alloc());
    let answer = feed_all(
        device,
        bytes.as_slice(),
        tray.as_mut_slice(),
        &mut feeds,
        &mut sent,
    );
    print_feeds(rt, feeds.as_slice(), sent.as_slice())?;
    match answer {
        Ok(()) => {}
        Err(FeedError::Refused(refusal)) => print_refusal(rt, refusal)?,
        Err(FeedError::Memory) => return Err(anyhow!("no memory").into()),
    }
    Ok(())
}

// Ticks, and prints what each tick wrote and then the count, or the refusal of a tick.
fn tick_all<S: Store, T: Sensor>(
    rt: &HostRuntime,
    device: &mut Device<S, T>,
    tray: &mut [u8],
    count: u64,
) -> anyhow::Result<()> {
    for _ in 0..count {
        match device.tick(tray) {
            Ok(0) => {}
            Ok(written) => print_written(rt, tray, written)?,
            Err(refusal) => return print_refusal(rt, refusal),
        }
    }
    println!(rt; "ticks {count}")?;
    Ok(())
}

// TRAY COUNT
fn tick<S: Store, T: Sensor>(
    rt: &HostRuntime,
    device: &mut Device<S, T>,
    line: &[u8],
) -> Result<(), LineError> {
    let mut arguments = Arguments::of(line);
    let length = arguments.number(MOST_TRAY)?;
    let count = arguments.number(MOST_TICKS)?;
    arguments.end()?;
    let mut tray = tray_of(rt.alloc(), length)?;
    tick_all(rt, device, tray.as_mut_slice(), count)?;
    Ok(())
}

// Does what a line asks of the unit.
pub fn call<S: Store, T: Sensor>(
    rt: &HostRuntime,
    device: &mut Device<S, T>,
    line: &[u8],
) -> Result<(), LineError> {
    let Some((command, rest)) = next_word(line) else {
        return Ok(());
    };
    match command {
        b"p" => power(rt, device, rest),
        b"f" => feed(rt, device, rest),
        b"a" => feed_until_silent(rt, device, rest),
        b"t" => tick(rt, device, rest),
        _ => Err(Misread::UnknownCommand.into()),
    }
}
