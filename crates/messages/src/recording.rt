// A recording: its frames, the bytes dropped and what is left.
use commands::print_bytes;
use stream::{Piece, read_recording};

// Prints the pieces of a recording in order, and then how much there was of each.
pub fn print_recording(rt: &HostRuntime, recording: &[u8]) -> anyhow::Result<()> {
    let mut frames = 0usize;
    let mut dropped = 0usize;
    let mut left = 0usize;
    for piece in read_recording(recording) {
        match piece {
            Piece::Frame(bytes) => {
                print_bytes(rt, "frame", bytes)?;
                frames = frames.saturating_add(1);
            }
            Piece::Dropped(bytes) => {
                print_bytes(rt, "dropped", bytes)?;
                dropped = dropped.saturating_add(bytes.len());
            }
            Piece::Left(bytes) => {
                print_bytes(rt, "left", bytes)?;
                left = bytes.len();
            }
        }
    }
    println!(rt; "frames {frames} dropped {dropped} left {left}")?;
    Ok(())
}
