// What units are made from: the rows of the recorded sensor, and the memory of the page.
use commands::{Arguments, LineError, Misread};
use sensor::Row;
use std::alloc::Global;

// The most bytes of a memory.
const MOST_MEMORY: u64 = 100_000;

#[derive(Drop)]
pub struct Kit {
    pub rows: Vec<Row>,
    pub memory: Vec<u8>,
}

// CHANNEL TICK and nine numbers.
fn read_row(line: &[u8]) -> Result<Row, Misread> {
    let mut arguments = Arguments::of(line);
    let channel = arguments.identifier()?;
    let tick = arguments.number32()?;
    let mut numbers = [0; 9];
    for number in numbers.iter_mut() {
        *number = arguments.integer()?;
    }
    arguments.end()?;
    Ok(Row {
        channel,
        tick,
        numbers,
    })
}

impl Kit {
    pub fn new(heap: Global) -> Kit {
        Kit {
            rows: Vec::new(heap),
            memory: Vec::new(heap),
        }
    }

    pub fn add_row(&mut self, line: &[u8]) -> Result<(), LineError> {
        self.rows.push(read_row(line)?)?;
        Ok(())
    }

    pub fn forget_rows(&mut self, line: &[u8]) -> Result<(), Misread> {
        Arguments::of(line).end()?;
        self.rows.clear();
        Ok(())
    }

    // LENGTH FILL: the memory from now on.
    pub fn renew_memory(&mut self, heap: Global, line: &[u8]) -> Result<(), LineError> {
        let mut arguments = Arguments::of(line);
        let length = arguments.number(MOST_MEMORY)?;
        let fill = arguments.byte()?;
        arguments.end()?;
        self.memory = vec![in heap; fill; length as usize]?;
        Ok(())
    }

    // AT BYTES: writes the bytes to the memory from a place on.
    pub fn poke(&mut self, heap: Global, line: &[u8]) -> Result<(), LineError> {
        let mut arguments = Arguments::of(line);
        let at = arguments.number32()? as usize;
        let bytes = arguments.bytes(heap)?;
        let (_, behind) = self
            .memory
            .as_mut_slice()
            .split_at_mut_checked(at)
            .ok_or(Misread::PastTheMemory)?;
        let (place, _) = behind
            .split_at_mut_checked(bytes.len())
            .ok_or(Misread::PastTheMemory)?;
        place.copy_from_slice(bytes.as_slice());
        Ok(())
    }
}
