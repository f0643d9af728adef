// Bytes that are fed.
use commands::next_number;

// Each sixth byte begins a frame of 2,055 bytes.
const FAILING: [u8; 6] = [0xFA, 0x00, 0x00, 0xFF, 0x08, 0x00];

// Where the bytes come from.
#[derive(Clone, Copy)]
pub enum Source {
    // the last number of the row, of which the highest bits are the byte
    Noise(u64),
    // how many bytes were handed out
    Failing(usize),
}

impl Source {
    pub fn noise() -> Source {
        Source::Noise(1)
    }

    pub fn failing() -> Source {
        Source::Failing(0)
    }

    fn next(&mut self) -> u8 {
        match self {
            Source::Noise(x) => {
                *x = next_number(*x);
                (*x >> 56) as u8
            }
            Source::Failing(place) => {
                let byte = FAILING[*place % FAILING.len()];
                *place = place.wrapping_add(1);
                byte
            }
        }
    }

    pub fn fill(&mut self, out: &mut [u8]) {
        for byte in out.iter_mut() {
            *byte = self.next();
        }
    }
}
