// What a unit counts.

// The five counts of a unit. The model is made of these too.
#[derive(Clone, Copy, PartialEq, Debug)]
pub struct Counts {
    // ticks in WakeUp
    pub wake_ticks: u16,
    // data messages sent since power or Reset, modulo 65,536
    pub sent: u16,
    // in Measurement: the tick number, modulo 2^32
    pub number: u32,
    // the ticks of the second, modulo 2000
    pub phase: u16,
    // the seconds, modulo 2^32
    pub seconds: u32,
}
