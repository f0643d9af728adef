// The states of a unit that is powered.
#[derive(Clone, Copy, PartialEq, Debug)]
pub enum State {
    WakeUp,
    Config,
    Measurement,
}
