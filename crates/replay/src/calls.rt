// Calls to be played on a unit, and what they answer.
ghost use Rattle.std.specs.Prelude.{◌≡◌};
ghost use Rattle.replay.specs.Calls.{tray_of, written_by};

use unit::{Fed, Refusal};

// A call, with the length of its tray.
#[derive(Clone, Copy)]
pub enum Call<'a> {
    Power { tray: usize },
    Feed { bytes: &'a [u8], tray: usize },
    Tick { tray: usize },
}

impl Call<'_> {
    // The length of its tray.
    pub fn tray(&self) -> usize
        ensures { result ≡ tray_of self.now }
    {
        match self {
            Call::Power { tray } => *tray,
            Call::Feed { tray, .. } => *tray,
            Call::Tick { tray } => *tray,
        }
    }
}

// What a call answered.
#[derive(Clone, Copy, PartialEq, Debug)]
pub enum Answer {
    Power(Result<usize, Refusal>),
    Feed(Result<Fed, Refusal>),
    Tick(Result<usize, Refusal>),
}

impl Answer {
    // How many bytes were written.
    pub fn written(&self) -> usize
        ensures { result ≡ written_by self.now }
    {
        match self {
            Answer::Power(Ok(written)) | Answer::Tick(Ok(written)) => *written,
            Answer::Feed(Ok(fed)) => fed.written,
            _ => 0,
        }
    }
}

// What calls answered and wrote, and the store and the sensor in the end.
#[derive(Drop)]
pub struct Replay<S, T> {
    // the answer of each call, in order
    pub answers: Vec<Answer>,
    // what they wrote, joined
    pub output: Vec<u8>,
    pub store: S,
    pub sensor: T,
}
