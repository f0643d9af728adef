// What the calls of a unit answer.
ghost use Rattle.std.specs.Prelude.{◌≡◌};
ghost use Rattle.session.specs.Answers.{number_of};
ghost use Rattle.session.specs.Refused.{RefusedSaid};

// Why a call is refused. A refused call changes nothing.
#[derive(Clone, Copy, PartialEq, Debug)]
pub enum Refusal {
    // the unit is not powered
    Dark = 1,
    AlreadyPowered = 2,
    // the tray has fewer than 2,055 bytes
    ShortTray = 3,
    // a whole frame waits to be served
    FrameWaits = 4,
    // the data message would have more than 2,048 data bytes
    TooLong = 5,
}

impl Refusal {
    // Also says which call is refused by which number, and in which order.
    #[tactic(auto, using(crate::proofs::Refused::refused_said))]
    pub fn number(&self) -> u8
        ensures value { result ≡ number_of self.now }
        ensures said { RefusedSaid }
    {
        *self as u8
    }
}

// What a feed did.
// Form: written beside served, since the definitions of calls and sessions name both, and a caller sends what was written in any case.
#[derive(Clone, Copy, PartialEq, Debug)]
pub struct Fed {
    // bytes taken
    pub taken: usize,
    // bytes written
    pub written: usize,
    // whether a frame was served
    pub served: bool,
}
