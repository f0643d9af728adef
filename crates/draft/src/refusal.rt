// Why a composer refuses.
ghost use Rattle.std.specs.Prelude.{◌≡◌};
ghost use Rattle.draft.specs.Refusals.{number_of};
ghost use Rattle.draft.specs.Refused.{RefusedSaid};

// What is refused, as the number of the refusal.
#[derive(Clone, Copy, Debug, PartialEq, Eq)]
pub enum Refusal {
    // closing without a packet
    NoPacket = 9,
    // the record reaches past its bytes
    PastBytes = 10,
    // more than 255 data bytes, or not the data size of a known identifier
    WrongSize = 11,
    // more than 2,048 data bytes in the message
    TooLong = 12,
    // the frame so far would not fit in the tray
    NoRoom = 13,
}

impl Refusal {
    // Also says which call is refused by which number, and in which order.
    #[tactic(auto, using(crate::proofs::Refused::refused_said))]
    pub fn number(&self) -> u8
        ensures value { result ≡ number_of self.now }
        ensures said { RefusedSaid }
    {
        *self as u8
    }
}
