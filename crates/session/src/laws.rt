// The laws of all sessions. Each function carries a theorem; the number that it returns says nothing.
// Form: the number stays, since it has always been promised.
ghost use Rattle.std.specs.Prelude.{◌≡◌};
ghost use Rattle.session.specs.Laws.{Begins, Extended};
ghost use Rattle.session.specs.Sampled.{SampledSaid};
ghost use Rattle.session.specs.Worked.{Worked};

// Every session is lawful: the empty one, and each that leads to a unit, with any call behind it.
pub fn sessions_stand() -> u8
    ensures value { result ≡ 0 }
    ensures begins { Begins }
    ensures extended { Extended }
{
    0
}

// What a tick sends, in words.
pub fn samples_stand() -> u8
    ensures value { result ≡ 0 }
    ensures said { SampledSaid }
{
    0
}

// The worked cases.
pub fn cases_stand() -> u8
    ensures value { result ≡ 0 }
    ensures worked { Worked }
{
    0
}
