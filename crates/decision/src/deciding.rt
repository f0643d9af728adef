// The decision.
ghost use Rattle.std.specs.Prelude.{◌≡◌, ◌^◌, ◌<◌, ◌≤◌, length, take, drop};
ghost use Rattle.xbus.specs.Numbers.{number_of};
ghost use Rattle.decision.specs.Decided.{decided, error_number, has_error_mode, fits_entries};
ghost use Rattle.decision.specs.Asked.{changing, seen, Flags};
ghost use Rattle.decision.specs.Table.{DecisionSaid};

use crate::actions::Action::{self, Ask, Set};
use crate::actions::{Change, Question};
use crate::states::State;
use mti::Product;
use xbus::number;

// Why a message is not served.
#[derive(Clone, Copy, PartialEq, Debug)]
pub enum MessageError {
    // the state or the product does not allow the message
    NotAllowed = 4,
    // the data do not have a length that the message takes
    WrongLength = 33,
}

impl MessageError {
    // The data byte of the Error message.
    pub fn number(self) -> u8
        ensures { result ≡ error_number self }
    {
        self as u8
    }
}

// Error modes are not the MTi-3's.
fn has_error_mode(product: Product) -> bool
    ensures { result ≡ has_error_mode product }
{
    product != Product::Mti3
}

// Whether so many bytes are 1 to 32 entries of four.
pub fn fits_entries(len: usize) -> bool
    ensures { result ≡ fits_entries len }
{
    (4..=128).contains(&len) && len % 4 == 0
}

// The number that at most four bytes stand for.
// Form: one reader, whose number is cut by `as` to two bytes, since a reader for each length is no plainer.
fn value(bytes: &[u8]) -> u32
    requires { length bytes.now ≤ 4 }
    ensures value { result ≡ number_of bytes.now }
    ensures bound { result < 256 ^ length bytes.now }
{
    number(bytes) as u32
}

// Set and Clear, in four bytes each.
fn flags(bytes: &[u8]) -> Change<'_>
    requires { length bytes.now ≡ 8 }
    ensures { changing result ≡ Flags (number_of (take 4 bytes.now)) (number_of (drop 4 bytes.now)) }
{
    let (set, clear) = bytes.split_at(4);
    Change::Flags {
        set: value(set),
        clear: value(clear),
    }
}

type Decision<'a> = Result<Action<'a>, MessageError>;

// What the message asks for.
#[tactic(auto, using(crate::proofs::Said::said), unfolding(crate::specs::Decided::decided))]
pub fn decide(state: State, product: Product, identifier: u8, content: &[u8]) -> Decision<'_>
    ensures is { seen result ≡ decided state product identifier content.now }
    ensures said { DecisionSaid }
{
    let empty = content.is_empty();
    let len = content.len();
    match (state, identifier) {
        (State::WakeUp, 0x3F) if empty => Ok(Action::Wake),
        (State::Config | State::Measurement, 0x30) if empty => Ok(Action::Configure),
        (State::Config | State::Measurement, 0x40) if empty => Ok(Action::Reset),
        (State::Config, 0x10) if empty => Ok(Action::Measure),
        (State::Config, 0x0E) if empty => Ok(Set(Change::Factory)),
        (State::Config, 0x00) if empty => Ok(Ask(Question::DeviceId)),
        (State::Config, 0x1C) if empty => Ok(Ask(Question::Name)),
        (State::Config, 0x12) if empty => Ok(Ask(Question::Firmware)),
        (State::Config, 0x0C) if empty => Ok(Ask(Question::Configuration)),
        (State::Config, 0x18) if empty => Ok(Ask(Question::Baud)),
        (State::Config, 0x18) if len == 1 => Ok(Set(Change::Baud(content[0]))),
        (State::Config, 0xDA) if !has_error_mode(product) => Err(MessageError::NotAllowed),
        (State::Config, 0xDA) if empty => Ok(Ask(Question::ErrorMode)),
        (State::Config, 0xDA) if len == 2 => Ok(Set(Change::ErrorMode(value(content) as u16))),
        (State::Config, 0x84) if empty => Ok(Ask(Question::Location)),
        (State::Config, 0x84) if len == 2 => Ok(Set(Change::Location(value(content) as u16))),
        (State::Config, 0x64) if empty => Ok(Ask(Question::Profile)),
        (State::Config, 0x64) if len == 2 => Ok(Set(Change::Profile(value(content) as u16))),
        (State::Config, 0x48) if empty => Ok(Ask(Question::Flags)),
        (State::Config, 0x48) if len == 8 => Ok(Set(flags(content))),
        (State::Config, 0xC0) if empty => Ok(Ask(Question::Outputs)),
        (State::Config, 0xC0) if fits_entries(len) => Ok(Set(Change::Outputs(content))),
        (State::WakeUp, 0x3F)
        | (State::Config | State::Measurement, 0x30 | 0x40)
        | (State::Config, 0x10 | 0x0E | 0x00 | 0x1C | 0x12 | 0x0C)
        | (State::Config, 0x18 | 0xDA | 0x84 | 0x64 | 0x48 | 0xC0) => Err(
            MessageError::WrongLength,
        ),
        _ => Err(MessageError::NotAllowed),
    }
}
