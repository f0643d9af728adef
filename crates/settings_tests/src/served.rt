// What a unit in Config makes of a message.
use config::{WrongValue, answer, change};
use decision::{Action, MessageError, State, decide};
use settings::Settings;
use std::process::Abort;

// Why a message changes nothing.
#[derive(Clone, Copy, PartialEq, Debug)]
pub enum Refusal {
    Message(MessageError),
    Value(WrongValue),
}

// A value that the product cannot have.
pub const WRONG_VALUE: Refusal = Refusal::Value(WrongValue);

// Data of a length that the message does not take.
pub const WRONG_LENGTH: Refusal = Refusal::Message(MessageError::WrongLength);

// The settings after the message.
pub fn serve(settings: &Settings, identifier: u8, content: &[u8]) -> Result<Settings, Refusal> {
    let product = settings.product();
    match decide(State::Config, product, identifier, content).map_err(Refusal::Message)? {
        Action::Set(asked) => change(settings, asked).map_err(Refusal::Value),
        _ => Ok(*settings),
    }
}

// The message without data is a question, and these bytes are its answer.
pub fn answers(rt: &impl Abort, settings: &Settings, identifier: u8, bytes: &[u8]) {
    let product = settings.product();
    let Ok(Action::Ask(question)) = decide(State::Config, product, identifier, &[]) else {
        panic!(rt; "no question");
    };
    let mut out = [0x55; 128];
    let written = answer(settings, 0x0102_0304, question, &mut out);
    assert_eq!(rt; written, Some(bytes.len()));
    assert_eq!(rt; out.get(..bytes.len()), Some(bytes));
}
