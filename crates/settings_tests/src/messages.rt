// What messages ask for, by state, product and length.
use decision::{Action, Change, MessageError, Question, State, decide};
use mti::Product;

// Every message without data that asks for something in Config.
const BARE: [(u8, Action<'static>); 14] = [
    (0x30, Action::Configure),
    (0x10, Action::Measure),
    (0x40, Action::Reset),
    (0x0E, Action::Set(Change::Factory)),
    (0x00, Action::Ask(Question::DeviceId)),
    (0x1C, Action::Ask(Question::Name)),
    (0x12, Action::Ask(Question::Firmware)),
    (0x0C, Action::Ask(Question::Configuration)),
    (0x18, Action::Ask(Question::Baud)),
    (0xDA, Action::Ask(Question::ErrorMode)),
    (0x84, Action::Ask(Question::Location)),
    (0x64, Action::Ask(Question::Profile)),
    (0x48, Action::Ask(Question::Flags)),
    (0xC0, Action::Ask(Question::Outputs)),
];

#[test]
fn without_data(rt: HostRuntime) {
    for (identifier, action) in BARE {
        let asked = decide(State::Config, Product::Mti30, identifier, &[]);
        assert_eq!(rt; asked, Ok(action), "at {identifier}");
    }
}

#[test]
fn other_states(rt: HostRuntime) {
    for (identifier, action) in BARE {
        let asleep = decide(State::WakeUp, Product::Mti30, identifier, &[]);
        assert_eq!(rt; asleep, Err(MessageError::NotAllowed));
        let measuring = decide(State::Measurement, Product::Mti30, identifier, &[]);
        let wanted = match identifier {
            0x30 | 0x40 => Ok(action),
            _ => Err(MessageError::NotAllowed),
        };
        assert_eq!(rt; measuring, wanted, "at {identifier}");
    }
}

#[test]
fn with_data(rt: HostRuntime) {
    for (identifier, content, asked) in [
        (0x18, &[0x80][..], Change::Baud(0x80)),
        (0xDA, &[0x00, 0x03], Change::ErrorMode(3)),
        (0x84, &[0x12, 0x34], Change::Location(0x1234)),
        (0x64, &[0x00, 0x33], Change::Profile(51)),
        (
            0x48,
            &[0, 0, 0, 0x10, 0, 0, 0, 0x01],
            Change::Flags {
                set: 0x10,
                clear: 0x01,
            },
        ),
        (
            0xC0,
            &[0x20, 0x10, 0x01, 0x2C],
            Change::Outputs(&[0x20, 0x10, 0x01, 0x2C]),
        ),
    ] {
        let decided = decide(State::Config, Product::MtiG710, identifier, content);
        assert_eq!(rt; decided, Ok(Action::Set(asked)), "at {identifier}");
    }
}

#[test]
fn wrong_lengths(rt: HostRuntime) {
    for (identifier, content) in [
        (0x00, &[0; 1][..]),
        (0x30, &[0; 1]),
        (0x18, &[0; 2]),
        (0xDA, &[0; 1]),
        (0xDA, &[0; 3]),
        (0x84, &[0; 3]),
        (0x64, &[0; 4]),
        (0x48, &[0; 4]),
        (0x48, &[0; 16]),
        (0xC0, &[0; 3]),
        (0xC0, &[0; 132]),
        (0xC0, &[0; 2048]),
    ] {
        let decided = decide(State::Config, Product::Mti300, identifier, content);
        assert_eq!(rt; decided, Err(MessageError::WrongLength), "at {identifier}");
    }
    assert_eq!(rt; MessageError::WrongLength.number(), 33);
}

#[test]
fn wake_up_ack(rt: HostRuntime) {
    let product = Product::Mti3;
    assert_eq!(rt; decide(State::WakeUp, product, 0x3F, &[]), Ok(Action::Wake));
    assert_eq!(rt;
        decide(State::WakeUp, product, 0x3F, &[0]),
        Err(MessageError::WrongLength)
    );
    assert_eq!(rt;
        decide(State::Config, product, 0x3F, &[]),
        Err(MessageError::NotAllowed)
    );
}

#[test]
fn unknown_identifiers(rt: HostRuntime) {
    for identifier in [0x01, 0x36, 0x3E, 0x42, 0x65, 0xC1, 0xFF] {
        let decided = decide(State::Config, Product::Mti3, identifier, &[0, 0]);
        assert_eq!(rt; decided, Err(MessageError::NotAllowed), "at {identifier}");
    }
}
