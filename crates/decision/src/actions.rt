// What a message asks for.

// What is asked without data.
#[derive(Clone, Copy, PartialEq, Debug)]
pub enum Question {
    DeviceId,
    Name,
    Firmware,
    Configuration,
    Baud,
    ErrorMode,
    Location,
    Profile,
    Flags,
    Outputs,
}

// A change of the settings, with its value.
#[derive(Clone, Copy, PartialEq, Debug)]
pub enum Change<'a> {
    Baud(u8),
    ErrorMode(u16),
    Location(u16),
    Profile(u16),
    Flags { set: u32, clear: u32 },
    // entries of four bytes each
    Outputs(&'a [u8]),
    Factory,
}

#[derive(Clone, Copy, PartialEq, Debug)]
pub enum Action<'a> {
    Wake,
    Configure,
    Measure,
    Reset,
    Ask(Question),
    Set(Change<'a>),
}
