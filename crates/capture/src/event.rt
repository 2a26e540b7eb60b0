ghost use Rattle.std.specs.Prelude.{◌≡◌};
ghost use Rattle.capture.specs.Events.{switch_tag};

/// Which way a note is switched, by the tag of an event's element.
#[derive(Clone, Copy, PartialEq, Eq, Debug)]
pub enum Switch {
    On = 2,
    Off = 3,
}

impl Switch {
    pub(crate) fn tag(self) -> u16
        ensures { result ≡ switch_tag self }
    {
        self as u16
    }
}

/// One event of a note bus.
#[derive(Clone, Copy, PartialEq, Eq, Debug)]
pub struct Event {
    /// In microseconds.
    pub time: u32,
    pub queue: u8,
    pub switch: Switch,
    pub note: u8,
    pub velocity: u8,
}
