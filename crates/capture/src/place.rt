ghost use Rattle.std.specs.Prelude.{◌≡◌};
ghost use Rattle.capture.specs.Places.{Placed, part_tag, part_value};

use crate::event::Event;

/// An event's element, and its four parts, each followed by its Integer.
pub(crate) const TREES_PER_EVENT: u32 = 9;

/// What stands at a handle of a capture. Events go by their number.
#[derive(Clone, Copy)]
pub(crate) enum Place {
    Capture,
    Event(usize),
    Part(usize, Part),
    /// The Integer in a part.
    Value(usize, Part),
}

/// A part of an event's element, by its tag.
#[derive(Clone, Copy)]
pub(crate) enum Part {
    Time = 4,
    Queue = 5,
    Note = 6,
    Velocity = 7,
}

/// The parts in their order.
pub(crate) const PARTS: [Part; 4] = [Part::Time, Part::Queue, Part::Note, Part::Velocity];

impl Part {
    pub(crate) fn tag(self) -> u16
        ensures { result ≡ part_tag self }
    {
        self as u16
    }

    /// The number that this part of an event holds.
    pub(crate) fn value(self, event: &Event) -> u32
        ensures { result ≡ part_value event.now self }
    {
        match self {
            Part::Time => event.time,
            Part::Queue => u32::from(event.queue),
            Part::Note => u32::from(event.note),
            Part::Velocity => u32::from(event.velocity),
        }
    }
}

/// The place that a handle names in a capture of `event_count` events.
pub(crate) fn place_at(handle: u32, event_count: usize) -> Option<Place>
    ensures { Placed event_count handle result }
{
    if handle == 0 {
        return Some(Place::Capture);
    }
    let index = ((handle - 1) / TREES_PER_EVENT) as usize;
    if index >= event_count {
        return None;
    }
    let within = (handle - 1) % TREES_PER_EVENT;
    if within == 0 {
        return Some(Place::Event(index));
    }
    let part = PARTS[((within - 1) / 2) as usize];
    Some(if within % 2 == 1 {
        Place::Part(index, part)
    } else {
        Place::Value(index, part)
    })
}
