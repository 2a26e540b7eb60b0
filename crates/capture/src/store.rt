ghost use Rattle.std.specs.Prelude.{length};
ghost use Rattle.capture.specs.Captures.{meaning};
ghost use Rattle.capture.specs.Places.{Placed};

use crate::capture::Capture;
use crate::place::{PARTS, Place, TREES_PER_EVENT, place_at};
use forest::{
    Fault, Kind, Space, Store, boolean_in_range, handles_in_range, integer_in_range,
    refuse_without_space, tag_in_range,
};

/// The tag of a capture's element.
const CAPTURE_TAG: u16 = 1;

impl Capture {
    fn place(&self, handle: u32) -> Option<Place>
        ensures { Placed (length self.now.events.items) handle result }
    {
        place_at(handle, self.events.len())
    }
}

/// A capture as a store: the trees of its events, and no space to make any.
#[tactic(auto, using(crate::proofs::Standing::trees))]
impl Store for Capture {
    const LAYER: u8 = 5;

    ghost LAYER = { 5 };

    ghost means = { meaning };

    fn count(&self) -> u32 {
        1 + TREES_PER_EVENT * self.events.len() as u32
    }

    fn space(&self) -> Space {
        Space {
            trees: 0,
            children: 0,
            bytes: 0,
        }
    }

    fn kind(&self, handle: u32) -> Option<Kind> {
        match self.place(handle)? {
            Place::Capture | Place::Event(_) | Place::Part(_, _) => Some(Kind::Element),
            Place::Value(_, _) => Some(Kind::Integer),
        }
    }

    fn tag(&self, handle: u32) -> u16 {
        let Some(place) = self.place(handle) else {
            return 0;
        };
        match place {
            Place::Capture => CAPTURE_TAG,
            Place::Event(index) => self.events[index].switch.tag(),
            Place::Part(_, part) => part.tag(),
            Place::Value(_, _) => 0,
        }
    }

    fn child_count(&self, handle: u32) -> u32 {
        let Some(place) = self.place(handle) else {
            return 0;
        };
        match place {
            Place::Capture => self.events.len() as u32,
            Place::Event(_) => PARTS.len() as u32,
            Place::Part(_, _) => 1,
            Place::Value(_, _) => 0,
        }
    }

    fn child(&self, handle: u32, index: u32) -> u32 {
        let Some(place) = self.place(handle) else {
            return 0;
        };
        match place {
            Place::Capture if (index as usize) < self.events.len() => 1 + TREES_PER_EVENT * index,
            Place::Event(_) if (index as usize) < PARTS.len() => handle + 1 + 2 * index,
            Place::Part(_, _) if index == 0 => handle + 1,
            _ => 0,
        }
    }

    fn value(&self, handle: u32) -> i64 {
        let Some(Place::Value(index, part)) = self.place(handle) else {
            return 0;
        };
        i64::from(part.value(&self.events[index]))
    }

    fn text_length(&self, _handle: u32) -> u32 {
        0 // No tree of a capture is a String.
    }

    fn text_byte(&self, _handle: u32, _index: u32) -> u8 {
        0 // There is no text.
    }

    fn make_integer(&mut self, value: i64) -> Result<u32, Fault> {
        Err(refuse_without_space(Self::LAYER, integer_in_range(value)))
    }

    fn make_boolean(&mut self, value: u32) -> Result<u32, Fault> {
        Err(refuse_without_space(Self::LAYER, boolean_in_range(value)))
    }

    fn make_string(&mut self, _text: &[u8]) -> Result<u32, Fault> {
        Err(refuse_without_space(Self::LAYER, true))
    }

    fn make_element(&mut self, tag: u32, children: &[u32]) -> Result<u32, Fault> {
        let in_range = tag_in_range(tag) && handles_in_range(children, self.count());
        Err(refuse_without_space(Self::LAYER, in_range))
    }
}
