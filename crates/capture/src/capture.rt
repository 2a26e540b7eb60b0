ghost use Rattle.std.specs.Prelude.{◌≡◌, ◌≤◌, true, vec_len};
ghost use Rattle.forest.specs.Forests.{forest, lawful};
ghost use Rattle.capture.specs.Events.{capture_trees};

use crate::event::Event;

/// A recorded capture of a note bus: its events in order.
#[derive(Drop)]
pub struct Capture {
    pub(crate) events: Vec<Event>,
    ghost few: { vec_len events ≤ 1000 },
    ghost legal: { lawful (forest (capture_trees events.items)) ≡ true },
}
