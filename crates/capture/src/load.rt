ghost use Rattle.std.specs.Prelude.{◌≡◌, ◌^◌, ◌<◌, ◌≤◌, true, false, MatchOption};
ghost use Rattle.forest.specs.Faults.{faulted};
ghost use Rattle.forest.specs.declared.failure.Failure.TheVariants.{Refused};
ghost use Rattle.forest.specs.declared.fault.Reason.TheVariants.{UnlawfulCapture};
ghost use Rattle.capture.specs.Captures.{Loaded};
ghost use Rattle.capture.specs.Records.{status_lawful, switch_of, LawfulRecord, event_of};

use crate::capture::Capture;
use crate::event::{Event, Switch};
use forest::{Failure, Fault, Reason, Store};
use std::alloc::Global;

/// The bytes of one event.
const RECORD_SIZE: usize = 8;

/// The most events that a capture may have.
const MAX_EVENTS: usize = 1000;

const MAX_QUEUE: u8 = 1;

const MAX_NOTE: u8 = 127;

const MAX_VELOCITY: u8 = 127;

/// Which way a status byte switches its note.
fn read_switch(status: u8) -> Option<Switch>
    ensures { MatchOption result (status_lawful status ≡ false) (λ s. (status_lawful status ≡ true) × (s ≡ switch_of status)) }
{
    match status {
        0x80..=0x8F => Some(Switch::Off),
        0x90..=0x9F => Some(Switch::On),
        _ => None,
    }
}

/// The event of a record, if the record is lawful after an event at the time `earliest`.
fn read_event(record: &[u8], earliest: u32) -> Option<Event>
    ensures { MatchOption result (LawfulRecord earliest «record».now → ⊥) (λ e. LawfulRecord earliest «record».now × (e ≡ event_of «record».now) × (e.time < 2 ^ 32)) }
{
    let [t3, t2, t1, t0, queue, status, note, velocity] = record else {
        return None;
    };
    let time = u32::from_be_bytes([*t3, *t2, *t1, *t0]);
    if time < earliest || *queue > MAX_QUEUE || *note > MAX_NOTE || *velocity > MAX_VELOCITY {
        return None;
    }
    let switch = read_switch(*status)?;
    Some(Event {
        time,
        queue: *queue,
        switch,
        note: *note,
        velocity: *velocity,
    })
}

// Tables refuse alike. One function for both would be given the reason and the layer, and be `Fault::new` again.
fn unlawful(index: usize) -> Failure
    requires { index ≤ 1000 }
    ensures { result ≡ Refused (faulted UnlawfulCapture 5 index) }
{
    let fault = Fault::new(
        Reason::UnlawfulCapture,
        <Capture as Store>::LAYER,
        index as u32,
    );
    Failure::Refused(fault)
}

impl Capture {
    /// Reads the events in order, and refuses at the first that is unlawful.
    pub fn load(alloc: Global, bytes: &[u8]) -> Result<Capture, Failure>
        ensures { Loaded bytes.now result }
    {
        let mut events = Vec::new(alloc);
        let mut earliest = 0;
        for (index, record) in bytes.chunks(RECORD_SIZE).enumerate() {
            if index >= MAX_EVENTS {
                return Err(unlawful(index));
            }
            let event = read_event(record, earliest).ok_or(unlawful(index))?;
            earliest = event.time;
            events.push(event)?;
        }
        Ok(Capture { events })
    }
}
