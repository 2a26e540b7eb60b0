use crate::tests::making::check_full;
use crate::tests::reading::{Tree, check_missing, check_trees, children, text};
use capture::Capture;
use forest::{Failure, Fault, Reason, Store};
use std::alloc::{AllocError, Global};
use std::process::Abort;
use std::test::Fail;

/// Two events: a note off at time 1,000, and a note on at time 1,004.
pub const TWO_EVENTS: &[u8] = b"\x00\x00\x03\xE8\x00\x80\x3C\x40\x00\x00\x03\xEC\x01\x90\x3C\x64";

/// Their trees.
pub const TWO_EVENTS_TREES: [(u32, Tree); 19] = [
    (0, Tree::Element(1, 2)),
    (1, Tree::Element(3, 4)),
    (2, Tree::Element(4, 1)),
    (3, Tree::Integer(1000)),
    (4, Tree::Element(5, 1)),
    (5, Tree::Integer(0)),
    (6, Tree::Element(6, 1)),
    (7, Tree::Integer(60)),
    (8, Tree::Element(7, 1)),
    (9, Tree::Integer(64)),
    (10, Tree::Element(2, 4)),
    (11, Tree::Element(4, 1)),
    (12, Tree::Integer(1004)),
    (13, Tree::Element(5, 1)),
    (14, Tree::Integer(1)),
    (15, Tree::Element(6, 1)),
    (16, Tree::Integer(60)),
    (17, Tree::Element(7, 1)),
    (18, Tree::Integer(100)),
];

/// An event at time 0.
const EVENT: [u8; 8] = [0, 0, 0, 0, 0, 0x80, 60, 64];

fn unlawful(row: u32) -> Failure {
    Failure::Refused(Fault::new(Reason::UnlawfulCapture, 5, row))
}

/// Checks how many trees the capture of these bytes has, or which event is refused.
fn check_count(rt: &impl Abort, alloc: Global, bytes: &[u8], wanted: Result<u32, u32>) {
    let answer = Capture::load(alloc, bytes).map(|capture| capture.count());
    assert_eq!(rt; answer, wanted.map_err(unlawful));
}

/// Events at time 0, cut to so many bytes, and then so many zeros. Eight zeros are an unlawful event.
fn events(alloc: Global, length: usize, zeros: usize) -> Result<Vec<u8>, AllocError> {
    let mut bytes: Vec<u8> = EVENT.iter().copied().cycle().take(length).collect(alloc)?;
    bytes.extend_from_slice(&vec![in alloc; 0; zeros]?)?;
    Ok(bytes)
}

/// Checks captures of so many bytes of events and so many zeros.
fn check_sizes(
    rt: &impl Abort,
    alloc: Global,
    cases: &[(usize, usize, Result<u32, u32>)],
) -> Result<(), Fail> {
    for (length, zeros, wanted) in cases {
        check_count(rt, alloc, &events(alloc, *length, *zeros)?, *wanted);
    }
    Ok(())
}

/// An event at each of these times.
fn events_at(alloc: Global, times: [u32; 3]) -> Result<Vec<u8>, AllocError> {
    let mut bytes = Vec::new(alloc);
    for time in times {
        bytes.extend_from_slice(&time.to_be_bytes())?;
        bytes.extend_from_slice(&EVENT[4..8])?;
    }
    Ok(bytes)
}

/// Checks captures of an event at each of these times.
fn check_times(
    rt: &impl Abort,
    alloc: Global,
    cases: &[([u32; 3], Result<u32, u32>)],
) -> Result<(), Fail> {
    for (times, wanted) in cases {
        check_count(rt, alloc, &events_at(alloc, *times)?, *wanted);
    }
    Ok(())
}

/// The tag of a single event with this queue, status, note and velocity.
fn tag(alloc: Global, fields: [u8; 4]) -> Result<u16, Failure> {
    let [queue, status, note, velocity] = fields;
    let bytes = [0, 0, 0, 0, queue, status, note, velocity];
    Ok(Capture::load(alloc, &bytes)?.tag(1))
}

/// Checks the tag of a single event with these fields, or that it is refused.
fn check_tags(rt: &impl Abort, alloc: Global, cases: &[([u8; 4], Option<u16>)]) {
    for (fields, wanted) in cases {
        let answer = match *wanted {
            Some(tag) => Ok(tag),
            None => Err(unlawful(0)),
        };
        assert_eq!(rt; (*fields, tag(alloc, *fields)), (*fields, answer));
    }
}

#[test]
fn capture_has_a_thousand_whole_events_at_most(rt: HostRuntime) -> Result<(), Fail> {
    check_sizes(
        &rt,
        rt.alloc(),
        &[
            (0, 0, Ok(1)),
            (7, 0, Err(0)),
            (8, 0, Ok(10)),
            (15, 0, Err(1)),
            (8000, 0, Ok(9001)),
            (8001, 0, Err(1000)),
            (8008, 0, Err(1000)),
        ],
    )
}

#[test]
fn first_unlawful_event_is_named(rt: HostRuntime) -> Result<(), Fail> {
    check_sizes(
        &rt,
        rt.alloc(),
        &[(0, 16, Err(0)), (24, 9, Err(3)), (7992, 16, Err(999))],
    )
}

#[test]
fn times_do_not_fall(rt: HostRuntime) -> Result<(), Fail> {
    check_times(
        &rt,
        rt.alloc(),
        &[
            ([5, 5, 5], Ok(28)),
            ([0, u32::MAX, u32::MAX], Ok(28)),
            ([5, 5, 4], Err(2)),
            ([256, 255, 256], Err(1)),
            ([5, 4, 3], Err(1)),
        ],
    )
}

#[test]
fn event_fields_are_in_range(rt: HostRuntime) {
    check_tags(
        &rt,
        rt.alloc(),
        &[
            ([1, 0x80, 127, 127], Some(3)),
            ([2, 0x80, 127, 127], None),
            ([1, 0x80, 128, 127], None),
            ([1, 0x80, 127, 128], None),
            ([0, 0x7F, 60, 64], None),
            ([0, 0x80, 60, 64], Some(3)),
            ([0, 0x8F, 60, 64], Some(3)),
            ([0, 0x90, 60, 64], Some(2)),
            ([0, 0x9F, 60, 64], Some(2)),
            ([0, 0xA0, 60, 64], None),
        ],
    );
}

#[test]
fn event_trees_stand_in_order(rt: HostRuntime) -> Result<(), Fail> {
    let capture = Capture::load(rt.alloc(), TWO_EVENTS)?;
    check_trees(&rt, &capture, &TWO_EVENTS_TREES);
    assert_eq!(rt; children(&capture, 0), [1, 10, 0, 0, 0]);
    assert_eq!(rt; children(&capture, 10), [11, 13, 15, 17, 0]);
    assert_eq!(rt; children(&capture, 17), [18, 0, 0, 0, 0]);
    Ok(())
}

#[test]
fn what_a_capture_lacks_reads_zero(rt: HostRuntime) -> Result<(), Fail> {
    let capture = Capture::load(rt.alloc(), TWO_EVENTS)?;
    check_missing(&rt, &capture, &[19, u32::MAX]);
    assert_eq!(rt; children(&capture, 18), [0; 5]);
    assert_eq!(rt; children(&capture, 19), [0; 5]);
    assert_eq!(rt; text(&capture, 18), [0; 5]);
    Ok(())
}

#[test]
fn capture_refuses_to_make(rt: HostRuntime) -> Result<(), Fail> {
    let mut capture = Capture::load(rt.alloc(), TWO_EVENTS)?;
    check_full(&rt, &mut capture, 5);
    Ok(())
}

#[test]
fn last_of_a_thousand_events_stands_at_8992(rt: HostRuntime) -> Result<(), Fail> {
    let alloc = rt.alloc();
    let capture = Capture::load(alloc, &events(alloc, 8000, 0)?)?;
    assert_eq!(rt; capture.child(0, 999), 8992);
    check_trees(
        &rt,
        &capture,
        &[(8992, Tree::Element(3, 4)), (9000, Tree::Integer(64))],
    );
    check_missing(&rt, &capture, &[9001]);
    Ok(())
}
