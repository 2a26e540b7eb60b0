use crate::tests::captures::{TWO_EVENTS, TWO_EVENTS_TREES};
use crate::tests::making::{check_full, space_left};
use crate::tests::reading::{Tree, check_missing, check_trees, children, text};
use capture::Capture;
use forest::{Failure, Fault, Reason, Space, Store};
use overlay::Overlay;
use std::alloc::Global;
use std::process::Abort;
use std::test::Fail;

const SHORT: Result<u32, Fault> = Err(Fault {
    reason: Reason::SpaceShort,
    layer: 6,
    row: 0,
});

/// Opens an overlay that allows so many trees, child entries and bytes.
fn open<S: Store + Drop>(
    alloc: Global,
    below: S,
    allowances: [u32; 3],
) -> Result<Overlay<S>, Failure> {
    let [trees, children, bytes] = allowances;
    let space = Space {
        trees,
        children,
        bytes,
    };
    Overlay::open(alloc, below, space).map_err(|_below| Failure::OutOfMemory)
}

/// What to make.
#[derive(Clone, Copy)]
enum Making {
    Integer,
    Boolean,
    StringOfThree,
    ElementOfTwo,
}

/// An answer, and then the number of trees and the space left.
type Outcome = (Result<u32, Fault>, u32, [u32; 3]);

fn make<S: Store>(store: &mut S, making: Making) -> Outcome {
    let answer = match making {
        Making::Integer => store.make_integer(7),
        Making::Boolean => store.make_boolean(1),
        Making::StringOfThree => store.make_string(b"abc"),
        Making::ElementOfTwo => store.make_element(9, &[0, 0]),
    };
    (answer, store.count(), space_left(store))
}

/// Makes a tree above the one tree of a capture with no events, with these allowances.
fn make_over_one(alloc: Global, making: Making, allowances: [u32; 3]) -> Result<Outcome, Failure> {
    let mut store = open(alloc, Capture::load(alloc, &[])?, allowances)?;
    Ok(make(&mut store, making))
}

/// Checks what comes of each making with these allowances.
fn check_makings(
    rt: &impl Abort,
    alloc: Global,
    cases: &[(Making, [u32; 3], Outcome)],
) -> Result<(), Fail> {
    for (making, allowances, outcome) in cases {
        assert_eq!(rt; make_over_one(alloc, *making, *allowances)?, *outcome);
    }
    Ok(())
}

/// An overlay over two events.
fn open_over_events(alloc: Global, allowances: [u32; 3]) -> Result<Overlay<Capture>, Failure> {
    open(alloc, Capture::load(alloc, TWO_EVENTS)?, allowances)
}

/// An overlay over an overlay over two events, which has one tree and space for more.
fn open_over_overlay(
    alloc: Global,
    allowances: [u32; 3],
) -> Result<Overlay<Overlay<Capture>>, Failure> {
    let mut lower = open_over_events(alloc, [9, 9, 9])?;
    let _made = make(&mut lower, Making::Integer);
    open(alloc, lower, allowances)
}

/// Makes a tree of each kind above the trees of two events, and checks what then stands above and below.
fn check_each_kind<S: Store>(rt: &impl Abort, store: &mut S) {
    assert_eq!(rt; store.make_string(b"hi"), Ok(19));
    assert_eq!(rt; store.make_integer(-5), Ok(20));
    assert_eq!(rt; store.make_boolean(1), Ok(21));
    assert_eq!(rt; store.make_element(300, &[10, 19, 20, 21]), Ok(22));
    check_each_kind_made(rt, store);
}

fn check_each_kind_made<S: Store>(rt: &impl Abort, store: &S) {
    check_trees(
        rt,
        store,
        &[
            (19, Tree::String(2)),
            (20, Tree::Integer(-5)),
            (21, Tree::Boolean(1)),
            (22, Tree::Element(300, 4)),
        ],
    );
    check_missing(rt, store, &[23]);
    assert_eq!(rt; text(store, 19), *b"hi\0\0\0");
    assert_eq!(rt; children(store, 22), [10, 19, 20, 21, 0]);
    check_trees(rt, store, &TWO_EVENTS_TREES);
}

/// Makes an element above the trees of two events and an Integer, which takes all space, and checks what then stands above and below.
fn check_element_above<S: Store>(rt: &impl Abort, store: &mut S) {
    assert_eq!(rt; store.make_element(8, &[19, 1]), Ok(20));
    assert_eq!(rt; children(store, 20), [19, 1, 0, 0, 0]);
    check_trees(
        rt,
        store,
        &[(19, Tree::Integer(7)), (20, Tree::Element(8, 2))],
    );
    check_trees(rt, store, &TWO_EVENTS_TREES);
    check_full(rt, store, 6);
}

/// Makes an Integer in an overlay over two events, renews the overlay, and checks an element above both.
fn check_renewed(rt: &impl Abort, alloc: Global, mut lower: Overlay<Capture>) -> Result<(), Fail> {
    let _made = make(&mut lower, Making::Integer);
    let space = Space {
        trees: 1,
        children: 2,
        bytes: 0,
    };
    let mut store = lower
        .renew(alloc, space)
        .map_err(|_lower| Failure::OutOfMemory)?;
    check_element_above(rt, &mut store);
    Ok(())
}

#[test]
fn allowances_are_cut(rt: HostRuntime) -> Result<(), Fail> {
    check_makings(
        &rt,
        rt.alloc(),
        &[
            (
                Making::Integer,
                [2047, 4095, 4095],
                (Ok(1), 2, [2046, 4095, 4095]),
            ),
            (
                Making::Integer,
                [2048, 4096, 4096],
                (Ok(1), 2, [2047, 4096, 4096]),
            ),
            (
                Making::Integer,
                [2049, 4097, 4097],
                (Ok(1), 2, [2047, 4096, 4096]),
            ),
            (Making::Integer, [u32::MAX, 0, 1], (Ok(1), 2, [2047, 0, 1])),
        ],
    )
}

#[test]
fn trees_take_exact_space(rt: HostRuntime) -> Result<(), Fail> {
    check_makings(
        &rt,
        rt.alloc(),
        &[
            (Making::Integer, [1, 0, 0], (Ok(1), 2, [0, 0, 0])),
            (Making::Boolean, [1, 0, 0], (Ok(1), 2, [0, 0, 0])),
            (Making::StringOfThree, [1, 0, 3], (Ok(1), 2, [0, 0, 0])),
            (Making::ElementOfTwo, [1, 2, 0], (Ok(1), 2, [0, 0, 0])),
        ],
    )
}

#[test]
fn short_space_refuses_and_changes_nothing(rt: HostRuntime) -> Result<(), Fail> {
    check_makings(
        &rt,
        rt.alloc(),
        &[
            (Making::Integer, [0, 9, 9], (SHORT, 1, [0, 9, 9])),
            (Making::Boolean, [0, 9, 9], (SHORT, 1, [0, 9, 9])),
            (Making::StringOfThree, [0, 9, 3], (SHORT, 1, [0, 9, 3])),
            (Making::StringOfThree, [9, 9, 2], (SHORT, 1, [9, 9, 2])),
            (Making::ElementOfTwo, [0, 2, 9], (SHORT, 1, [0, 2, 9])),
            (Making::ElementOfTwo, [9, 1, 9], (SHORT, 1, [9, 1, 9])),
        ],
    )
}

#[test]
fn made_trees_read_back(rt: HostRuntime) -> Result<(), Fail> {
    let mut store = open_over_events(rt.alloc(), [4, 4, 2])?;
    check_each_kind(&rt, &mut store);
    Ok(())
}

#[test]
fn full_overlay_refuses_out_of_range_first(rt: HostRuntime) -> Result<(), Fail> {
    let mut store = open_over_events(rt.alloc(), [0, 0, 0])?;
    check_full(&rt, &mut store, 6);
    Ok(())
}

#[test]
fn overlay_stands_over_an_overlay(rt: HostRuntime) -> Result<(), Fail> {
    let mut store = open_over_overlay(rt.alloc(), [1, 2, 0])?;
    check_element_above(&rt, &mut store);
    Ok(())
}

#[test]
fn renewed_overlay_stands_as_over_itself(rt: HostRuntime) -> Result<(), Fail> {
    let lower = open_over_events(rt.alloc(), [9, 9, 9])?;
    check_renewed(&rt, rt.alloc(), lower)
}

#[test]
fn overlay_with_no_room_left_is_renewed(rt: HostRuntime) -> Result<(), Fail> {
    let lower = open_over_events(rt.alloc(), [1, 0, 0])?;
    check_renewed(&rt, rt.alloc(), lower)
}

#[test]
fn overlay_opened_with_room_is_renewed(rt: HostRuntime) -> Result<(), Fail> {
    let below = Capture::load(rt.alloc(), TWO_EVENTS)?;
    let space = Space {
        trees: 1,
        children: 0,
        bytes: 0,
    };
    let lower = Overlay::open_with_room(rt.alloc(), below, space, 1).map_err(
        |_below| Failure::OutOfMemory,
    )?;
    check_renewed(&rt, rt.alloc(), lower)
}
