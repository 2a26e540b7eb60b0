use forest::{Fault, Reason, Store};
use std::process::Abort;

/// How many trees, child entries and bytes a store may still take.
pub fn space_left<S: Store>(store: &S) -> [u32; 3] {
    let space = store.space();
    [space.trees, space.children, space.bytes]
}

/// The answers to making one tree of each kind, as small as can be.
fn make_each_kind<S: Store>(store: &mut S) -> [Result<u32, Fault>; 4] {
    [
        store.make_integer(1_000_000_000_000),
        store.make_boolean(1),
        store.make_string(b""),
        store.make_element(65_535, &[]),
    ]
}

/// The answers to making trees that are out of range, each in another way.
fn make_out_of_range<S: Store>(store: &mut S) -> [Result<u32, Fault>; 6] {
    let past = store.count();
    [
        store.make_integer(1_000_000_000_001),
        store.make_integer(-1_000_000_000_001),
        store.make_boolean(2),
        store.make_element(0, &[]),
        store.make_element(65_536, &[]),
        store.make_element(1, &[past]),
    ]
}

fn refusal(reason: Reason, layer: u8) -> Result<u32, Fault> {
    Err(Fault::new(reason, layer, 0))
}

/// Checks that a store of this layer has no space for any tree, refuses first what is out of range, and is left as it was.
pub fn check_full<S: Store>(rt: &impl Abort, store: &mut S, layer: u8) {
    let count = store.count();
    assert_eq!(rt;
        make_each_kind(store),
        [refusal(Reason::SpaceShort, layer); 4]
    );
    assert_eq!(rt;
        make_out_of_range(store),
        [refusal(Reason::OutOfRange, layer); 6]
    );
    assert_eq!(rt; space_left(store), [0, 0, 0]);
    assert_eq!(rt; store.count(), count);
}
