use forest::{Kind, Store};
use std::process::Abort;

/// What stands at a handle: an Integer or a Boolean by its value, a String by its length, an element by its tag and its number of children.
#[derive(Clone, Copy)]
pub enum Tree {
    Integer(i64),
    String(u32),
    Boolean(i64),
    Element(u16, u32),
}

/// All that a handle reads: kind, tag, number of children, value and length of text.
type Reading = (Option<Kind>, u16, u32, i64, u32);

impl Tree {
    fn reading(self) -> Reading {
        match self {
            Tree::Integer(value) => (Some(Kind::Integer), 0, 0, value, 0),
            Tree::String(length) => (Some(Kind::String), 0, 0, 0, length),
            Tree::Boolean(value) => (Some(Kind::Boolean), 0, 0, value, 0),
            Tree::Element(tag, child_count) => (Some(Kind::Element), tag, child_count, 0, 0),
        }
    }
}

fn read<S: Store>(store: &S, handle: u32) -> Reading {
    (
        store.kind(handle),
        store.tag(handle),
        store.child_count(handle),
        store.value(handle),
        store.text_length(handle),
    )
}

/// Checks what stands at each of these handles.
pub fn check_trees<S: Store>(rt: &impl Abort, store: &S, trees: &[(u32, Tree)]) {
    for (handle, tree) in trees {
        assert_eq!(rt; (*handle, read(store, *handle)), (*handle, tree.reading()));
    }
}

/// Checks that nothing stands at these handles.
pub fn check_missing<S: Store>(rt: &impl Abort, store: &S, handles: &[u32]) {
    for handle in handles {
        assert_eq!(rt;
            (*handle, read(store, *handle)),
            (*handle, (None, 0, 0, 0, 0))
        );
    }
}

/// The handles of the first five children, 0 past the last.
pub fn children<S: Store>(store: &S, handle: u32) -> [u32; 5] {
    [0, 1, 2, 3, 4].map(|index| store.child(handle, index))
}

/// The first five bytes of the text, 0 past the last.
pub fn text<S: Store>(store: &S, handle: u32) -> [u8; 5] {
    [0, 1, 2, 3, 4].map(|index| store.text_byte(handle, index))
}
