use crate::tests::captures::TWO_EVENTS;
use crate::tests::tables::Row;
use capture::Capture;
use forest::{Failure, Fault, Reason, Store};
use printing::print;
use std::alloc::{AllocError, Global};
use std::process::Abort;
use std::test::Fail;
use table::Table;

/// Prints into a buffer of so many dots: the answer, and the buffer after it.
fn print_into<S: Store>(
    alloc: Global,
    store: &S,
    handles: &[u32],
    room: usize,
) -> Result<(Result<usize, Failure>, Vec<u8>), AllocError> {
    let mut buffer = vec![in alloc; b'.'; room]?;
    let answer = print(alloc, store, handles, &mut buffer);
    Ok((answer, buffer))
}

/// Checks how many bytes are printed into a buffer of dots, and what it then holds.
fn check_printed<S: Store>(
    rt: &impl Abort,
    alloc: Global,
    store: &S,
    handles: &[u32],
    length: usize,
    wanted: &[u8],
) -> Result<(), Fail> {
    let (answer, buffer) = print_into(alloc, store, handles, wanted.len())?;
    assert_eq!(rt; answer, Ok(length));
    assert_eq!(rt; buffer.as_slice(), wanted);
    Ok(())
}

/// Checks that printing into a buffer of so many bytes is refused, and leaves the buffer as it was.
fn check_refused<S: Store>(
    rt: &impl Abort,
    alloc: Global,
    store: &S,
    handles: &[u32],
    room: usize,
    reason: Reason,
) -> Result<(), Fail> {
    let (answer, buffer) = print_into(alloc, store, handles, room)?;
    let fault = Fault {
        reason,
        layer: 3,
        row: 0,
    };
    assert_eq!(rt; answer, Err(Failure::Refused(fault)));
    assert_eq!(rt; buffer, vec![in alloc; b'.'; room]?);
    Ok(())
}

/// A table of an Integer and so many elements above it, each of which names the tree below it `width` times (twice at most).
fn tower(alloc: Global, levels: u8, width: u32) -> Result<Table, Failure> {
    let mut rows = Vec::new(alloc);
    let mut entries = Vec::new(alloc);
    rows.push(Row::Integer(7).raw())?;
    for level in 0..levels {
        let below = u32::from(level);
        rows.push(Row::Element(1, 2 * below, width).raw())?;
        entries.extend_from_slice(&[below, below])?;
    }
    Table::load(alloc, &rows, &entries, &[])
}

#[test]
fn event_prints_where_it_fits(rt: HostRuntime) -> Result<(), Fail> {
    let alloc = rt.alloc();
    let capture = Capture::load(alloc, TWO_EVENTS)?;
    check_printed(
        &rt,
        alloc,
        &capture,
        &[1],
        27,
        b"3[4[1000],5[0],6[60],7[64]]",
    )?;
    check_printed(
        &rt,
        alloc,
        &capture,
        &[1],
        27,
        b"3[4[1000],5[0],6[60],7[64]]...",
    )?;
    check_refused(&rt, alloc, &capture, &[1], 26, Reason::BufferShort)
}

#[test]
fn no_handles_print_nothing_and_missing_ones_are_refused(rt: HostRuntime) -> Result<(), Fail> {
    let alloc = rt.alloc();
    let capture = Capture::load(alloc, TWO_EVENTS)?;
    check_printed(&rt, alloc, &capture, &[], 0, b"")?;
    check_printed(&rt, alloc, &capture, &[], 0, b"...")?;
    check_refused(&rt, alloc, &capture, &[19], 99, Reason::NoSuchHandle)?;
    check_refused(&rt, alloc, &capture, &[1, 19], 0, Reason::NoSuchHandle)
}

#[test]
fn scalars_print(rt: HostRuntime) -> Result<(), Fail> {
    let alloc = rt.alloc();
    let rows = [
        Row::String(0, 7).raw(),
        Row::String(7, 0).raw(),
        Row::Integer(-1_000_000_000_000).raw(),
        Row::Boolean(0).raw(),
        Row::Boolean(1).raw(),
        Row::Element(65_535, 0, 0).raw(),
    ];
    let table = Table::load(alloc, &rows, &[], b"\"\\\x1F\x20\x7E\x7F\xFF")?;
    check_printed(&rt, alloc, &table, &[0], 19, b"\"\\22\\5c\\1f ~\\7f\\ff\"")?;
    check_printed(
        &rt,
        alloc,
        &table,
        &[1, 2, 3, 4, 5],
        36,
        b"\"\",-1000000000000,false,true,65535[]",
    )
}

#[test]
fn elements_nest_64_deep_at_most(rt: HostRuntime) -> Result<(), Fail> {
    let alloc = rt.alloc();
    let table = tower(alloc, 65, 1)?;
    check_printed(&rt, alloc, &table, &[2], 7, b"1[1[7]]")?;
    assert_eq!(rt; print_into(alloc, &table, &[64], 193)?.0, Ok(64 * 3 + 1));
    check_refused(&rt, alloc, &table, &[0, 65], 999, Reason::NestedTooDeep)
}

#[test]
fn shared_trees_are_refused_quickly(rt: HostRuntime) -> Result<(), Fail> {
    let alloc = rt.alloc();
    let table = tower(alloc, 64, 2)?;
    check_printed(&rt, alloc, &table, &[2], 16, b"1[1[7,7],1[7,7]]")?;
    check_refused(&rt, alloc, &table, &[64], 65_536, Reason::BufferShort)
}
