use crate::tests::making::check_full;
use crate::tests::reading::{Tree, check_missing, check_trees, children, text};
use forest::{Failure, Fault, Reason, Store};
use std::alloc::Global;
use std::process::Abort;
use std::test::Fail;
use table::{RawRow, Table};

/// A row by the fields that its kind uses. Those that it does not use are out of every range.
#[derive(Clone, Copy)]
pub enum Row {
    Integer(i64),
    /// From where, and how long.
    String(u32, u32),
    Boolean(i64),
    /// The tag; from where, and how many.
    Element(u32, u32, u32),
    /// A kind by its number, with fields that suit every kind.
    Kind(u8),
}

impl Row {
    pub fn raw(self) -> RawRow {
        match self {
            Row::Integer(value) => raw_row(3, 65_536, u32::MAX, u32::MAX, value),
            Row::String(from, length) => raw_row(4, 65_536, from, length, i64::MAX),
            Row::Boolean(value) => raw_row(5, 65_536, u32::MAX, u32::MAX, value),
            Row::Element(tag, from, length) => raw_row(6, tag, from, length, i64::MAX),
            Row::Kind(kind) => raw_row(kind, 1, 0, 0, 0),
        }
    }
}

fn raw_row(kind: u8, tag: u32, from: u32, length: u32, value: i64) -> RawRow {
    RawRow {
        kind,
        tag,
        from,
        length,
        value,
    }
}

fn unlawful(row: u32) -> Failure {
    Failure::Refused(Fault::new(Reason::UnlawfulTable, 4, row))
}

/// How many trees a table has.
fn count(alloc: Global, rows: &[RawRow], children: &[u32], text: &[u8]) -> Result<u32, Failure> {
    Ok(Table::load(alloc, rows, children, text)?.count())
}

/// How many trees a table has with so many lawful rows, child entries and bytes, and two rows more.
fn count_of_size(alloc: Global, sizes: [usize; 3], more: [Row; 2]) -> Result<u32, Failure> {
    let [row_count, child_count, text_length] = sizes;
    let [first, second] = more;
    let mut rows = vec![in alloc; Row::Integer(7).raw(); row_count]?;
    rows.push(first.raw())?;
    rows.push(second.raw())?;
    let children = vec![in alloc; 0u32; child_count]?;
    let text = vec![in alloc; 0u8; text_length]?;
    count(alloc, &rows, &children, &text)
}

/// Checks how many trees such a table has, or which row is refused.
fn check_sizes(rt: &impl Abort, alloc: Global, cases: &[([usize; 3], [Row; 2], Result<u32, u32>)]) {
    for (sizes, more, wanted) in cases {
        assert_eq!(rt;
            (*sizes, count_of_size(alloc, *sizes, *more)),
            (*sizes, wanted.map_err(unlawful))
        );
    }
}

/// How many trees a table has whose second row is this one. Its child entries are 0 and 1, and its text has 4 bytes.
fn count_with(alloc: Global, row: Row) -> Result<u32, Failure> {
    count(alloc, &[Row::Integer(7).raw(), row.raw()], &[0, 1], b"text")
}

/// Checks that these may be a table's second row.
fn check_lawful(rt: &impl Abort, alloc: Global, rows: &[Row]) {
    for (index, row) in rows.iter().enumerate() {
        assert_eq!(rt; (index, count_with(alloc, *row)), (index, Ok(2)));
    }
}

/// Checks that each of these is refused as a table's second row.
fn check_unlawful(rt: &impl Abort, alloc: Global, rows: &[Row]) {
    for (index, row) in rows.iter().enumerate() {
        assert_eq!(rt; (index, count_with(alloc, *row)), (index, Err(unlawful(1))));
    }
}

const LAWFUL: Row = Row::Boolean(1);

const UNLAWFUL: Row = Row::Boolean(2);

#[test]
fn table_has_65535_of_each_at_most(rt: HostRuntime) {
    check_sizes(
        &rt,
        rt.alloc(),
        &[
            ([65_533, 0, 0], [LAWFUL, LAWFUL], Ok(65_535)),
            ([65_533, 0, 0], [LAWFUL, UNLAWFUL], Err(65_534)),
            ([65_534, 0, 0], [LAWFUL, LAWFUL], Err(0)),
            ([65_534, 0, 0], [LAWFUL, UNLAWFUL], Err(0)),
            ([1, 65_535, 0], [LAWFUL, Row::Element(1, 0, 65_535)], Ok(3)),
            ([1, 65_536, 0], [LAWFUL, UNLAWFUL], Err(0)),
            ([1, 0, 65_535], [LAWFUL, Row::String(0, 65_535)], Ok(3)),
            ([1, 0, 65_536], [LAWFUL, UNLAWFUL], Err(0)),
        ],
    );
}

#[test]
fn first_unlawful_row_is_named(rt: HostRuntime) {
    check_sizes(
        &rt,
        rt.alloc(),
        &[
            ([0, 0, 0], [UNLAWFUL, LAWFUL], Err(0)),
            ([0, 0, 0], [LAWFUL, UNLAWFUL], Err(1)),
            ([5, 0, 0], [UNLAWFUL, UNLAWFUL], Err(5)),
        ],
    );
}

#[test]
fn row_fields_are_in_range(rt: HostRuntime) {
    let alloc = rt.alloc();
    check_lawful(
        &rt,
        alloc,
        &[
            Row::Kind(3),
            Row::Kind(4),
            Row::Kind(5),
            Row::Kind(6),
            Row::Integer(1_000_000_000_000),
            Row::Integer(-1_000_000_000_000),
            Row::Boolean(0),
            Row::Boolean(1),
            Row::Element(1, 0, 1),
            Row::Element(65_535, 0, 1),
        ],
    );
    check_unlawful(
        &rt,
        alloc,
        &[
            Row::Kind(2),
            Row::Kind(7),
            Row::Integer(1_000_000_000_001),
            Row::Integer(-1_000_000_000_001),
            Row::Boolean(2),
            Row::Boolean(-1),
            Row::Element(0, 0, 1),
            Row::Element(65_536, 0, 1),
        ],
    );
}

#[test]
fn children_are_lower_rows(rt: HostRuntime) {
    let alloc = rt.alloc();
    check_lawful(&rt, alloc, &[Row::Element(9, 0, 1), Row::Element(9, 2, 0)]);
    check_unlawful(
        &rt,
        alloc,
        &[
            Row::Element(9, 1, 1),
            Row::Element(9, 0, 2),
            Row::Element(9, 3, 0),
            Row::Element(9, u32::MAX, u32::MAX),
        ],
    );
}

#[test]
fn strings_lie_within_the_text(rt: HostRuntime) {
    let alloc = rt.alloc();
    check_lawful(
        &rt,
        alloc,
        &[Row::String(0, 4), Row::String(3, 1), Row::String(4, 0)],
    );
    check_unlawful(
        &rt,
        alloc,
        &[
            Row::String(0, 5),
            Row::String(3, 2),
            Row::String(4, 1),
            Row::String(5, 0),
            Row::String(u32::MAX, u32::MAX),
        ],
    );
}

#[test]
fn rows_read_back_whatever_unused_fields_hold(rt: HostRuntime) -> Result<(), Fail> {
    let rows = [
        Row::Integer(-7).raw(),
        Row::String(1, 2).raw(),
        Row::Boolean(1).raw(),
        Row::Element(300, 1, 3).raw(),
    ];
    let table = Table::load(rt.alloc(), &rows, &[9, 2, 0, 1], b"text")?;
    check_trees(
        &rt,
        &table,
        &[
            (0, Tree::Integer(-7)),
            (1, Tree::String(2)),
            (2, Tree::Boolean(1)),
            (3, Tree::Element(300, 3)),
        ],
    );
    check_missing(&rt, &table, &[4]);
    assert_eq!(rt; text(&table, 1), *b"ex\0\0\0");
    assert_eq!(rt; children(&table, 3), [2, 0, 1, 0, 0]);
    Ok(())
}

#[test]
fn table_refuses_to_make(rt: HostRuntime) -> Result<(), Fail> {
    let mut table = Table::load(rt.alloc(), &[LAWFUL.raw()], &[], &[])?;
    check_full(&rt, &mut table, 4);
    Ok(())
}
