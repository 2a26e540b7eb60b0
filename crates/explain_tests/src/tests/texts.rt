use explain::write_type;
use rows::TypeRow;
use std::alloc::Global;
use std::process::Abort;
use std::test::Fail;

fn written(
    rt: &impl Abort,
    alloc: Global,
    rows: &[TypeRow],
    row: u32,
    words: &str,
) -> Result<(), Fail> {
    let text = write_type(alloc, rows, row)?;
    assert!(rt; text.as_str() == words);
    Ok(())
}

#[test]
fn single_rows(rt: HostRuntime) -> Result<(), Fail> {
    let alloc = rt.alloc();
    let rows = [
        TypeRow::EmptyChoice,
        TypeRow::EmptySequence,
        TypeRow::Integer,
        TypeRow::String,
        TypeRow::Boolean,
        TypeRow::Element { tag: 3, content: 2 },
        TypeRow::AnyElement { content: 1 },
        TypeRow::Repetition { part: 4 },
    ];
    written(&rt, alloc, &rows, 0, "nothing")?;
    written(&rt, alloc, &rows, 1, "()")?;
    written(&rt, alloc, &rows, 2, "Integer")?;
    written(&rt, alloc, &rows, 3, "String")?;
    written(&rt, alloc, &rows, 4, "Boolean")?;
    written(&rt, alloc, &rows, 5, "3[Integer]")?;
    written(&rt, alloc, &rows, 6, "any[()]")?;
    written(&rt, alloc, &rows, 7, "Boolean*")?;
    written(&rt, alloc, &rows, 8, "?")
}

#[test]
fn brackets(rt: HostRuntime) -> Result<(), Fail> {
    let alloc = rt.alloc();
    let rows = [
        TypeRow::Integer,
        TypeRow::String,
        TypeRow::Boolean,
        TypeRow::Sequence {
            first: 0,
            second: 1,
        },
        TypeRow::Choice {
            first: 0,
            second: 1,
        },
        TypeRow::Repetition { part: 3 },
        TypeRow::Repetition { part: 4 },
        TypeRow::Sequence {
            first: 4,
            second: 2,
        },
        TypeRow::Sequence {
            first: 2,
            second: 3,
        },
        TypeRow::Choice {
            first: 3,
            second: 4,
        },
        TypeRow::Element { tag: 2, content: 4 },
        TypeRow::Choice {
            first: 10,
            second: 5,
        },
        TypeRow::Repetition { part: 11 },
    ];
    written(&rt, alloc, &rows, 3, "Integer, String")?;
    written(&rt, alloc, &rows, 4, "Integer | String")?;
    written(&rt, alloc, &rows, 5, "(Integer, String)*")?;
    written(&rt, alloc, &rows, 6, "(Integer | String)*")?;
    written(&rt, alloc, &rows, 7, "(Integer | String), Boolean")?;
    written(&rt, alloc, &rows, 8, "Boolean, Integer, String")?;
    written(&rt, alloc, &rows, 9, "Integer, String | Integer | String")?;
    let words = "(2[Integer | String] | (Integer, String)*)*";
    written(&rt, alloc, &rows, 12, words)
}

#[test]
fn deep_types(rt: HostRuntime) -> Result<(), Fail> {
    let alloc = rt.alloc();
    let endless = [TypeRow::Element { tag: 3, content: 0 }];
    written(&rt, alloc, &endless, 0, "3[3[3[3[...]]]]")?;
    let unlawful = [TypeRow::Repetition { part: 0 }];
    let text = write_type(alloc, &unlawful, 0)?;
    assert!(&rt; text.len() == 3 + 96);
    assert!(&rt; text.starts_with("...*"));
    Ok(())
}

#[test]
fn long_types(rt: HostRuntime) -> Result<(), Fail> {
    let unlawful = [
        TypeRow::Integer,
        TypeRow::Sequence {
            first: 0,
            second: 1,
        },
        TypeRow::Sequence {
            first: 2,
            second: 2,
        },
    ];
    let tail = write_type(rt.alloc(), &unlawful, 1)?;
    assert!(&rt; tail.len() == 201);
    assert!(&rt; tail.starts_with("Integer, Integer, "));
    let twins = write_type(rt.alloc(), &unlawful, 2)?;
    assert!(&rt; twins.len() == 203);
    Ok(())
}
