use explain::explain;
use forest::{Fault, Reason};
use rows::{Query, RawExpression, RawType, TypeRow};
use session::Session;
use std::alloc::Global;
use std::process::Abort;
use std::test::Fail;
use typing::TypeFault;

/// A refusal while the query was typed, or before any typing.
fn in_query(reason: Reason, row: u32) -> TypeFault {
    TypeFault::new(reason, row, None)
}

/// A refusal while a function was typed.
fn in_function(reason: Reason, row: u32, function: u32) -> TypeFault {
    TypeFault::new(reason, row, Some(function))
}

fn explained(
    rt: &impl Abort,
    alloc: Global,
    session: &Session,
    fault: TypeFault,
    found: &[TypeRow],
    words: &str,
) -> Result<(), Fail> {
    let text = explain(alloc, session, &fault, found)?;
    assert!(rt; text.as_str() == words);
    Ok(())
}

fn expression(
    session: &mut Session,
    kind: u8,
    a: i64,
    b: u32,
    c: u32,
    d: u32,
) -> Result<u32, Fault> {
    session.add_expression(RawExpression { kind, a, b, c, d })
}

fn type_row(session: &mut Session, kind: u8, a: u32, b: u32) -> Result<u32, Fault> {
    session.add_type(RawType { kind, a, b })
}

/// Type rows 0 to 2: Integer, String and the empty sequence.
fn with_types(rt: &impl Abort) -> Session {
    let mut session = Session::new();
    assert!(rt; type_row(&mut session, 3, 0, 0) == Ok(0));
    assert!(rt; type_row(&mut session, 4, 0, 0) == Ok(1));
    assert!(rt; type_row(&mut session, 2, 0, 0) == Ok(2));
    session
}

/// Those types, and as expression rows 0 to 8: variable 0, if, match, sum, equality, children, call of function 0 and of function 1, "as"
/// Integer. Function 0 takes an Integer and gives a String; its body is row 0.
fn with_rows(rt: &impl Abort) -> Session {
    let mut session = with_types(rt);
    assert!(rt; expression(&mut session, 4, 0, 0, 0, 0) == Ok(0));
    assert!(rt; expression(&mut session, 8, 0, 0, 0, 0) == Ok(1));
    assert!(rt; expression(&mut session, 11, 0, 0, 0, 0) == Ok(2));
    assert!(rt; expression(&mut session, 14, 0, 0, 0, 0) == Ok(3));
    assert!(rt; expression(&mut session, 15, 0, 0, 0, 0) == Ok(4));
    assert!(rt; expression(&mut session, 18, 0, 0, 0, 0) == Ok(5));
    assert!(rt; expression(&mut session, 12, 0, 0, 0, 0) == Ok(6));
    assert!(rt; expression(&mut session, 12, 1, 0, 0, 0) == Ok(7));
    assert!(rt; expression(&mut session, 19, 0, 0, 0, 0) == Ok(8));
    assert!(rt; session.add_function(0, 1) == Ok(0));
    assert!(rt; session.set_body(0, 0) == Ok(()));
    assert!(rt; session.set_query(Query { input: 0, row: 0 }) == Ok(()));
    session
}

#[test]
fn what_is_not_set(rt: HostRuntime) -> Result<(), Fail> {
    let alloc = rt.alloc();
    let mut session = with_types(&rt);
    let fault = in_query(Reason::NotSet, 0);
    explained(&rt, alloc, &session, fault, &[], "# There is no query.\n")?;
    assert!(&rt; expression(&mut session, 7, 0, 0, 0, 0) == Ok(0));
    assert!(&rt; session.set_query(Query { input: 0, row: 0 }) == Ok(()));
    assert!(&rt; session.add_function(0, 0) == Ok(0));
    let words = "# Function 0 has no body.\n";
    explained(&rt, alloc, &session, fault, &[], words)
}

#[test]
fn contents_that_are_missing(rt: HostRuntime) -> Result<(), Fail> {
    let alloc = rt.alloc();
    let mut session = with_types(&rt);
    assert!(&rt; type_row(&mut session, 8, 0, 1) == Ok(3));
    assert!(&rt; type_row(&mut session, 6, 7, 1) == Ok(4));
    assert!(&rt; type_row(&mut session, 7, 0, 9) == Ok(5));
    let words = "# The content of type row 4 is type row 1, which is a part of type row 3.\n";
    let fault = in_query(Reason::TypeMissing, 4);
    explained(&rt, alloc, &session, fault, &[], words)?;
    let words = "# The content of type row 5 is type row 9, which is not there.\n";
    let fault = in_query(Reason::TypeMissing, 5);
    explained(&rt, alloc, &session, fault, &[], words)
}

#[test]
fn types_that_are_missing(rt: HostRuntime) -> Result<(), Fail> {
    let alloc = rt.alloc();
    let mut session = with_rows(&rt);
    let fault = in_query(Reason::TypeMissing, 0);
    assert!(&rt; session.set_query(Query { input: 3, row: 0 }) == Ok(()));
    let words = "# The type of the query's input is type row 3, which is not there.\n";
    explained(&rt, alloc, &session, fault, &[], words)?;
    assert!(&rt; type_row(&mut session, 10, 1, 0) == Ok(3));
    let words = "# The result of function 0 is type row 1, which is a part of type row 3.\n";
    explained(&rt, alloc, &session, fault, &[], words)?;
    assert!(&rt; session.add_function(7, 1) == Ok(1));
    let words = "# The parameter of function 1 is type row 7, which is not there.\n";
    let fault = in_query(Reason::TypeMissing, 1);
    explained(&rt, alloc, &session, fault, &[], words)?;
    assert!(&rt; expression(&mut session, 19, 0, 8, 0, 0) == Ok(9));
    let words = "# The type of the \"as\" in expression row 9 is type row 8, which is not there.\n";
    let fault = in_query(Reason::TypeMissing, 9);
    explained(&rt, alloc, &session, fault, &[], words)
}

#[test]
fn types_with_two_readings(rt: HostRuntime) -> Result<(), Fail> {
    let mut session = Session::new();
    assert!(&rt; type_row(&mut session, 3, 0, 0) == Ok(0));
    assert!(&rt; type_row(&mut session, 3, 0, 0) == Ok(1));
    assert!(&rt; type_row(&mut session, 9, 0, 1) == Ok(2));
    let words = "# Type row 2 can be read in two ways.\n# Type: Integer | Integer\n";
    let fault = in_query(Reason::Ambiguous, 2);
    explained(&rt, rt.alloc(), &session, fault, &[], words)
}

#[test]
fn what_is_not_there(rt: HostRuntime) -> Result<(), Fail> {
    let alloc = rt.alloc();
    let session = with_rows(&rt);
    let words = "# In function 0, expression row 0 (variable): nothing binds variable 0 there.\n";
    let fault = in_function(Reason::Unbound, 0, 0);
    explained(&rt, alloc, &session, fault, &[], words)?;
    let words = "# In the query, expression row 7 (call): there is no function 1.\n";
    let fault = in_query(Reason::NoSuchFunction, 7);
    explained(&rt, alloc, &session, fault, &[], words)?;
    let words =
        "# In the query, expression row 3 (sum): it needs one type row more than the 512 that there can be.\n";
    let fault = in_query(Reason::TypesFull, 3);
    explained(&rt, alloc, &session, fault, &[], words)
}

#[test]
fn types_of_another_kind(rt: HostRuntime) -> Result<(), Fail> {
    let alloc = rt.alloc();
    let session = with_rows(&rt);
    let found = [TypeRow::Integer, TypeRow::Repetition { part: 0 }];
    let words =
        "# In the query, expression row 1 (if): the condition has to be a Boolean.\n# Found: Integer*\n";
    let fault = in_query(Reason::WrongKind, 1);
    explained(&rt, alloc, &session, fault, &found, words)?;
    let words =
        "# In the query, expression row 2 (match): the subject has to be one item, a scalar or an element.\n# Found: Integer*\n";
    let fault = in_query(Reason::WrongKind, 2);
    explained(&rt, alloc, &session, fault, &found, words)?;
    let words =
        "# In the query, expression row 3 (sum): each side has to be an Integer.\n# Found: Integer*\n";
    let fault = in_query(Reason::WrongKind, 3);
    explained(&rt, alloc, &session, fault, &found, words)?;
    let words =
        "# In the query, expression row 5 (children): what has children has to be an element.\n";
    let fault = in_query(Reason::WrongKind, 5);
    explained(&rt, alloc, &session, fault, &[], words)
}

#[test]
fn sides_of_an_equality(rt: HostRuntime) -> Result<(), Fail> {
    let alloc = rt.alloc();
    let session = with_rows(&rt);
    let fault = in_function(Reason::WrongKind, 4, 0);
    let words =
        "# In function 0, expression row 4 (equality): each side has to be a scalar, an Integer, a String or a Boolean.\n# Found: ()\n";
    let empty = [TypeRow::EmptySequence];
    explained(&rt, alloc, &session, fault, &empty, words)?;
    let words =
        "# In function 0, expression row 4 (equality): the right side has to be of the same kind as the left side.\n# Found: Boolean\n";
    let scalar = [TypeRow::Integer, TypeRow::Boolean];
    explained(&rt, alloc, &session, fault, &scalar, words)
}

#[test]
fn types_that_do_not_fit(rt: HostRuntime) -> Result<(), Fail> {
    let alloc = rt.alloc();
    let session = with_rows(&rt);
    let words =
        "# In the query, expression row 6 (call): the argument has to fit the parameter of function 0.\n# Wanted: Integer\n# Found: Boolean\n";
    let fault = in_query(Reason::Unfit, 6);
    let found = [TypeRow::Boolean];
    explained(&rt, alloc, &session, fault, &found, words)?;
    let words =
        "# In the query, expression row 8 (as): its part has to fit the type that it names.\n# Wanted: Integer\n# Found: Boolean\n";
    let fault = in_query(Reason::Unfit, 8);
    explained(&rt, alloc, &session, fault, &found, words)?;
    let words =
        "# In function 0, expression row 0 (variable): the body has to fit the result of function 0.\n# Wanted: String\n# Found: Boolean\n";
    let fault = in_function(Reason::Unfit, 0, 0);
    explained(&rt, alloc, &session, fault, &found, words)
}

#[test]
fn a_body_that_asks_for_a_type(rt: HostRuntime) -> Result<(), Fail> {
    let alloc = rt.alloc();
    let mut session = with_rows(&rt);
    // The body of function 0 is the "as": a Boolean can only be its part, an Integer only what it is typed.
    assert!(&rt; session.set_body(0, 8) == Ok(()));
    let fault = in_function(Reason::Unfit, 8, 0);
    let words =
        "# In function 0, expression row 8 (as): its part has to fit the type that it names.\n# Wanted: Integer\n# Found: Boolean\n";
    explained(&rt, alloc, &session, fault, &[TypeRow::Boolean], words)?;
    let words =
        "# In function 0, expression row 8 (as): the body has to fit the result of function 0.\n# Wanted: String\n# Found: Integer\n";
    explained(&rt, alloc, &session, fault, &[TypeRow::Integer], words)?;
    // The body of function 1 is the call of function 0: a String may be its argument, or what it is typed.
    assert!(&rt; session.add_function(0, 2) == Ok(1));
    assert!(&rt; session.set_body(1, 6) == Ok(()));
    let fault = in_function(Reason::Unfit, 6, 1);
    let words =
        "# In function 1, expression row 6 (call): the argument has to fit the parameter of function 0.\n# Wanted: Integer\n# Or else: the body has to fit the result of function 1.\n# Wanted: ()\n# Found: String\n";
    explained(&rt, alloc, &session, fault, &[TypeRow::String], words)
}

#[test]
fn numbers_of_other_calls(rt: HostRuntime) -> Result<(), Fail> {
    let words = "# In the query, expression row 7 (none): it is refused by number 11.\n";
    let fault = in_query(Reason::TableFull, 7);
    explained(&rt, rt.alloc(), &Session::new(), fault, &[], words)
}
