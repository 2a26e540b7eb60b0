#![tactic(auto)]

#[cfg(test)]
mod tests {
    use answers::{Answer, write_answer};
    use forest::{Fault, Reason, Space};
    use rows::{Query, RawArm, RawExpression, RawType};
    use script::{Call, Reading, SessionCall, StoreCall, TypeCall, read_call};
    use std::alloc::Global;
    use std::process::Abort;
    use std::test::Fail;
    use table::RawRow;

    // The runtime and the allocator are passed on and not kept in a struct, as everywhere.

    fn silent(rt: &impl Abort, alloc: Global, line: &[u8]) -> Result<(), Fail> {
        assert!(rt; read_call(alloc, line)? == Reading::Silent);
        Ok(())
    }

    fn malformed(rt: &impl Abort, alloc: Global, line: &[u8]) -> Result<(), Fail> {
        assert!(rt; read_call(alloc, line)? == Reading::Malformed);
        Ok(())
    }

    fn on_store(rt: &impl Abort, alloc: Global, line: &[u8], call: StoreCall) -> Result<(), Fail> {
        assert!(rt; read_call(alloc, line)? == Reading::Call(Call::Store(call)));
        Ok(())
    }

    fn on_session(
        rt: &impl Abort,
        alloc: Global,
        line: &[u8],
        call: SessionCall,
    ) -> Result<(), Fail> {
        assert!(rt; read_call(alloc, line)? == Reading::Call(Call::Session(call)));
        Ok(())
    }

    fn on_types(rt: &impl Abort, alloc: Global, line: &[u8], call: TypeCall) -> Result<(), Fail> {
        assert!(rt; read_call(alloc, line)? == Reading::Call(Call::Types(call)));
        Ok(())
    }

    fn answered(rt: &impl Abort, alloc: Global, answer: Answer, line: &[u8]) -> Result<(), Fail> {
        let written = write_answer(alloc, 7, b"print", &answer)?;
        assert!(rt; written.as_slice() == line);
        Ok(())
    }

    #[test]
    fn silent_lines(rt: HostRuntime) -> Result<(), Fail> {
        silent(&rt, rt.alloc(), b"")?;
        silent(&rt, rt.alloc(), b"#")?;
        silent(&rt, rt.alloc(), b"# tray 1 2 3")
    }

    #[test]
    fn store_calls(rt: HostRuntime) -> Result<(), Fail> {
        let alloc = rt.alloc();
        on_store(&rt, alloc, b"space", StoreCall::Space)?;
        on_store(
            &rt,
            alloc,
            b"integer -9223372036854775808",
            StoreCall::Integer(i64::MIN),
        )?;
        on_store(
            &rt,
            alloc,
            b"boolean 4294967295",
            StoreCall::Boolean(u32::MAX),
        )?;
        on_store(
            &rt,
            alloc,
            b"tray 1 002 3",
            StoreCall::Tray(Space {
                trees: 1,
                children: 2,
                bytes: 3,
            }),
        )?;
        on_store(
            &rt,
            alloc,
            b"capture 00fF",
            StoreCall::Capture(Vec::from_slice(alloc, b"\x00\xff")?),
        )?;
        on_store(
            &rt,
            alloc,
            b"element 9",
            StoreCall::Element {
                tag: 9,
                children: Vec::new(alloc),
            },
        )
    }

    #[test]
    fn table_call(rt: HostRuntime) -> Result<(), Fail> {
        let alloc = rt.alloc();
        let leaf = RawRow {
            kind: 3,
            tag: 0,
            from: 0,
            length: 0,
            value: -5,
        };
        let element = RawRow {
            kind: 6,
            tag: 2,
            from: 0,
            length: 1,
            value: 0,
        };
        on_store(
            &rt,
            alloc,
            b"table 3,0,0,0,-5;6,2,0,1,0 0,1 -",
            StoreCall::Table {
                rows: vec![in alloc; leaf, element]?,
                children: vec![in alloc; 0, 1]?,
                text: Vec::new(alloc),
            },
        )
    }

    #[test]
    fn session_calls(rt: HostRuntime) -> Result<(), Fail> {
        let alloc = rt.alloc();
        on_session(&rt, alloc, b"clear", SessionCall::Clear)?;
        on_session(&rt, alloc, b"text -", SessionCall::Text(Vec::new(alloc)))?;
        on_session(
            &rt,
            alloc,
            b"type 255 1 2",
            SessionCall::Type(RawType {
                kind: 255,
                a: 1,
                b: 2,
            }),
        )?;
        on_session(
            &rt,
            alloc,
            b"function 3 4",
            SessionCall::Function {
                parameter: 3,
                result: 4,
            },
        )?;
        on_session(
            &rt,
            alloc,
            b"arm 1 65536 4294967295",
            SessionCall::Arm(RawArm {
                kind: 1,
                tag: 65_536,
                body: u32::MAX,
            }),
        )?;
        on_session(
            &rt,
            alloc,
            b"query 5 6",
            SessionCall::Query(Query { input: 5, row: 6 }),
        )
    }

    #[test]
    fn expression_call(rt: HostRuntime) -> Result<(), Fail> {
        let alloc = rt.alloc();
        on_session(
            &rt,
            alloc,
            b"expression 17 -1 2 3 4",
            SessionCall::Expression(RawExpression {
                kind: 17,
                a: -1,
                b: 2,
                c: 3,
                d: 4,
            }),
        )?;
        malformed(&rt, alloc, b"expression 17 1 -2 3 4")?;
        malformed(&rt, alloc, b"expression 17 9223372036854775808 2 3 4")?;
        malformed(&rt, alloc, b"expression 17 1 2 3")
    }

    #[test]
    fn type_calls(rt: HostRuntime) -> Result<(), Fail> {
        let alloc = rt.alloc();
        on_types(&rt, alloc, b"oneway 12", TypeCall::OneWay { row: 12 })?;
        on_types(
            &rt,
            alloc,
            b"fits 4294967295 006",
            TypeCall::Fits {
                row: u32::MAX,
                root: 6,
            },
        )?;
        on_types(
            &rt,
            alloc,
            b"validate 7",
            TypeCall::Validate {
                root: 7,
                handles: Vec::new(alloc),
            },
        )?;
        on_types(
            &rt,
            alloc,
            b"validate 7 19 0 19",
            TypeCall::Validate {
                root: 7,
                handles: vec![in alloc; 19, 0, 19]?,
            },
        )
    }

    #[test]
    fn malformed_type_calls(rt: HostRuntime) -> Result<(), Fail> {
        let alloc = rt.alloc();
        malformed(&rt, alloc, b"oneway")?;
        malformed(&rt, alloc, b"oneway 1 2")?;
        malformed(&rt, alloc, b"fits 1")?;
        malformed(&rt, alloc, b"fits 1 4294967296")?;
        malformed(&rt, alloc, b"validate")?;
        malformed(&rt, alloc, b"validate 1 -")
    }

    #[test]
    fn malformed_lines(rt: HostRuntime) -> Result<(), Fail> {
        let alloc = rt.alloc();
        malformed(&rt, alloc, b"spaces")?;
        malformed(&rt, alloc, b"space 1")?;
        malformed(&rt, alloc, b" space")?;
        malformed(&rt, alloc, b"tray 1  2 3")?;
        malformed(&rt, alloc, b"boolean 4294967296")?;
        malformed(&rt, alloc, b"capture 0")?;
        malformed(&rt, alloc, b"type 256 1 2")?;
        malformed(&rt, alloc, b"tags")?;
        malformed(&rt, alloc, b"clear ")
    }

    #[test]
    fn answer_lines(rt: HostRuntime) -> Result<(), Fail> {
        let alloc = rt.alloc();
        let fault = Fault {
            reason: Reason::NoSuchHandle,
            layer: 4,
            row: 0,
        };
        answered(
            &rt,
            alloc,
            Answer::Numbers(vec![in alloc; 1, 20]?),
            b"7 print ok 1 20",
        )?;
        answered(
            &rt,
            alloc,
            Answer::Printed(Vec::from_slice(alloc, b"<a/>")?),
            b"7 print ok 4 <a/>",
        )?;
        answered(
            &rt,
            alloc,
            Answer::Refused(fault),
            b"7 print refused 33 4 0",
        )?;
        let ambiguous = Fault {
            reason: Reason::Ambiguous,
            layer: 2,
            row: 511,
        };
        answered(
            &rt,
            alloc,
            Answer::Refused(ambiguous),
            b"7 print refused 23 2 511",
        )?;
        answered(&rt, alloc, Answer::Malformed, b"7 ? malformed")?;
        answered(&rt, alloc, Answer::Unsupported, b"7 print unsupported")
    }
}
