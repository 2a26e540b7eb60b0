use rows::{Query, RawArm, RawExpression, RawType};

/// A call of a session, with what it is given.
// A script's `SessionCall` is another type: it owns its text, and has `Tags`, which changes nothing. A history lends its texts.
#[derive(Clone, Copy, PartialEq, Eq, Debug)]
pub enum Call<'a> {
    Clear,
    AddText { text: &'a [u8] },
    AddType(RawType),
    AddFunction { parameter: u32, result: u32 },
    AddArm(RawArm),
    AddExpression(RawExpression),
    SetBody { function: u32, row: u32 },
    SetQuery(Query),
}
