use crate::stop::Stop;
use explain::explain;
use session::Session;
use std::alloc::Global;
use std::io::Write;

/// Writes why a check of the session is refused, a comment to a line, or nothing if it is accepted.
pub fn write_reasons<W: Write>(
    alloc: Global,
    session: &Session,
    output: &mut W,
) -> Result<(), Stop> {
    let Some(refused) = session.refused() else {
        return Ok(());
    };
    let words = explain(alloc, session, &refused.fault, refused.rows())?;
    output.write_all(words.as_bytes())?;
    Ok(())
}
