ghost use Rattle.std.specs.Prelude.{◌≡◌, IfOk, vec_items};
ghost use Rattle.std.specs.Option.{option_map};
ghost use Rattle.script.specs.Lines.{read_line};
ghost use Rattle.session.specs.Calls.{tables};
ghost use Rattle.answers.specs.Answers.{said};
ghost use Rattle.probe.specs.Probes.{state};
ghost use Rattle.console.specs.Lines.{Replies, Does};
ghost use Rattle.script.specs.Calls.{asked};

use crate::on_session::perform_on_session;
use crate::on_types::perform_on_types;
use answers::{Answer, write_answer};
use probe::Probe;
use script::{Call, Reading, read_call};
use session::Session;
use std::alloc::{AllocError, Global};

/// Reads a line of a script, performs its call on the session, the store or the session's types, and gives the text that answers it, if it is answered.
// The session is lent, and the probe is passed on, since a call may put another store in its place: a struct of both would be passed
// on too, and each line would copy the session's tables.
pub fn answer_line(
    alloc: Global,
    session: &mut Session,
    probe: Probe,
    number: u64,
    line: &[u8],
) -> Result<(Probe, Option<Vec<u8>>), AllocError>
    ensures { IfOk result (λ p. Replies number (read_line line.now) (record { rows = tables session.old; store = state probe }) (option_map vec_items p.1) (record { rows = tables session.new; store = state p.0 })) }
{
    match read_call(alloc, line)? {
        Reading::Silent => Ok((probe, None)),
        Reading::Malformed => {
            let text = write_answer(alloc, number, b"", &Answer::Malformed)?;
            Ok((probe, Some(text)))
        }
        Reading::Call(call) => {
            let (next, answer) = perform(alloc, session, probe, &call);
            let text = write_answer(alloc, number, call.word().as_bytes(), &answer)?;
            Ok((next, Some(text)))
        }
    }
}

/// Performs a call on the store, on the session or on its types.
fn perform(alloc: Global, session: &mut Session, probe: Probe, call: &Call) -> (Probe, Answer)
    ensures { Does (asked call.now) (record { rows = tables session.old; store = state probe }) (said result.1) (record { rows = tables session.new; store = state result.0 }) }
{
    match call {
        Call::Store(call) => probe.perform(alloc, call),
        Call::Session(call) => (probe, perform_on_session(alloc, session, call)),
        Call::Types(call) => {
            let answer = perform_on_types(alloc, session, &probe, call);
            (probe, answer)
        }
    }
}
