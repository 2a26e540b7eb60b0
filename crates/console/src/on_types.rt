ghost use Rattle.std.specs.Prelude.{◌≡◌};
ghost use Rattle.script.specs.Calls.{asked_types};
ghost use Rattle.session.specs.Calls.{tables};
ghost use Rattle.answers.specs.Answers.{said};
ghost use Rattle.probe.specs.Probes.{state};
ghost use Rattle.console.specs.OnTypes.{Told, yes_or_fault};

use answers::Answer;
use forest::Fault;
use positions::is_one_way;
use probe::Probe;
use script::TypeCall;
use session::Session;
use std::alloc::Global;
use subtyping::fits;

/// Performs a call on the declared types of a session, which changes nothing. Input to be validated is of the store.
// Never inlined: the tables of a question about types take some 230 KB of stack, which each line of a script, whatever it asks, would take.
#[inline(never)]
pub fn perform_on_types(alloc: Global, session: &Session, probe: &Probe, call: &TypeCall) -> Answer
    ensures { Told (asked_types call.now) (tables session.now).types (state probe.now).meaning.trees (said result) }
{
    let types = session.declared_types();
    match call {
        TypeCall::OneWay { row } => yes_or_no(is_one_way(types, *row)),
        TypeCall::Fits { row, root } => yes_or_no(fits(types, *row, *root)),
        TypeCall::Validate { root, handles } => probe
            .validate(alloc, types, *root, handles)
            .map_or_else(Answer::from, |()| Answer::Done),
    }
}

/// 1 for yes and 0 for no, or the refusal.
fn yes_or_no(told: Result<bool, Fault>) -> Answer
    ensures { said result ≡ yes_or_fault told }
{
    told.map_or_else(Answer::from, |yes| Answer::Number(yes.into()))
}
