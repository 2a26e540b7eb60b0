ghost use Rattle.std.specs.Prelude.{◌≡◌, ◌++◌, length, drop};
ghost use Rattle.session.specs.Calls.{tables, empty_tables, applied, answered};
ghost use Rattle.history.specs.Calls.{change_of, made, ran, replies};
ghost use Rattle.history.specs.History.{after};

use crate::call::Call;
use forest::Fault;
use session::Session;

/// Makes the calls on a new session, one for each place of the answers, and answers them there.
pub fn replay(calls: &[Call<'_>], answers: &mut [Result<u32, Fault>]) -> Session
    ensures answers { answers.new ≡ replies empty_tables (made calls.now answers.old) ++ drop (length calls.now) answers.old }
    ensures session { tables result ≡ ran empty_tables (made calls.now answers.old) }
    ensures law { tables result ≡ after (made calls.now answers.old) answers.new }
{
    let mut session = Session::new();
    let count = calls.len().min(answers.len());
    // Answers are written by their places: of a zipped `iter_mut` no proof knows what was written.
    for (index, call) in calls[..count].iter().enumerate() {
        answers[index] = apply(&mut session, call);
    }
    session
}

/// Makes one call. One that answers no place answers 0.
fn apply(session: &mut Session, call: &Call<'_>) -> Result<u32, Fault>
    ensures { (result, tables session.new) ≡ applied (tables session.old) (change_of call.now) }
{
    match *call {
        Call::Clear => {
            session.clear();
            Ok(0)
        }
        Call::AddText { text } => session.add_text(text),
        Call::AddType(row) => session.add_type(row),
        Call::AddFunction { parameter, result } => session.add_function(parameter, result),
        Call::AddArm(arm) => session.add_arm(arm),
        Call::AddExpression(row) => session.add_expression(row),
        Call::SetBody { function, row } => placeless(session.set_body(function, row)),
        Call::SetQuery(query) => placeless(session.set_query(query)),
    }
}

/// The answer of a call that answers no place: 0 where it was accepted.
fn placeless(answer: Result<(), Fault>) -> Result<u32, Fault>
    ensures { result ≡ answered answer }
{
    answer.map(|()| 0)
}
