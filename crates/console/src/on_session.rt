ghost use Rattle.script.specs.Calls.{asked_session};
ghost use Rattle.session.specs.Calls.{tables};
ghost use Rattle.answers.specs.Answers.{said};
ghost use Rattle.console.specs.OnSession.{Answered, TagsTold, numbers_or_failure};

use answers::Answer;
use forest::Failure;
use script::SessionCall;
use session::Session;
use std::alloc::Global;
use typing::{QueryType, TypeFault};

/// No session names more tags: one for each expression row and each arm.
const MOST_TAGS: u32 = 640;

/// Performs a call on a session.
pub fn perform_on_session(alloc: Global, session: &mut Session, call: &SessionCall) -> Answer
    ensures { Answered (asked_session call.now) (tables session.old) (said result) (tables session.new) }
{
    match call {
        SessionCall::Text(bytes) => session.add_text(bytes).into(),
        SessionCall::Type(row) => session.add_type(*row).into(),
        SessionCall::Function { parameter, result } => {
            session.add_function(*parameter, *result).into()
        }
        SessionCall::Arm(arm) => session.add_arm(*arm).into(),
        SessionCall::Expression(row) => session.add_expression(*row).into(),
        SessionCall::Body { function, row } => session.set_body(*function, *row).into(),
        SessionCall::Query(query) => session.set_query(*query).into(),
        SessionCall::Check => match session.check() {
            Ok(QueryType { row, made, .. }) => Answer::Checked { row, made },
            Err(TypeFault { fault, function }) => Answer::CheckRefused { fault, function },
        },
        SessionCall::Tags { places } => {
            list_tags(alloc, session, *places).map_or_else(Answer::from, Answer::Numbers)
        }
        SessionCall::Clear => {
            session.clear();
            Answer::Done
        }
    }
}

/// The number of tags that the session names and then the tags, rising.
fn list_tags(alloc: Global, session: &Session, places: u32) -> Result<Vec<u32>, Failure>
    ensures { TagsTold (tables session.now).program places (numbers_or_failure result) }
{
    let mut tags = vec![in alloc; 0u32; places.min(MOST_TAGS) as usize]?;
    let count = session.tags(&mut tags).map_err(Failure::Refused)?;
    tags.truncate(count as usize);
    tags.sort_unstable();
    tags.insert(0, count)?;
    Ok(tags)
}
