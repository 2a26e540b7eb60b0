ghost use Rattle.std.specs.Prelude.{IfOk, string_bytes};
ghost use Rattle.explain.specs.Comments.{Comments};

use crate::comments::{add_line, commented};
use crate::demands::demand;
use crate::missing::missing_type;
use crate::refusal::Refusal;
use crate::unfit::add_unfit;
use forest::Reason;
use rows::{Expression, TypeRow};
use session::Session;
use std::alloc::{AllocError, Global};
use typing::TypeFault;

/// Why a check was refused, in words for people, a line or more. `found` is the table of type rows as it was when the check stopped: its last
/// row is the type of the part that was typed last. It is proved that the text begins as a comment and ends a line; what the lines say is tested and not proved.
pub fn explain(
    alloc: Global,
    session: &Session,
    fault: &TypeFault,
    found: &[TypeRow],
) -> Result<String, AllocError>
    ensures { IfOk result (λ text. Comments (string_bytes text)) }
{
    let refusal = Refusal {
        session,
        fault: *fault,
        found,
    };
    let mut lines = Vec::new(alloc);
    add_lines(alloc, &refusal, &mut lines)?;
    commented(alloc, &lines)
}

/// Adds the lines that say why the check was refused.
fn add_lines(
    alloc: Global,
    refusal: &Refusal<'_>,
    lines: &mut Vec<String>,
) -> Result<(), AllocError> {
    let row = refusal.row();
    match refusal.reason() {
        Reason::NotSet => add_line(lines, not_set(alloc, refusal)?),
        Reason::TypeMissing => add_line(lines, missing_type(alloc, refusal.session, row)?),
        Reason::Ambiguous => {
            let text = refusal.declared_type(alloc, row)?;
            add_line(
                lines,
                format!(in alloc; "Type row {row} can be read in two ways.")?,
            )?;
            add_line(lines, format!(in alloc; "Type: {text}")?)
        }
        Reason::WrongKind => {
            let place = refusal.place(alloc)?;
            let demand = demand(refusal.expression(), refusal.last_row());
            add_line(lines, format!(in alloc; "{place}: {demand}.")?)?;
            refusal.add_found(alloc, lines)
        }
        Reason::Unfit => add_unfit(alloc, refusal, lines),
        reason => {
            let place = refusal.place(alloc)?;
            let lack = lack(alloc, reason, refusal.expression())?;
            add_line(lines, format!(in alloc; "{place}: {lack}.")?)
        }
    }
}

/// What is not set: the query, or the body of a function.
fn not_set(alloc: Global, refusal: &Refusal<'_>) -> Result<String, AllocError> {
    let row = refusal.row();
    match refusal.session.query() {
        None => format!(in alloc; "There is no query."),
        Some(_) => format!(in alloc; "Function {row} has no body."),
    }
}

/// What an expression needs that is not there.
fn lack(
    alloc: Global,
    reason: Reason,
    expression: Option<Expression>,
) -> Result<String, AllocError> {
    match (reason, expression) {
        (Reason::Unbound, Some(Expression::Variable { number })) => {
            format!(in alloc; "nothing binds variable {number} there")
        }
        (Reason::NoSuchFunction, Some(Expression::Call { function, .. })) => {
            format!(in alloc; "there is no function {function}")
        }
        (Reason::TypesFull, _) => {
            format!(in alloc; "it needs one type row more than the 512 that there can be")
        }
        (reason, _) => {
            let number = u8::from(reason);
            format!(in alloc; "it is refused by number {number}")
        }
    }
}
