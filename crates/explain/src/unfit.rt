use crate::comments::add_line;
use crate::refusal::Refusal;
use rows::{Expression, Function};
use std::alloc::{AllocError, Global};

/// What a type has to fit.
#[derive(Clone, Copy)]
enum Wanted {
    Parameter { function: u32 },
    Target,
    Result { function: u32 },
}

/// That the type of a part has to fit a root; the row that asks for it is then typed a copy of another.
#[derive(Clone, Copy)]
struct Fit {
    wanted: Wanted,
    root: u32,
    copied: u32,
}

/// Adds which type was found and which it has to fit.
pub(crate) fn add_unfit(
    alloc: Global,
    refusal: &Refusal<'_>,
    lines: &mut Vec<String>,
) -> Result<(), AllocError> {
    let place = refusal.place(alloc)?;
    match (fit_of_part(refusal), fit_of_body(refusal)) {
        (None, None) => add_line(lines, format!(in alloc; "{place}: a type does not fit.")?)?,
        (Some(fit), None) | (None, Some(fit)) => fit.add(alloc, refusal, &place, lines)?,
        (Some(part), Some(body)) => match failing(alloc, refusal, part, body)? {
            Some(fit) => fit.add(alloc, refusal, &place, lines)?,
            None => {
                part.add(alloc, refusal, &place, lines)?;
                body.add(alloc, refusal, "Or else", lines)?;
            }
        },
    }
    refusal.add_found(alloc, lines)
}

/// What the row's part has to fit, where the row is a call or an "as".
fn fit_of_part(refusal: &Refusal<'_>) -> Option<Fit> {
    match refusal.expression()? {
        Expression::Call { function, .. } => {
            let callee = refusal.session.function(function)?;
            Some(Fit {
                wanted: Wanted::Parameter { function },
                root: callee.parameter,
                copied: callee.result,
            })
        }
        Expression::As { target, .. } => Some(Fit {
            wanted: Wanted::Target,
            root: target,
            copied: target,
        }),
        _ => None,
    }
}

/// What the row has to fit, where it is the body of the function that was being typed.
fn fit_of_body(refusal: &Refusal<'_>) -> Option<Fit> {
    let function = refusal.fault.function?;
    let Function { result, body, .. } = refusal.session.function(function)?;
    if body != Some(refusal.row()) {
        return None;
    }
    Some(Fit {
        wanted: Wanted::Result { function },
        root: result,
        copied: result,
    })
}

/// Which of both does not fit, where the types tell: if the body does not, then what was found is a copy of what the row is typed; if
/// the part does not, then it is not the very type that it has to fit.
fn failing(
    alloc: Global,
    refusal: &Refusal<'_>,
    part: Fit,
    body: Fit,
) -> Result<Option<Fit>, AllocError> {
    let Some(found) = refusal.found_type(alloc)? else {
        return Ok(None);
    };
    let copied = refusal.declared_type(alloc, part.copied)?;
    let wanted = refusal.declared_type(alloc, part.root)?;
    let whole = !found.as_bytes().contains(&b'.');
    if found != copied {
        Ok(Some(part))
    } else if whole && found == wanted {
        Ok(Some(body))
    } else {
        Ok(None)
    }
}

impl Fit {
    /// Adds what has to fit what, and the type that is wanted.
    fn add(
        self,
        alloc: Global,
        refusal: &Refusal<'_>,
        place: &str,
        lines: &mut Vec<String>,
    ) -> Result<(), AllocError> {
        let demand = match self.wanted {
            Wanted::Parameter { function } => {
                format!(in alloc; "the argument has to fit the parameter of function {function}")?
            }
            Wanted::Target => format!(in alloc; "its part has to fit the type that it names")?,
            Wanted::Result { function } => {
                format!(in alloc; "the body has to fit the result of function {function}")?
            }
        };
        let wanted = refusal.declared_type(alloc, self.root)?;
        add_line(lines, format!(in alloc; "{place}: {demand}.")?)?;
        add_line(lines, format!(in alloc; "Wanted: {wanted}")?)
    }
}
