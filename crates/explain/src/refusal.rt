use crate::comments::add_line;
use crate::titles::title;
use crate::type_text::write_type;
use forest::Reason;
use rows::{Expression, TypeRow};
use session::Session;
use std::alloc::{AllocError, Global};
use typing::TypeFault;

/// A check that was refused: the session, the fault, and the type rows that were there when it stopped.
#[derive(Clone, Copy)]
pub(crate) struct Refusal<'a> {
    pub(crate) session: &'a Session,
    pub(crate) fault: TypeFault,
    pub(crate) found: &'a [TypeRow],
}

impl Refusal<'_> {
    pub(crate) fn reason(&self) -> Reason {
        self.fault.fault.reason
    }

    /// The row that is to blame.
    pub(crate) fn row(&self) -> u32 {
        self.fault.fault.row
    }

    /// The expression of that row.
    pub(crate) fn expression(&self) -> Option<Expression> {
        self.session.expression(self.row())
    }

    /// Where typing was: the function, if one was being typed, the expression row and its kind.
    pub(crate) fn place(&self, alloc: Global) -> Result<String, AllocError> {
        let row = self.row();
        let title = self.expression().map_or("none", title);
        match self.fault.function {
            Some(function) => {
                format!(in alloc; "In function {function}, expression row {row} ({title})")
            }
            None => format!(in alloc; "In the query, expression row {row} ({title})"),
        }
    }

    /// The type row that was made last: the type of the part that was typed last.
    pub(crate) fn last_row(&self) -> Option<TypeRow> {
        self.found.last().copied()
    }

    /// The type that was found, in words: that of the row that was made last.
    pub(crate) fn found_type(&self, alloc: Global) -> Result<Option<String>, AllocError> {
        let count = u32::try_from(self.found.len()).unwrap_or(u32::MAX);
        match count.checked_sub(1) {
            Some(last) => write_type(alloc, self.found, last).map(Some),
            None => Ok(None),
        }
    }

    /// Adds the type that was found, if there is one.
    pub(crate) fn add_found(
        &self,
        alloc: Global,
        lines: &mut Vec<String>,
    ) -> Result<(), AllocError> {
        match self.found_type(alloc)? {
            Some(found) => add_line(lines, format!(in alloc; "Found: {found}")?),
            None => Ok(()),
        }
    }

    /// A declared type, in words.
    pub(crate) fn declared_type(&self, alloc: Global, row: u32) -> Result<String, AllocError> {
        write_type(alloc, self.session.declared_types().as_slice(), row)
    }
}
