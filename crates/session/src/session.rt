use crate::program::Program;
use crate::type_table::TypeTable;

/// Whether a check stands, with the type rows that it made behind the declared ones.
#[derive(Clone, Copy, PartialEq, Eq, Debug)]
pub enum Phase {
    Open,
    Checked,
}

/// The rows that a query is built from.
#[derive(Drop)]
pub struct Session {
    pub(crate) phase: Phase,
    pub(crate) types: TypeTable,
    pub(crate) program: Program,
}
