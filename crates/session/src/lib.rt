#![tactic(auto)]

mod calls;
mod checking;
mod counts;
mod function_table;
mod program;
mod reading;
mod session;
mod table;
mod tags;
mod type_table;

pub use checking::Refused;
pub use counts::Counts;
pub use function_table::FunctionTable;
pub use program::Program;
pub use session::{Phase, Session};
pub use type_table::TypeTable;
