#![tactic(auto)]

mod load;
mod row;
mod table;

pub use row::{NoRow, RawRow};
pub use table::Table;
