#![tactic(auto)]

mod bytes;
mod field;
mod lists;
mod numbers;
mod pieces;
mod read_error;
mod rows;

pub use bytes::read_bytes;
pub use field::Field;
pub use lists::{read_all, read_number_list, read_row_list};
pub use pieces::split;
pub use read_error::ReadError;
