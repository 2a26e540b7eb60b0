#![tactic(auto)]

mod items;
mod roots;
mod type_rows;

pub use items::{cover, overlap};
pub use roots::content;
pub use type_rows::TypeRows;
