#![tactic(auto)]

mod append;
mod arena;
mod make;
mod open;
mod read;
mod renew;
mod row;

pub use arena::Arena;
pub use row::{Row, Span};
