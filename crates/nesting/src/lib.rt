#![tactic(auto)]

mod level;
mod nesting;

pub use nesting::{MAX_NESTING, nested_too_deep};
