//! Whether the forest of some handles of a store belongs to a root of a table of types.
#![tactic(auto)]

mod marks;
mod matching;
mod reading;
mod validating;
mod walk;

pub use validating::validate;
