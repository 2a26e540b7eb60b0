//! Bits kept 64 to a word, in a slice of words, and relations that are kept so.
#![tactic(auto)]

mod items;
mod places;
mod relation;
mod rows;
mod search;

pub use items::Items;
pub use places::{has, insert, remove};
pub use relation::Relation;
pub use rows::unite;
pub use search::next;
