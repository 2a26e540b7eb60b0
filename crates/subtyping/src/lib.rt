#![tactic(auto)]

mod asking;
mod ends;
mod pairs;
mod places;
mod search;
mod worklist;

pub use asking::fits;
pub use search::is_subtype;
