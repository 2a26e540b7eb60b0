#![tactic(auto)]

mod capture;
mod event;
mod load;
mod place;
mod store;

pub use capture::Capture;
pub use event::{Event, Switch};
