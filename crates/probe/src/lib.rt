#![tactic(auto)]

mod calls;
mod pile;
mod probe;

pub use calls::perform;
pub use pile::Pile;
pub use probe::Probe;
