#![tactic(auto)]

mod overlay;

pub use overlay::Overlay;
