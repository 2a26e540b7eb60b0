#![tactic(auto)]

mod alive;
mod asking;
mod build;
mod determinism;
mod ending;
mod ends;
mod flags;
mod giving;
mod lasts;
mod live;
mod moves;
mod next;
mod nullable;
mod tables;
mod tops;

pub use asking::{ask, is_one_way};
pub use flags::Flags;
pub use moves::Moves;
pub use tables::Positions;
