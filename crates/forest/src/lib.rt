#![tactic(auto)]

mod failure;
mod fault;
mod kind;
mod ranges;
mod space;
mod store;

pub use failure::Failure;
pub use fault::{Fault, Reason};
pub use kind::Kind;
pub use ranges::{
    boolean_in_range, handles_in_range, integer_in_range, refuse_without_space, tag_in_range,
};
pub use space::Space;
pub use store::Store;
