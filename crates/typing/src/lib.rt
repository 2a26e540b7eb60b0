#![tactic(auto)]

mod answer;
mod fault;

pub use answer::QueryType;
pub use fault::TypeFault;
