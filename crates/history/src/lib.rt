#![tactic(auto)]

mod call;
mod calls;

pub use call::Call;
pub use calls::replay;
