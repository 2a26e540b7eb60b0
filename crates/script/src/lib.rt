#![tactic(auto)]

mod call;
mod forms;
mod line;
mod reading;
mod session_forms;
mod type_forms;

pub use call::{Call, SessionCall, StoreCall, TypeCall};
pub use line::read_call;
pub use reading::Reading;
