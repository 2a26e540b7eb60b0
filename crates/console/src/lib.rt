#![tactic(auto)]

mod lines;
mod on_session;
mod on_types;

pub use lines::answer_line;
pub use on_session::perform_on_session;
pub use on_types::perform_on_types;
