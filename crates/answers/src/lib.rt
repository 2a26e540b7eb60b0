#![tactic(auto)]

mod answer;
mod writer;

pub use answer::Answer;
pub use writer::write_answer;
