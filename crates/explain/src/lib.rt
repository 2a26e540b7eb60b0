#![tactic(auto)]

mod comments;
mod demands;
mod explanation;
mod missing;
mod refusal;
mod titles;
mod type_text;
mod unfit;

pub use explanation::explain;
pub use type_text::write_type;
