#![tactic(auto)]

mod output;
mod printer;
mod refusal;
mod stop;
mod text;

pub use output::print;
pub use refusal::LAYER;
