mod check;
mod copying;
mod expressions;
mod fitting;
mod functions;
mod guard;
mod joining;
mod kinds;
mod leaves;
mod making;
mod operator;
mod readiness;
mod refused;
mod scope;
mod spot;

pub use refused::Refused;
