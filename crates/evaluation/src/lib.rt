//! The rules by which a query runs, and what holds of every run: definitions and their proofs, which contracts of other crates cite.
#![tactic(auto)]
