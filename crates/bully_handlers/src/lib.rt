//! A node's vector, and what each of the five remote calls does to it and answers.
//!
//! It builds on bully_base, bully_table and bully_calls. The crates above rely on two things: each handler is its
//! definition, and every other writer changes only the fields that it names.
#![tactic(auto)]

mod vector;

pub use vector::Vector;
