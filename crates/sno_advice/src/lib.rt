//! Advice on a program: warnings of one that is accepted, the reason why one is refused, and what an error is, by its
//! number.
//!
//! `warnings` rest on `survey`, `definitions`, `uses` and `loops`. `refused` and `fault` find the place of what is wrong
//! with a program that is refused, and `reasons` its reason. `explained` has a paragraph on each error, and `asked` finds
//! the names that it may be of. `cards` tells what a line is.
#![tactic(auto)]

mod asked;
mod cards;
mod definitions;
mod explained;
mod fault;
mod furthest;
mod loops;
mod names;
mod reasons;
mod refused;
mod survey;
mod uses;
mod warnings;
mod words;

pub use asked::{explain, push_names};
pub use cards::{is_closed, is_continuation, is_skipped};
pub use explained::explanation;
pub use fault::{Fault, find_fault};
pub use refused::{Beginning, completed, find_beginning, up_to};
pub use survey::{count_statements, digits_of};
pub use warnings::{Warnings, warn};
