//! Patterns as a table of numbered nodes, and the ends of primitive patterns.
//!
//! `table` has the builders and the look-ups, and `kind` is what it stores of a node; `shape` shows the head of a
//! pattern, and `head` what it comes to at a cursor. `argument` is what a primitive takes: a count or a set of bytes
//! (`byte_set`). `ends` says where a primitive ends behind a cursor, by `counts`, `sets` and `balance` (with its
//! `balance_table`), and `places` where the next end is; `first_bytes` are the bytes with which it begins. `looks` keeps
//! what the looks through one subject have found out, `present` which bytes stand in its parts, `comparisons` how far long
//! texts agreed with it (by `agreement`), and `lanes` looks at 32 bytes at a time. `spellings` keeps the lists that sets
//! were made of.
#![tactic(auto)]

mod agreement;
mod argument;
mod balance;
mod balance_table;
mod byte_set;
mod comparisons;
mod counts;
mod ends;
mod first_bytes;
mod head;
mod kind;
mod lanes;
mod looks;
mod more_runs;
mod numbers;
mod places;
mod present;
mod sets;
mod shape;
mod spellings;
mod table;

pub use argument::Arg;
pub use byte_set::ByteSet;
pub use first_bytes::Beginning;
pub use head::Head;
pub use lanes::{first_in, first_not_in};
pub use looks::Looks;
pub use places::place_in_set;
pub use shape::Shape;
pub use sno_value::{ExprId, Name, PatId, Prim};
pub use table::{BuildError, Patterns};
