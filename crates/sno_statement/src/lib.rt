//! Statements: what each does, and where it goes on.
//!
//! A program's `code` is what is known of it before its first statement begins: what its statements do and where they
//! go on (`steps`, `targets`), and the instructions of each expression, which `sno_expression` makes. `perform` does
//! one statement and finds the next one (`gotos`); `statements` does the parts of one, and `naming` finds what its subject
//! names. `evaluation` gives the value of an expression, by a loop over `instructions` and a list of values where `unlisted`
//! and `operands` can't do without, `patterns` that of one which mostly makes a pattern, and `made` calls the functions
//! that the program has made; `held` is what variables hold. `matching` finds the first way of a match, directly or by a
//! search, `deferred` and `answers` give that what its deferred parts stand for (`string_nodes` keeps those for long strings),
//! and `replacement` puts a text in the place of what matched. `longer` and `growing` put behind a long string what is
//! joined to it. How a call of a function that the program defines is done comes from above (`calls`), since it performs
//! statements in its turn.
#![tactic(auto)]

mod answers;
mod calls;
mod code;
mod deferred;
mod evaluation;
mod gotos;
mod growing;
mod held;
mod instructions;
mod longer;
mod made;
mod matching;
mod naming;
mod operands;
mod patterns;
mod perform;
mod replacement;
mod statements;
mod steps;
mod string_nodes;
mod targets;
mod unlisted;

pub use answers::answer_of;
pub use calls::Calls;
pub use code::Code;
pub use evaluation::{evaluate, pattern_of};
pub use matching::match_first;
pub use perform::perform_step;
pub use steps::{Step, Subject};
pub use targets::{Branches, Goto, Next};
