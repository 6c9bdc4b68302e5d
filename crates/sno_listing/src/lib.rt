//! The listing of a program: its lines behind the numbers of their statements, with warnings, or with the reason why it is
//! refused; and what an error is, by its number.
//!
//! `report` puts together what is told of a text. `listing` numbers its lines and `single` lists one statement. The
//! warnings, the reason and what an error is are those of `sno_advice`.
#![tactic(auto)]

mod listing;
mod report;
mod single;

pub use report::{Report, make_answer, make_report};
