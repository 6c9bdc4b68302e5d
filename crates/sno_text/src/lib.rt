//! The reader of SNOBOL4 programs and expressions: a text becomes a flat table of expression nodes, or is refused with
//! the line and the reason.
//!
//! A program is read from `whole` down: `layout` joins its lines and cuts them into statements, and `judge` judges
//! these in their order, up to END. Of each `scan` looks for literals and brackets that are open, `phrase` reads its
//! label, its core (`body`) and its gotos (`goto`), and `expression` what stands in these. An expression alone is read
//! from `reader` down: `expression` has a function for each part of the grammar, `operator` the signs, `token` the
//! primaries of one token, `bytes` the classes of bytes. `table` holds the nodes as they are made, and `program` is
//! what is given. `laws` has what is true of the grammar.
#![tactic(auto)]

mod body;
mod bytes;
mod error;
mod expression;
mod goto;
mod judge;
mod laws;
mod layout;
mod node;
mod operator;
mod phrase;
mod program;
mod reader;
mod scan;
mod statement;
mod table;
mod token;
mod whole;

pub use error::ReadError;
pub use laws::one_tree;
pub use node::{Node, Operator, Span, UnaryOperator};
pub use program::Program;
pub use reader::read_expression;
pub use statement::{Core, Jump, Statement, Target};
pub use whole::read_program;
