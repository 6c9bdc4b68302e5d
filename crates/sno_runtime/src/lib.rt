//! What a running program works on: its variables, keywords, input and patterns, and what the operators and functions
//! of the language give of values. Evaluation and statements stand above it, in `sno_expression` and `sno_statement`.
//!
//! `runtime` is what all of it works on, by topic. `operators` and `unary_operators` give what an operator gives of
//! its operands, `items` what subscripts give. `builtins` finds a function of the language by its name, and
//! `functions` calls it: those of `numbers`, `texts`, `types`, `containers`, and the objects of a program's own types
//! (`fields`). `convert` turns values into numbers, texts and patterns. `effects` does what an event of a match does,
//! and `lines` writes it as a line of a listing. `stops` says why an expression gives no value or a run is over, with
//! the numbers of `errors` and the `limits` of the language.
#![tactic(auto)]

mod builtins;
mod containers;
mod convert;
mod effects;
mod errors;
mod fields;
mod functions;
mod items;
mod keywords;
mod limits;
mod lines;
mod numbers;
mod operators;
mod runtime;
mod stops;
mod texts;
mod types;
mod unary_operators;

pub use builtins::{Builtin, Plain, Relation, function_named};
pub use convert::{as_pattern, is_null, number, number_of, text_of};
pub use effects::{assign, take_effect, take_effect_in};
pub use errors::{
    CALL_LEVEL, DATA_TYPE, FAILURE_IN_GOTO, MATCH_LIMIT, NO_KEYWORD, NO_VARIABLE, NULL_STRING,
    RETURN_OUTSIDE, TOO_LONG, UNDEFINED_FUNCTION, UNDEFINED_LABEL,
};
pub use fields::{ask_field, construct, field_as_name, field_value};
pub use functions::{answer, argument, called};
pub use items::{element_at, item, item_name};
pub use keywords::{Keywords, is_settable};
pub use limits::MOST_BYTES;
pub use lines::line_of;
pub use numbers::stands;
pub use operators::operation;
pub use runtime::{Runtime, is_input};
pub use stops::{Exit, Stop, error};
pub use types::same;
pub use unary_operators::{unary, unary_name};
