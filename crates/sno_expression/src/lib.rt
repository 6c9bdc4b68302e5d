//! Expressions: what they give, the code that they are made into, and how its instructions are run.
//!
//! `forms` says which operands each form of expression has. `compile` makes the code of one expression, instruction by
//! instruction (`instruction`), and `flat` that of all expressions of a program; `names` are those that stand in it,
//! each with the symbol that it is likely to be. `in_place` reads tokens and runs the operation behind them at once,
//! `told` tells what instructions give of numbers alone (`calculation`, `signs`), and `alone` what some code gives that
//! is a token or is told so; `joined` joins strings, long ones in one `block`, `places` are items and fields, as values
//! and as names, and `entries` those that are made.
//! `quick` does what two numbers (`numerals`), an item (`items`), a field (`fields`), two values that are joined
//! (`joining`) or a function that examines its arguments (`examining`) need, `tokens` what a function of the language
//! gives of tokens, and `apply` any form. `building` runs the instructions that make a pattern (`patterns`), and
//! `standing` finds out, with `waiting`, `leaves` and `arguments`, whether the table has it already. The loop over all
//! instructions stands in `sno_statement`, since a call in their midst performs statements.
#![tactic(auto)]

mod alone;
mod apply;
mod arguments;
mod block;
mod building;
mod calculation;
mod compile;
mod entries;
mod examining;
mod fields;
mod flat;
mod forms;
mod growing;
mod in_place;
mod instruction;
mod items;
mod joined;
mod joining;
mod leaves;
mod names;
mod numerals;
mod patterns;
mod places;
mod quick;
mod signs;
mod standing;
mod tokens;
mod told;
mod waiting;

pub use alone::{
    asks_field, calculated, first_operand, is_call, is_null_literal, last_form, only_token,
    only_told, token_value, told_integer,
};
pub use apply::apply_instruction;
pub use arguments::key_of;
pub use building::{begin, build, joins_patterns, makes_pattern};
pub use compile::Compiler;
pub use entries::{named_entry, names_item};
pub use flat::{Flat, Roots};
pub use forms::{Part, Wanted, name_of, value_of};
pub use growing::{begins_with, joined_behind, joins_literal, literal_behind};
pub use in_place::{instruction_at, run_in_place};
pub use instruction::{Failing, Instruction};
pub use joined::only_joined;
pub use names::Known;
pub use places::{only_field, only_in_plane, only_item, only_name, only_place};
pub use quick::{Calculated, Form, Quick, attempt};
pub use standing::nodes_of;
pub use tokens::{over_tokens, put_tokens};
pub use told::calculate_alone;
