//! Values of SNOBOL4 programs, and what is computed of them.
//!
//! `value` has the values and the names that can be assigned to, `text` their strings, `ids` the numbers by which
//! other crates' tables know their entries, `keys` short names as numbers, and `kind` the primitives that take an
//! argument. `integer` reads and writes integers, `digits` writes them with no memory, `arithmetic` computes with them,
//! and `strings` has the functions of texts.
#![tactic(auto)]

mod arithmetic;
mod digits;
mod ids;
mod integer;
mod keys;
mod kind;
mod strings;
mod text;
mod value;

pub use arithmetic::{Arith, add, div, mul, pow, remdr, sub};
pub use digits::Digits;
pub use ids::{ExprId, ObjId, PatId, SymId};
pub use integer::{int_text, to_int};
pub use keys::name_key;
pub use kind::PrimitiveKind as Prim;
pub use strings::{TextError, dupl, dupl_text, lgt, replace, replace_text, trim};
pub use text::Text;
pub use value::{Name, Value};
