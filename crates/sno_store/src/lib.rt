//! What a program's run keeps: the symbols, the values of the variables, the arrays, the tables and the objects of the
//! types that the program makes, and the functions that the program defines with their open calls.
//!
//! `store` is the one door, and does little itself: it has the values of variables, by the numbers that `symbols` finds
//! for their names. `objects` finds an `object` by its number: an array (`elements`, made by a `prototype` of its
//! `dimension`s), a table (`entries`) or an object of a type that the program makes (`instance`, of a `data_type`, made
//! by a `type_prototype`). `functions` tells what a name is as a function, `definition` what such a function is (made
//! by a `function_prototype`), and `calls` begins and ends its calls.
#![tactic(auto)]

mod calls;
mod data_type;
mod definition;
mod dimension;
mod doubles;
mod elements;
mod entries;
mod error;
mod function_prototype;
mod functions;
mod hash;
mod index;
mod instance;
mod object;
mod objects;
mod prototype;
mod store;
mod symbols;
mod tree;
mod type_prototype;

pub use definition::Definition;
pub use error::StoreError;
pub use store::Store;
