//! Worked rows, from the rules and by hand.
mod arithmetic;
mod commands;
mod devices;
mod drawing;
mod expressions;
mod help_texts;
mod input;
mod integers;
mod limits;
mod lines;
mod reading;
mod refusals;
mod rows;
mod statements;
mod strings;
mod values;
