//! Tests of the language: worked rows of patterns and programs, and devices that fail at each byte.
#![tactic(auto)]

#[cfg(test)]
mod tests;
