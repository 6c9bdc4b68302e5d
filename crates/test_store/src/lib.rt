//! Tests of the store: worked rows of its calls.
#![tactic(auto)]

#[cfg(test)]
mod tests;
