//! Tests of the values, the devices and the reader: worked rows, and that calls which take memory succeed.
#![tactic(auto)]

#[cfg(test)]
mod tests;
