//! Tests of the patterns and the matcher: worked rows, a plain search beside the engine, and refused memory.
#![tactic(auto)]

#[cfg(test)]
mod tests;
