//! Limits of the language (this profile).

/// The most bytes of a string.
pub const MOST_BYTES: usize = 1_000_000;
