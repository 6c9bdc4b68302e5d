//! What the words of the command line ask for.

/// What a run may use. The caller of a run owes that both numbers lie in their ranges.
#[derive(Clone, Copy, Debug, PartialEq, Eq)]
pub struct Limits {
    /// The most statements that may be executed: 1 to 1,000,000,000,000.
    pub statements: u64,
    /// The most steps of one match: 0 to 1,000,000,000.
    pub match_steps: u32,
}

/// What the program is to do.
#[derive(Clone, Copy, Debug, PartialEq, Eq)]
pub enum Job<'a> {
    /// Run a program.
    Run {
        /// The file that holds the program.
        file: &'a str,
        /// What the run may use; where the words say nothing, 1,000,000 statements and 1,000,000 steps of each match.
        limits: Limits,
    },
    /// Read a program, and say what is wrong with it.
    Check {
        /// The file that holds the program.
        file: &'a str,
    },
    /// List the ways in which a pattern matches a subject.
    Ways {
        /// Whether a match may begin at the subject's first byte alone.
        anchored: bool,
        /// The most steps: 0 to 1,000,000,000, and 1,000,000 where the words say nothing.
        steps: u32,
        /// The text of the pattern.
        pattern: &'a str,
        /// The subject.
        subject: &'a str,
    },
}
