//! What the program says of itself.

/// The version of the program.
pub const VERSION: &str = "0.9.0";

/// The program, in a line.
pub const ABOUT: &str = "List a SNOBOL4 program with the numbers of its statements";

/// What the program does.
pub const LONG_ABOUT: &str = "List a SNOBOL4 program with the numbers of its statements.

Each line stands behind the number of the first statement that begins in it, as
an error names it. Warnings stand behind the listing: labels, variables and
functions that are most likely misspelt, and what is not read as one may think.
A program that is refused is listed up to the refusal, with a mark below the
place that is most likely wrong. An error by its number is told with what helps,
and with FILE also the names that it may be of.";

/// Examples, the statuses, and where to read on.
pub const AFTER: &str = "Examples:
  snobol4-list words.sno
  snobol4-list --statement 36 words.sno
  snobol4-list --error 5
  snobol4-list --error 5 --statement 36 words.sno

Statuses:
  0   the program was listed; help, version
  2   the program is refused
  3   FILE can't be read
  6   no memory
  7   standard output failed
  64  wrong words on the command line, no statement N, or no error K

Documents: docs/ERRORS.md, man snobol4-list";

/// What the option `--statement` does.
pub const STATEMENT: &str = "List this statement alone: 1 to 100000";

/// What the option `--error` does.
pub const ERROR: &str = "Tell what this error is: 1 to 21";

/// What FILE is.
pub const FILE: &str = "The file that holds the program";
