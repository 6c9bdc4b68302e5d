//! The texts of help, as they are told.

pub const WAYS_HELP: &str = "List the ways in which a pattern matches a subject.

Each way is a line: where it starts, where it ends, and the assignments that it
would make. Assignments that are made while the pattern is tried have lines of
their own. The last line tells how the search ended: exhausted, aborted, limit.
A word that begins with - is given behind --.

Usage: snobol4 ways [OPTIONS] <PATTERN> <SUBJECT>

Arguments:
  <PATTERN>
          A pattern, written as in a program

  <SUBJECT>
          The text in which it is matched

Options:
      --anchor
          Start at the subject's first byte alone

      --steps <N>
          The most steps of the match: 0 to 1000000000 [default: 1000000]

  -h, --help
          Print help (see a summary with '-h')

Examples:
  snobol4 ways --anchor \"'A' | 'AB'\" AB
  snobol4 ways \"BREAK(',') . FIELD\" one,two

Statuses:
  0   the ways were listed, at the limit too
  1   an error, which standard error tells by its number
  2   the pattern is refused
  6   no memory
  7   standard output failed
  64  wrong words on the command line

Documents: docs/LANGUAGE.md, docs/ERRORS.md, man snobol4
";

pub const RUN_HELP: &str = "Run a program.

What the program assigns to OUTPUT goes to standard output, and INPUT reads a
line of standard input. A run ends at END, at an error, or at a limit: so many
statements in all, and so many steps in each match. An error is told with the
number of its statement: snobol4-list FILE lists a program with these numbers.

Usage: snobol4 run [OPTIONS] <FILE>

Arguments:
  <FILE>
          The file that holds the program

Options:
      --statements <N>
          The most statements of the run: 1 to 1000000000000 [default: 1000000]

      --match-steps <N>
          The most steps of each match: 0 to 1000000000 [default: 1000000]

  -h, --help
          Print help (see a summary with '-h')

Examples:
  snobol4 run hello.sno
  snobol4 run --statements 50000000 words.sno < words.txt
  snobol4 run /dev/stdin < hello.sno

Statuses:
  0   the program came to its END
  1   an error, which standard error tells by its number
  2   the program is refused
  3   FILE can't be read
  4   the limit of statements (error 20)
  5   the limit of match steps (error 21)
  6   no memory
  7   standard input or output failed
  64  wrong words on the command line

Documents: docs/LANGUAGE.md, docs/ERRORS.md, man snobol4
";

pub const CHECK_HELP: &str = "Check a program: nothing is written where it is accepted.

The program is read as by run, and not run. Where it is refused, standard error
tells the first line at which something is wrong.

Usage: snobol4 check <FILE>

Arguments:
  <FILE>
          The file that holds the program

Options:
  -h, --help
          Print help (see a summary with '-h')

Examples:
  snobol4 check hello.sno
  snobol4 check hello.sno && snobol4 run hello.sno
  snobol4 check /dev/stdin < hello.sno

Statuses:
  0   the program is accepted
  2   the program is refused
  3   FILE can't be read
  6   no memory
  64  wrong words on the command line

Documents: docs/LANGUAGE.md, docs/ERRORS.md, man snobol4
";

pub const HELP: &str = "A SNOBOL4 interpreter with a resumable pattern matcher.

It runs SNOBOL4 programs, tells what is wrong with them, and lists every way in
which a pattern matches a text, in the order in which the ways are tried.

Usage: snobol4 run [--statements N] [--match-steps N] FILE
       snobol4 check FILE
       snobol4 ways [--anchor] [--steps N] PATTERN SUBJECT

Commands:
  run    Run a program
  check  Check a program: nothing is written where it is accepted
  ways   List the ways in which a pattern matches a subject
  help   Print this message or the help of the given subcommand(s)

Options:
  -h, --help
          Print help (see a summary with '-h')

  -V, --version
          Print version

Examples:
  snobol4 run hello.sno
  snobol4 ways --anchor \"'A' | 'AB'\" AB

Statuses:
  0   the program ended, was accepted, or the ways were listed; help, version
  1   an error, which standard error tells by its number
  2   the program or the pattern is refused
  3   FILE can't be read
  4   the limit of statements (error 20)
  5   the limit of match steps (error 21)
  6   no memory
  7   standard input or output failed
  64  wrong words on the command line

Errors, of which snobol4-list --error K tells more:
  1   data type
  2   overflow
  3   division by zero
  4   undefined function
  5   undefined label
  6   null string
  7   bad count
  8   string too long
  9   store full
  10  call level
  11  failure in a goto
  12  bad prototype
  13  return outside a call
  14  keyword
  15  not a variable
  20  statement limit
  21  match-step limit

Documents: docs/LANGUAGE.md, docs/ERRORS.md, man snobol4
";

pub const SHORT_CHECK_HELP: &str = "Check a program: nothing is written where it is accepted

Usage: snobol4 check <FILE>

Arguments:
  <FILE>  The file that holds the program

Options:
  -h, --help  Print help (see more with '--help')

Examples:
  snobol4 check hello.sno
  snobol4 check hello.sno && snobol4 run hello.sno
  snobol4 check /dev/stdin < hello.sno

Statuses:
  0   the program is accepted
  2   the program is refused
  3   FILE can't be read
  6   no memory
  64  wrong words on the command line

Documents: docs/LANGUAGE.md, docs/ERRORS.md, man snobol4
";

pub const NO_COMMAND: &str = "error: unrecognized subcommand 'hello.sno'

Usage: snobol4 run [--statements N] [--match-steps N] FILE
       snobol4 check FILE
       snobol4 ways [--anchor] [--steps N] PATTERN SUBJECT

For more information, try '--help'.
";
