//! The numbers of the errors (this profile).

/// A value has the wrong data type.
pub const DATA_TYPE: u8 = 1;
/// An integer doesn't fit 64 bits.
pub const OVERFLOW: u8 = 2;
/// A divisor is 0.
pub const DIVISION_BY_ZERO: u8 = 3;
/// A function has no definition.
pub const UNDEFINED_FUNCTION: u8 = 4;
/// A label is none of the program.
pub const UNDEFINED_LABEL: u8 = 5;
/// A set of bytes, or a name, is null.
pub const NULL_STRING: u8 = 6;
/// A count or an exponent is negative.
pub const BAD_COUNT: u8 = 7;
/// A string has more than 1,000,000 bytes.
pub const TOO_LONG: u8 = 8;
/// There are 4,000,000 pattern nodes, or 1,000,000 symbols.
pub const STORE_FULL: u8 = 9;
/// There are 200 open calls.
pub const CALL_LEVEL: u8 = 10;
/// What fails where a statement goes on.
pub const FAILURE_IN_GOTO: u8 = 11;
/// A text is no prototype, or there are too many or too few subscripts.
pub const BAD_PROTOTYPE: u8 = 12;
/// A return outside a call.
pub const RETURN_OUTSIDE: u8 = 13;
/// There is no such keyword.
pub const NO_KEYWORD: u8 = 14;
/// A form has no name.
pub const NO_VARIABLE: u8 = 15;
/// A program has begun as many statements as may begin.
pub const STATEMENT_LIMIT: u8 = 20;
/// A search takes more steps than a match may.
pub const MATCH_LIMIT: u8 = 21;
