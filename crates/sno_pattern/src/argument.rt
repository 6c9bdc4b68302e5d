//! The arguments of primitives.

/// The argument of a primitive.
#[derive(Clone, Copy, Debug)]
pub enum Arg<'a> {
    /// A number of bytes, or a cursor.
    Count(i64),
    /// The bytes of a set, in any order; repeats do not count.
    Set(&'a [u8]),
}
