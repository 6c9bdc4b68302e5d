//! A value as it was, which only proofs read.
ghost use Rattle.std.specs.Prelude.{◌≡◌};
ghost use Rattle.std.specs.Borrow.{ftrue};

use std::marker::{Model, PhantomData};

/// A value as it was when it was lent: a clause reads it as `value`. It takes no memory, and nothing is done at run
/// time.
#[derive(Drop)]
pub(crate) struct Snapshot<T> {
    of: PhantomData<T>,
    pub ghost value: { T },
}

impl<T> Model for Snapshot<T> {
    ghost also_owns = { λ _. ftrue };
}

impl<T> Snapshot<T> {
    /// The value as it is now.
    pub(crate) fn of(x: &T) -> Snapshot<T>
        ensures { result.value ≡ x.now }
    {
        Snapshot { of: PhantomData }
    }
}
